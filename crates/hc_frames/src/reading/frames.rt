//! The reader.
ghost use Rattle.std.specs.Prelude.{◌≡◌, IfErr, IfOk, Some};
ghost use Rattle.hc_frames.specs.Arrived.{Answers, fault_in};
ghost use Rattle.hc_frames.specs.Regions.{ComesAfter, fault_of};

use super::datagrams::{Survey, survey_of};
use super::faults::FrameFault;
use super::fields::{has_bad_type, is_not_ethercat, serial_in, word_at};
use super::returned::Returned;
use crate::limits::{HEAD_BYTES, LEAST_READ, MAX_DATAGRAMS};

/// Returns the bytes of the datagrams, from the EtherCAT header, or the first fault that shows before they are read.
fn region_of(frame: &[u8]) -> Result<&[u8], FrameFault>
    ensures fault { IfErr result (λ fault. fault_in frame.now ≡ Some fault) }
    ensures found { IfOk result (λ region. ComesAfter frame.now region.now) }
{
    if frame.len() < LEAST_READ {
        return Err(FrameFault::Short);
    }
    if is_not_ethercat(frame) {
        return Err(FrameFault::NotEtherCat);
    }
    if has_bad_type(frame) {
        return Err(FrameFault::BadType);
    }
    let size = word_at(frame, 14) % 2048;
    if MAX_DATAGRAMS < size || frame.len() < HEAD_BYTES + usize::from(size) {
        return Err(FrameFault::BadLength);
    }
    Ok(&frame[HEAD_BYTES..HEAD_BYTES + usize::from(size)])
}

/// Returns the first fault that shows in the datagrams.
fn fault_of(seen: Survey) -> Option<FrameFault>
    ensures { result ≡ fault_of seen }
{
    if seen.circulates {
        Some(FrameFault::Circulating)
    } else if seen.more {
        Some(FrameFault::MoreFollows)
    } else if seen.unknown {
        Some(FrameFault::UnknownCommand)
    } else if seen.mismatch {
        Some(FrameFault::IndexMismatch)
    } else {
        None
    }
}

/// Reads a frame of at least one datagram (ETG.1000.4, frame, EtherCAT header and datagram structure; this project's profile).
/// Any destination, first source byte, addresses, interrupt fields, data and working counters are accepted, and any bytes after
/// the datagrams. Fails with the first fault that holds, in the order of `FrameFault`.
pub fn read_frame(frame: &[u8]) -> Result<Returned<'_>, FrameFault>
    ensures { Answers frame.now result }
{
    let region = region_of(frame)?;
    let serial = serial_in(frame);
    let Some(seen) = survey_of(region, (serial % 256) as u8) else {
        return Err(FrameFault::BadLength);
    };
    if seen.count == 0 {
        return Err(FrameFault::BadLength);
    }
    match fault_of(seen) {
        Some(fault) => Err(fault),
        None => Ok(Returned::of(serial, region, seen.count)),
    }
}
