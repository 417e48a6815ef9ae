//! The builder of a frame of several datagrams, which opens it.
ghost use Rattle.std.specs.Borrow.{sem};
ghost use Rattle.hc_frames.specs.Handing.{LendsOpen};
ghost use Rattle.std.specs.Prelude.{◌++◌, ◌≡◌, ◌^◌, ◌<◌, ◌≤◌, ◌↔◌, length, drop, map, IsErr, IfOk, IfErr};
ghost use Rattle.hc_frames.specs.FrameText.{frame_text, blank_lrw};
ghost use Rattle.hc_frames.specs.Opened.{OpensFrame};
ghost use Rattle.hc_frames.specs.Sizes.{ShareFrame, datagrams_size, frame_bytes};

use super::Open;
use crate::building::Room;
use crate::building::frames::{build_blank_frame, datagrams_size, frame_bytes};
use crate::limits::HEAD_BYTES;

/// Returns the length of a frame of these datagrams.
fn whole_size(datagrams: &[(u32, u16)]) -> usize
    requires { ShareFrame datagrams.now }
    ensures { result ≡ frame_bytes (datagrams_size datagrams.now) }
{
    frame_bytes(datagrams_size(datagrams))
}

/// Writes a frame of zeros to the front of a slice, and returns the slice.
fn with_blank_frame<'a>(out: &'a mut [u8], serial: u64, datagrams: &'a [(u32, u16)]) -> &'a mut [u8]
    requires room { frame_bytes (datagrams_size datagrams.now) ≤ length out.old }
    requires serial { serial < 2 ^ 40 }
    requires share { ShareFrame datagrams.now }
    ensures same { result.ghost_name ≡ out.entry.ghost_name }
    ensures text { result.now ≡ frame_text serial (map blank_lrw datagrams.now) ++ drop (frame_bytes (datagrams_size datagrams.now)) out.old }
{
    let _ = build_blank_frame(out, serial, datagrams);
    out
}

/// Writes a frame of LRW datagrams of zeros to the front of `out`, and opens it: `Open::next` lends the data parts. The
/// datagrams are given by address and number of data bytes, at least 1 each; with 12 bytes beside the data of each they have at
/// most 1,498 bytes. `serial` is below 2^40. After the loans `out` is the frame's first 16 bytes and what was left after them.
/// Fails with `Room` and the length needed if `out` is shorter; then `out` is unchanged.
pub fn build_frame<'a>(
    out: &'a mut [u8],
    serial: u64,
    datagrams: &'a [(u32, u16)],
) -> Result<Open<'a>, Room>
    requires serial { serial < 2 ^ 40 }
    requires share { ShareFrame datagrams.now }
    ensures* lent { sem 𝓛 (LendsOpen out.entry serial datagrams.now result) }
    ensures short { IsErr result ↔ (length out.old < frame_bytes (datagrams_size datagrams.now)) }
    ensures needed { IfErr result (λ room. room.0 ≡ frame_bytes (datagrams_size datagrams.now)) }
    ensures opened { IfOk result (OpensFrame out.old serial datagrams.now) }
{
    let needed = whole_size(datagrams);
    if out.len() < needed {
        return Err(Room(needed));
    }
    let frame = with_blank_frame(out, serial, datagrams);
    Ok(Open {
        rest: &mut frame[HEAD_BYTES..],
        datagrams,
        serial,
    })
}
