//! Builders that lend the data part of a datagram or a frame for writing.
ghost use Rattle.std.specs.Borrow.{sem};
ghost use Rattle.std.specs.Prelude.{◌≡◌, ◌+◌, ◌^◌, ◌<◌, ◌≤◌, [], ◌∷◌, ◌++◌, ◌↔◌, length, drop, replicate, IsErr, IfOk, IfErr};
ghost use Rattle.hc_frames.specs.FrameText.{sent_datagram_text, frame_text, blank_lrw};
ghost use Rattle.hc_frames.specs.Lending.{LendsData, LendsFrameData, LendsFrameIfOk};
ghost use Rattle.hc_frames.specs.Sizes.{frame_size};

use super::Room;
use super::datagrams::build_blank_datagram;
use super::frames::{build_blank_lrw, frame_size};
use crate::limits::{DATAGRAM_HEAD_BYTES, FIRST_DATA, MAX_DATA};

/// Writes a datagram of zeros, and returns its slice.
fn with_blank_datagram(
    out: &mut [u8],
    serial: u64,
    address: u32,
    size: u16,
    more: bool,
) -> &mut [u8]
    requires exact { length out.old ≡ 12 + size }
    requires size { size ≤ MAX_DATA }
    ensures same { result.ghost_name ≡ out.entry.ghost_name }
    ensures text { result.now ≡ sent_datagram_text serial more (blank_lrw (address, size)) }
{
    build_blank_datagram(out, serial, address, size, more);
    out
}

/// Writes one LRW datagram with the working counter 0, and lends its data part, which is zeros at first. `out` has 12 bytes
/// more than `size`, the number of data bytes, 1 to 1,486. `more` says that another datagram follows it. After the loan `out`
/// is the datagram with the data that were left in the part.
pub fn build_datagram(out: &mut [u8], serial: u64, address: u32, size: u16, more: bool) -> &mut [u8]
    requires exact { length out.old ≡ 12 + size }
    requires size { size ≤ MAX_DATA }
    ensures* written { sem 𝓛 (LendsData out.entry serial address more result) }
    ensures blank { result.now ≡ replicate size 0 }
{
    let datagram = with_blank_datagram(out, serial, address, size, more);
    &mut datagram[DATAGRAM_HEAD_BYTES..DATAGRAM_HEAD_BYTES + size as usize]
}

/// Writes a frame of zeros to the front of a slice, and returns the slice.
fn with_blank_lrw(out: &mut [u8], serial: u64, address: u32, size: u16) -> &mut [u8]
    requires room { frame_size size ≤ length out.old }
    requires serial { serial < 2 ^ 40 }
    requires filled { 1 ≤ size }
    requires size { size ≤ MAX_DATA }
    ensures same { result.ghost_name ≡ out.entry.ghost_name }
    ensures text { result.now ≡ frame_text serial (blank_lrw (address, size) ∷ []) ++ drop (frame_size size) out.old }
{
    let _ = build_blank_lrw(out, serial, address, size);
    out
}

/// Lends the data part of a frame of one datagram.
fn lend_lrw(out: &mut [u8], serial: u64, address: u32, size: u16) -> &mut [u8]
    requires room { frame_size size ≤ length out.old }
    requires serial { serial < 2 ^ 40 }
    requires filled { 1 ≤ size }
    requires size { size ≤ MAX_DATA }
    ensures* written { sem 𝓛 (LendsFrameData out.entry serial address size result) }
    ensures blank { result.now ≡ replicate size 0 }
{
    let frame = with_blank_lrw(out, serial, address, size);
    &mut frame[FIRST_DATA..FIRST_DATA + size as usize]
}

/// Writes a frame of one LRW datagram to the front of `out`, and lends its data part, which is zeros at first. `size` is the
/// number of data bytes, 1 to 1,486, and `serial` is below 2^40. After the loan `out` is the frame with the data that were left
/// in the part, and after it the old bytes. Fails with `Room` and the length needed if `out` is shorter; then `out` is
/// unchanged.
pub fn build_lrw(out: &mut [u8], serial: u64, address: u32, size: u16) -> Result<&mut [u8], Room>
    requires serial { serial < 2 ^ 40 }
    requires filled { 1 ≤ size }
    requires size { size ≤ MAX_DATA }
    ensures* written { sem 𝓛 (LendsFrameIfOk out.entry serial address size result) }
    ensures short { IsErr result ↔ (length out.old < frame_size size) }
    ensures needed { IfErr result (λ room. room.0 ≡ frame_size size) }
    ensures blank { IfOk result (λ part. part.now ≡ replicate size 0) }
{
    let needed = frame_size(size);
    if out.len() < needed {
        return Err(Room(needed));
    }
    Ok(lend_lrw(out, serial, address, size))
}
