//! The bytes before a frame's datagrams and before a datagram's data.
ghost use Rattle.std.specs.Prelude.{◌≡◌, ◌+◌, ◌%◌, ◌^◌, ◌<◌, ◌≤◌, ◌++◌, OnOk, length};
ghost use Rattle.hc_frames.specs.FrameText.{datagram_head, frame_head};

use crate::commands::Command;
use crate::limits::{MAX_DATA, MAX_ETHERCAT};
use std::alloc::AllocError;

/// A frame's first 16 bytes.
fn frame_head(serial: u64, size: u16) -> [u8; 16]
    requires serial { serial < 2 ^ 40 }
    requires size { size + 2 ≤ MAX_ETHERCAT }
    ensures { result ≡ frame_head serial size }
{
    let [_, _, _, s4, s3, s2, s1, s0] = serial.to_be_bytes();
    let [low, high] = (size + 4096).to_le_bytes();
    [
        255, 255, 255, 255, 255, 255, 2, s4, s3, s2, s1, s0, 0x88, 0xa4, low, high,
    ]
}

/// Appends a frame's first 16 bytes to a list, as `build_head` writes them. `AllocError` if the list's capacity is too small
/// and an allocation fails.
pub fn add_head(text: &mut Vec<u8>, serial: u64, size: u16) -> Result<(), AllocError>
    requires serial { serial < 2 ^ 40 }
    requires size { size + 2 ≤ MAX_ETHERCAT }
    ensures { OnOk result (text.new.items ≡ text.old.items ++ frame_head serial size) }
{
    text.extend_from_slice(&frame_head(serial, size))
}

/// Writes a frame's first 16 bytes: destination, source with the serial (below 2^40), EtherType and EtherCAT header. `out` has
/// 16 bytes, and `size` is the number of bytes of the datagrams, at most 1,498 (ETG.1000.4, EtherCAT header).
pub fn build_head(out: &mut [u8], serial: u64, size: u16)
    requires exact { length out.old ≡ 16 }
    requires serial { serial < 2 ^ 40 }
    requires size { size + 2 ≤ MAX_ETHERCAT }
    ensures { out.new ≡ frame_head serial size }
{
    out.copy_from_slice(&frame_head(serial, size));
}

/// The ten bytes before a datagram's data.
pub(crate) fn datagram_head(
    serial: u64,
    command: Command,
    address: u32,
    size: u16,
    more: bool,
) -> [u8; 10]
    requires { size ≤ MAX_DATA }
    ensures { result ≡ datagram_head (serial % 256) command address size more }
{
    let [a0, a1, a2, a3] = address.to_le_bytes();
    let field = if more { size + 32768 } else { size };
    let [low, high] = field.to_le_bytes();
    [
        command.code(),
        (serial % 256) as u8,
        a0,
        a1,
        a2,
        a3,
        low,
        high,
        0,
        0,
    ]
}
