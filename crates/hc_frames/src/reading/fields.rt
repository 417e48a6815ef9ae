//! Fields of a frame and of a datagram at the front of some bytes.
ghost use Rattle.std.specs.Prelude.{◌≡◌, ◌+◌, ◌^◌, ◌<◌, ◌≤◌, drop, length, true};
ghost use Rattle.hc_frames.specs.Arrived.{circulates, data_size, has_bad_type, has_other_index, is_not_ethercat, is_unknown, is_whole, long_at, says_more, serial_in, word_at};

use crate::commands::Command;
use crate::limits::{BESIDE_DATA_BYTES, MAX_DATA};

/// Returns the number in two bytes, low byte first, as the fields of frames and datagrams have it (ETG.1000.4, 5.3 and 5.4).
pub fn word_at(bytes: &[u8], at: usize) -> u16
    requires { at + 2 ≤ length bytes.now }
    ensures { result ≡ word_at bytes.now at }
{
    u16::from_le_bytes([bytes[at], bytes[at + 1]])
}

/// Returns the number in four bytes, low byte first, as a datagram's address has it (ETG.1000.4, 5.4).
pub fn long_at(bytes: &[u8], at: usize) -> u32
    requires { at + 4 ≤ length bytes.now }
    ensures { result ≡ long_at bytes.now at }
{
    u32::from(word_at(bytes, at)) + 65536 * u32::from(word_at(bytes, at + 2))
}

/// Returns the serial: the forty bits after the source's first byte, high byte first.
pub(crate) fn serial_in(frame: &[u8]) -> u64
    requires { 12 ≤ length frame.now }
    ensures value { result ≡ serial_in frame.now }
    ensures below { result < 2 ^ 40 }
{
    u64::from_be_bytes([0, 0, 0, frame[7], frame[8], frame[9], frame[10], frame[11]])
}

/// Returns whether the EtherType is not EtherCAT's.
pub(crate) fn is_not_ethercat(frame: &[u8]) -> bool
    requires { 14 ≤ length frame.now }
    ensures { result ≡ is_not_ethercat frame.now }
{
    !(frame[12] == 0x88 && frame[13] == 0xa4)
}

/// Returns whether the EtherCAT header has another type than datagrams.
pub(crate) fn has_bad_type(frame: &[u8]) -> bool
    requires { 16 ≤ length frame.now }
    ensures { result ≡ has_bad_type frame.now }
{
    word_at(frame, 14) / 2048 != 2
}

/// Returns the number of data bytes of the datagram at the front.
pub(crate) fn data_size(bytes: &[u8]) -> usize
    requires { 12 ≤ length bytes.now }
    ensures size { result ≡ data_size bytes.now }
    ensures low { result < 2048 }
{
    usize::from(word_at(bytes, 6) % 2048)
}

/// Returns whether a whole datagram with data is at the front.
pub(crate) fn is_whole(bytes: &[u8]) -> bool
    ensures { result ≡ is_whole bytes.now }
{
    if bytes.len() < BESIDE_DATA_BYTES {
        return false;
    }
    let size = data_size(bytes);
    1 <= size
        && size <= usize::from(MAX_DATA)
        && word_at(bytes, 6) / 2048 % 8 == 0
        && BESIDE_DATA_BYTES + size <= bytes.len()
}

/// Returns whether the circulating bit of the datagram at the front is set.
pub(crate) fn circulates(bytes: &[u8]) -> bool
    requires { 12 ≤ length bytes.now }
    ensures { result ≡ circulates bytes.now }
{
    word_at(bytes, 6) / 16384 % 2 == 1
}

/// Returns whether the datagram at the front says that more follow.
pub(crate) fn says_more(bytes: &[u8]) -> bool
    requires { 12 ≤ length bytes.now }
    ensures { result ≡ says_more bytes.now }
{
    32768 <= word_at(bytes, 6)
}

/// Returns whether the command of the datagram at the front is not one that this project uses.
pub(crate) fn is_unknown(bytes: &[u8]) -> bool
    requires { 12 ≤ length bytes.now }
    ensures { result ≡ is_unknown bytes.now }
{
    Command::of(bytes[0]).is_none()
}

/// Returns whether the index of the datagram at the front differs from this one.
pub(crate) fn has_other_index(index: u8, bytes: &[u8]) -> bool
    requires { 12 ≤ length bytes.now }
    ensures { result ≡ has_other_index index bytes.now }
{
    bytes[1] != index
}

/// Returns the bytes after the whole datagram at the front.
pub(crate) fn after_it(bytes: &[u8]) -> &[u8]
    requires { is_whole bytes.now ≡ true }
    ensures { result.now ≡ drop (12 + data_size bytes.now) bytes.now }
{
    &bytes[BESIDE_DATA_BYTES + data_size(bytes)..]
}
