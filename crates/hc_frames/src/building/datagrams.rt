//! Builders of datagrams in slices of their exact length.
ghost use Rattle.std.specs.Prelude.{◌≡◌, ◌+◌, ◌*◌, ◌≤◌, ◌++◌, OnOk, length, map};
ghost use Rattle.hc_frames.specs.FrameText.{block_write, sent_datagram_text, sent_datagrams_text, blank_lrw, lrw, station_address};
ghost use Rattle.hc_frames.specs.Sizes.{datagrams_size};

use super::heads::datagram_head;
use crate::commands::Command;
use crate::limits::{BESIDE_DATA_BYTES, DATAGRAM_HEAD_BYTES, MAX_DATA, MAX_ETHERCAT};
use std::alloc::AllocError;

/// Writes one datagram with these data bytes and the working counter 0. `out` has 12 bytes more than the data.
pub(crate) fn write_datagram(
    out: &mut [u8],
    serial: u64,
    command: Command,
    address: u32,
    bytes: &[u8],
    more: bool,
)
    requires exact { length out.old ≡ 12 + length bytes.now }
    requires size { length bytes.now ≤ MAX_DATA }
    ensures { out.new ≡ sent_datagram_text serial more (record { command = command; address = address; bytes = bytes.now }) }
{
    let (head, rest) = out.split_at_mut(DATAGRAM_HEAD_BYTES);
    let (data, counter) = rest.split_at_mut(bytes.len());
    head.copy_from_slice(&datagram_head(serial, command, address, bytes.len() as u16, more));
    data.copy_from_slice(bytes);
    counter.fill(0);
}

/// Writes one LRW datagram with these data bytes, 1 to 1,486, and the working counter 0, in one copy. `out` has 12 bytes more than
/// the data. `more` says that another datagram follows it.
pub fn build_datagram_of(out: &mut [u8], serial: u64, address: u32, bytes: &[u8], more: bool)
    requires exact { length out.old ≡ 12 + length bytes.now }
    requires size { length bytes.now ≤ MAX_DATA }
    ensures { out.new ≡ sent_datagram_text serial more (lrw address bytes.now) }
{
    write_datagram(out, serial, Command::Lrw, address, bytes, more);
}

/// Returns the address of a register of the slave with a station address: the station in the low word, the register in the high
/// word.
pub(crate) fn station_address(station: u16, register: u16) -> u32
    ensures { result ≡ station_address station register }
{
    u32::from(station) + 65536 * u32::from(register)
}

/// Writes one datagram of a register block write (FPWR) with these data bytes, 1 to 1,486, and the working counter 0.
/// `out` has 12 bytes more than the data. `more` says that another datagram follows it. After the 16 bytes of `build_head`,
/// one such datagram and zeros up to the least frame are the frame of `build_write`.
pub fn build_write_datagram(
    out: &mut [u8],
    serial: u64,
    station: u16,
    register: u16,
    bytes: &[u8],
    more: bool,
)
    requires exact { length out.old ≡ 12 + length bytes.now }
    requires size { length bytes.now ≤ MAX_DATA }
    ensures { out.new ≡ sent_datagram_text serial more (block_write station register bytes.now) }
{
    let address = station_address(station, register);
    write_datagram(out, serial, Command::Fpwr, address, bytes, more);
}

/// Appends one LRW datagram with these data bytes to a list, as `build_datagram_of` writes it. `AllocError` if the list's
/// capacity is too small and an allocation fails.
pub fn add_datagram_of(
    text: &mut Vec<u8>,
    serial: u64,
    address: u32,
    bytes: &[u8],
    more: bool,
) -> Result<(), AllocError>
    requires { length bytes.now ≤ MAX_DATA }
    ensures { OnOk result (text.new.items ≡ text.old.items ++ sent_datagram_text serial more (lrw address bytes.now)) }
{
    let size = bytes.len() as u16;
    text.extend_from_slice(&datagram_head(serial, Command::Lrw, address, size, more))?;
    text.extend_from_slice(bytes)?;
    text.extend_from_slice(&[0, 0])
}

/// Writes one LRW datagram whose data bytes are 0, with the working counter 0. `out` has 12 bytes more than `size`, the
/// number of data bytes, 1 to 1,486; the data are from byte 10 on. `more` says that another datagram follows it.
pub fn build_blank_datagram(out: &mut [u8], serial: u64, address: u32, size: u16, more: bool)
    requires exact { length out.old ≡ 12 + size }
    requires size { size ≤ MAX_DATA }
    ensures { out.new ≡ sent_datagram_text serial more (blank_lrw (address, size)) }
{
    out.fill(0);
    out[..DATAGRAM_HEAD_BYTES].copy_from_slice(&datagram_head(
        serial,
        Command::Lrw,
        address,
        size,
        more,
    ));
}

/// Writes LRW datagrams of zeros, given by address and number of data bytes, one after another; each but the last is followed
/// by more. `out` has their exact length. A frame has at most 115, which bounds the recursion.
pub(crate) fn write_blank_datagrams(out: &mut [u8], serial: u64, datagrams: &[(u32, u16)])
    requires exact { length out.old ≡ datagrams_size datagrams.now }
    requires size { 2 + length out.old ≤ MAX_ETHERCAT }
    ensures { out.new ≡ sent_datagrams_text serial (map blank_lrw datagrams.now) }
{
    if let [(address, size), rest @ ..] = datagrams {
        let (first, others) = out.split_at_mut(BESIDE_DATA_BYTES + usize::from(*size));
        build_blank_datagram(first, serial, *address, *size, !rest.is_empty());
        write_blank_datagrams(others, serial, rest);
    }
}
