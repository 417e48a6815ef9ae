//! Builders of whole frames of one datagram.
ghost use Rattle.std.specs.Prelude.{◌≡◌, ◌+◌, ◌-◌, ◌*◌, ◌%◌, ◌^◌, ◌<◌, ◌≤◌, [], ◌∷◌, length, map, replicate};
ghost use Rattle.hc_frames.specs.Builds.{Builds};
ghost use Rattle.hc_frames.specs.FrameText.{frame_text, blank_lrw, block_write, station_write, alias_read, fmmu_off};
ghost use Rattle.hc_frames.specs.Sizes.{ShareFrame, datagrams_size, frame_bytes, frame_size};

use super::Room;
use super::datagrams::{station_address, write_blank_datagrams, write_datagram};
use super::heads::build_head;
use crate::commands::Command;
use crate::limits::{
    ALIAS_REGISTER, BESIDE_DATA_BYTES, HEAD_BYTES, LEAST_FRAME, MAX_DATA, MAX_ETHERCAT, MOST_FMMUS,
    SETUP_SERIAL, STATION_REGISTER,
};
use hc_registers::registers::{FMMU_BLOCK_BYTES, FMMU_BLOCKS};

/// Returns the length of a frame with `size` bytes of datagrams: 16 bytes more, and at least 60.
pub(crate) fn frame_bytes(size: usize) -> usize
    requires { size < 2 ^ 32 }
    ensures { result ≡ frame_bytes size }
{
    usize::from(LEAST_FRAME).max(HEAD_BYTES + size)
}

/// Returns the length of a frame of one datagram with `size` data bytes: 28 bytes more, and at least 60.
pub fn frame_size(size: u16) -> usize
    ensures { result ≡ frame_size size }
{
    frame_bytes(BESIDE_DATA_BYTES + usize::from(size))
}

/// Writes a frame of one datagram with these data bytes into a slice of its exact length.
fn write_frame(out: &mut [u8], serial: u64, command: Command, address: u32, bytes: &[u8])
    requires exact { length out.old ≡ frame_size (length bytes.now) }
    requires serial { serial < 2 ^ 40 }
    requires size { length bytes.now ≤ MAX_DATA }
    ensures { out.new ≡ frame_text serial (record { command = command; address = address; bytes = bytes.now } ∷ []) }
{
    let (head, rest) = out.split_at_mut(HEAD_BYTES);
    let (datagram, padding) = rest.split_at_mut(BESIDE_DATA_BYTES + bytes.len());
    build_head(head, serial, (BESIDE_DATA_BYTES + bytes.len()) as u16);
    write_datagram(datagram, serial, command, address, bytes, false);
    padding.fill(0);
}

/// Writes a frame of one datagram to the front of `out`.
fn build_single(
    out: &mut [u8],
    serial: u64,
    command: Command,
    address: u32,
    bytes: &[u8],
) -> Result<usize, Room>
    requires serial { serial < 2 ^ 40 }
    requires size { length bytes.now ≤ MAX_DATA }
    ensures { Builds out.old out.new result (frame_text serial (record { command = command; address = address; bytes = bytes.now } ∷ [])) (frame_size (length bytes.now)) }
{
    let size = frame_size(bytes.len() as u16);
    if out.len() < size {
        return Err(Room(size));
    }
    write_frame(&mut out[..size], serial, command, address, bytes);
    Ok(size)
}

/// Writes the frame of a register block write (FPWR) to the front of `out`, and returns the frame's length in bytes. `bytes`
/// has 1 to 1,486 bytes, and `serial` is below 2^40. Fails with `Room` and the length needed if `out` is shorter; then `out` is
/// unchanged.
pub fn build_write(
    out: &mut [u8],
    serial: u64,
    station: u16,
    register: u16,
    bytes: &[u8],
) -> Result<usize, Room>
    requires serial { serial < 2 ^ 40 }
    requires filled { 1 ≤ length bytes.now }
    requires size { length bytes.now ≤ MAX_DATA }
    ensures { Builds out.old out.new result (frame_text serial (block_write station register bytes.now ∷ [])) (frame_size (length bytes.now)) }
{
    let address = station_address(station, register);
    build_single(out, serial, Command::Fpwr, address, bytes)
}

/// Returns the low word of the address of the slave at a position: each slave adds 1 to it, and the one that meets 0 is
/// addressed (ETG.1000.4, auto increment addressing).
fn position_address(position: u16, register: u16) -> u32
    ensures { result ≡ (65536 - position) % 65536 + 65536 * register }
{
    u32::from(position.wrapping_neg()) + 65536 * u32::from(register)
}

/// Writes the frame that gives a station address to the slave at a position, counted from 0, to the front of `out` (APWR), and
/// returns the frame's length, 60 bytes. The frame has the setup serial. Fails with `Room` and the length needed if `out` is
/// shorter; then `out` is unchanged.
pub fn build_station(out: &mut [u8], position: u16, station: u16) -> Result<usize, Room>
    ensures { Builds out.old out.new result (frame_text SETUP_SERIAL (station_write position station ∷ [])) 60 }
{
    let address = position_address(position, STATION_REGISTER);
    build_single(
        out,
        SETUP_SERIAL,
        Command::Apwr,
        address,
        &station.to_le_bytes(),
    )
}

/// Writes the frame that reads the configured station alias of the slave at a position, counted from 0, to the front of `out`
/// (APRD), and returns the frame's length, 60 bytes. The frame has the setup serial. Fails with `Room` and the length needed if
/// `out` is shorter; then `out` is unchanged.
pub fn build_alias_read(out: &mut [u8], position: u16) -> Result<usize, Room>
    ensures { Builds out.old out.new result (frame_text SETUP_SERIAL (alias_read position ∷ [])) 60 }
{
    let address = position_address(position, ALIAS_REGISTER);
    build_single(out, SETUP_SERIAL, Command::Aprd, address, &[0, 0])
}

/// Returns `size` zeros.
fn zeros_of(zeros: &[u8; 256], size: usize) -> &[u8]
    requires zeros { zeros.now ≡ replicate 256 0 }
    requires few { size ≤ 256 }
    ensures { result.now ≡ replicate size 0 }
{
    &zeros[..size]
}

/// Writes the frame that writes zeros to the first `count` FMMUs, 1 to 16, of the slave at a station address to the front of
/// `out` (FPWR, ETG.1000.4, 6.6). Returns the frame's length in bytes: 28, and 16 for each FMMU, and at least 60. The frame has
/// the setup serial. It comes back with working counter 1 if the slave took the zeros. A slave that took them, and uses at most
/// `count` FMMUs, takes no part in process data until its FMMUs are written again. Fails with `Room` and the length needed if
/// `out` is shorter; then `out` is unchanged.
pub fn build_fmmu_off(out: &mut [u8], station: u16, count: u8) -> Result<usize, Room>
    requires some { 1 ≤ count }
    requires few { count ≤ MOST_FMMUS }
    ensures { Builds out.old out.new result (frame_text SETUP_SERIAL (fmmu_off station count ∷ [])) (frame_size (FMMU_BLOCK_BYTES * count)) }
{
    let zeros = [0; MOST_FMMUS as usize * FMMU_BLOCK_BYTES as usize];
    let written = zeros_of(&zeros, usize::from(FMMU_BLOCK_BYTES) * usize::from(count));
    build_write(out, SETUP_SERIAL, station, FMMU_BLOCKS, written)
}

/// Writes a frame of LRW datagrams of zeros to the front of `out`, and returns the frame's length in bytes. The datagrams are
/// given by address and number of data bytes, at least 1 each; with 12 bytes beside the data of each they have at most 1,498
/// bytes. `serial` is below 2^40. The data of the first datagram begin at byte 26, those of each next one 12 bytes after the
/// data before. Fails with `Room` and the length needed if `out` is shorter; then `out` is unchanged.
pub fn build_blank_frame(
    out: &mut [u8],
    serial: u64,
    datagrams: &[(u32, u16)],
) -> Result<usize, Room>
    requires serial { serial < 2 ^ 40 }
    requires share { ShareFrame datagrams.now }
    ensures { Builds out.old out.new result (frame_text serial (map blank_lrw datagrams.now)) (frame_bytes (datagrams_size datagrams.now)) }
{
    let size = datagrams_size(datagrams);
    let needed = frame_bytes(size);
    if out.len() < needed {
        return Err(Room(needed));
    }
    write_blank_frame(&mut out[..needed], serial, datagrams, size);
    Ok(needed)
}

/// Returns the number of bytes of datagrams that are given by address and number of data bytes.
pub(crate) fn datagrams_size(datagrams: &[(u32, u16)]) -> usize
    requires { 2 + datagrams_size datagrams.now ≤ MAX_ETHERCAT }
    ensures { result ≡ datagrams_size datagrams.now }
{
    datagrams
        .iter()
        .map(|datagram| BESIDE_DATA_BYTES + usize::from(datagram.1))
        .sum()
}

/// Writes a frame of LRW datagrams of zeros into a slice of its exact length; `size` is the number of bytes of its datagrams.
fn write_blank_frame(out: &mut [u8], serial: u64, datagrams: &[(u32, u16)], size: usize)
    requires exact { length out.old ≡ frame_bytes size }
    requires serial { serial < 2 ^ 40 }
    requires sum { size ≡ datagrams_size datagrams.now }
    requires size { 2 + size ≤ MAX_ETHERCAT }
    ensures { out.new ≡ frame_text serial (map blank_lrw datagrams.now) }
{
    let (head, rest) = out.split_at_mut(HEAD_BYTES);
    let (texts, zeros) = rest.split_at_mut(size);
    build_head(head, serial, size as u16);
    write_blank_datagrams(texts, serial, datagrams);
    zeros.fill(0);
}

/// Writes a frame of one LRW datagram of zeros to the front of `out`, and returns the frame's length in bytes. `size` is the
/// number of data bytes, 1 to 1,486, and `serial` is below 2^40. The data begin at byte 26. Fails with `Room` and the length
/// needed if `out` is shorter; then `out` is unchanged.
pub fn build_blank_lrw(out: &mut [u8], serial: u64, address: u32, size: u16) -> Result<usize, Room>
    requires serial { serial < 2 ^ 40 }
    requires filled { 1 ≤ size }
    requires size { size ≤ MAX_DATA }
    ensures { Builds out.old out.new result (frame_text serial (blank_lrw (address, size) ∷ [])) (frame_size size) }
{
    build_blank_frame(out, serial, &[(address, size)])
}
