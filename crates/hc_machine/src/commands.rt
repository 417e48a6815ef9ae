//! The four commands (ETG.1000.4, 5.4).

ghost use Rattle.std.specs.Prelude.{◌≡◌, ◌≤◌, length};
ghost use Rattle.hc_frames.specs.declared.commands.Command.TheVariants.{Aprd, Apwr, Fpwr};
ghost use Rattle.hc_machine.specs.Commands.{address_after, counter_added, data_after, is_at_position, is_at_station, memory_after_command, lies_in_memory, register_of};

use crate::limits::MEMORY_BYTES;
use crate::logical::serve_logical;
use crate::memory::{read_memory, write_memory};
use hc_frames::Command;
use hc_frames::limits::{MAX_DATA, STATION_REGISTER};

/// The register that an address names.
fn register_of(address: u32) -> usize
    ensures { result ≡ register_of address }
{
    (address / 65536) as usize
}

/// True if `n` bytes from the register on lie in memory.
fn lies_in_memory(address: u32, n: usize) -> bool
    requires { n ≤ MAX_DATA }
    ensures { result ≡ lies_in_memory address n }
{
    register_of(address) + n <= MEMORY_BYTES
}

/// True if a position names this slave, and `n` bytes from the register on lie in memory.
fn is_at_position(address: u32, n: usize) -> bool
    requires { n ≤ MAX_DATA }
    ensures { result ≡ is_at_position address n }
{
    address % 65536 == 0 && lies_in_memory(address, n)
}

/// True if a station address names this slave, and `n` bytes from the register on lie in memory.
fn is_at_station(memory: &[u8], address: u32, n: usize) -> bool
    requires memory { length memory.now ≡ MEMORY_BYTES }
    requires short { n ≤ MAX_DATA }
    ensures { result ≡ is_at_station memory.now address n }
{
    let at = usize::from(STATION_REGISTER);
    let station = u16::from_le_bytes([memory[at], memory[at + 1]]);
    u32::from(station) == address % 65536 && lies_in_memory(address, n)
}

/// The address that goes on: each slave counts a position up.
pub(crate) fn address_after(command: Command, address: u32) -> u32
    ensures { result ≡ address_after command address }
{
    match command {
        Command::Aprd | Command::Apwr => {
            (address % 65536 + 1) % 65536 + 65536 * (address / 65536)
        }
        Command::Fpwr | Command::Lrw => address,
    }
}

/// Serves a read at a position, and returns the number that it adds to the working counter.
fn serve_read(memory: &[u8], address: u32, bytes: &mut [u8]) -> u16
    requires memory { length memory.now ≡ MEMORY_BYTES }
    requires short { length bytes.old ≤ MAX_DATA }
    ensures data { bytes.new ≡ data_after Aprd memory.now address bytes.old }
    ensures count { result ≡ counter_added Aprd memory.now address (length bytes.old) }
{
    if !is_at_position(address, bytes.len()) {
        return 0;
    }
    read_memory(memory, register_of(address), bytes);
    1
}

/// Serves a write at a position, and returns the number that it adds to the working counter.
fn serve_position(memory: &mut [u8], address: u32, bytes: &[u8]) -> u16
    requires memory { length memory.old ≡ MEMORY_BYTES }
    requires short { length bytes.now ≤ MAX_DATA }
    ensures memory { memory.new ≡ memory_after_command Apwr memory.old address bytes.now }
    ensures count { result ≡ counter_added Apwr memory.old address (length bytes.now) }
{
    if !is_at_position(address, bytes.len()) {
        return 0;
    }
    write_memory(memory, register_of(address), bytes);
    1
}

/// Serves a write at a station, and returns the number that it adds to the working counter.
fn serve_station(memory: &mut [u8], address: u32, bytes: &[u8]) -> u16
    requires memory { length memory.old ≡ MEMORY_BYTES }
    requires short { length bytes.now ≤ MAX_DATA }
    ensures memory { memory.new ≡ memory_after_command Fpwr memory.old address bytes.now }
    ensures count { result ≡ counter_added Fpwr memory.old address (length bytes.now) }
{
    if !is_at_station(memory, address, bytes.len()) {
        return 0;
    }
    write_memory(memory, register_of(address), bytes);
    1
}

/// Serves the data of a datagram, and returns the number that it adds to the working counter. `spare` has room for the data
/// that came in.
pub(crate) fn serve(
    memory: &mut [u8],
    spare: &mut [u8],
    command: Command,
    address: u32,
    bytes: &mut [u8],
) -> u16
    requires memory { length memory.old ≡ MEMORY_BYTES }
    requires spare { length spare.old ≡ MAX_DATA }
    requires short { length bytes.old ≤ MAX_DATA }
    ensures memory { memory.new ≡ memory_after_command command memory.old address bytes.old }
    ensures data { bytes.new ≡ data_after command memory.old address bytes.old }
    ensures count { result ≡ counter_added command memory.old address (length bytes.old) }
{
    match command {
        Command::Aprd => serve_read(memory, address, bytes),
        Command::Apwr => serve_position(memory, address, bytes),
        Command::Fpwr => serve_station(memory, address, bytes),
        Command::Lrw => serve_logical(memory, spare, address, bytes),
    }
}
