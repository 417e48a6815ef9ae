//! The commands `poke` and `peek`, whose arguments are a slave and a range of its memory.
ghost use Rattle.std.specs.Prelude.{◌≡◌, IfOk, map};
ghost use Rattle.hc_text.specs.MemoryWords.{peek_in, peeking_in, poke_in, poking_in};

use super::Command;
use crate::numbers::{bytes_in, double_byte_in};
use hc_frames::limits::MAX_DATA;
use hc_machine::limits::MEMORY_BYTES;
use hc_records::items::Items;
use std::alloc::{AllocError, Global};
use std::marker::Model;

/// Bytes to be written to a machine's memory, which all lie in it.
#[derive(Debug, Drop)]
pub struct Poke {
    station: u16,
    at: u16,
    bytes: Items<u8>,
}

impl Model for Poke {
    ghost use Rattle.std.specs.Prelude.{◌+◌, ◌≤◌, length};
    ghost use Rattle.hc_machine.specs.declared.limits.TheConstants.{MEMORY_BYTES};
    ghost use Rattle.hc_text.specs.MemoryRanges.{Poking};

    ghost Value = { Poking };

    ghost view = { λ poke. record { station = poke.station; at = poke.at; part = poke.bytes } };

    ghost invariant = { λ poke. poke.at + length poke.bytes ≤ MEMORY_BYTES };
}

impl Poke {
    ghost use Rattle.std.specs.Prelude.{◌≡◌, ◌+◌, ◌≤◌, length};
    ghost use Rattle.hc_machine.specs.declared.limits.TheConstants.{MEMORY_BYTES};

    /// Returns the slave's configured station address, the address of the first byte, and the bytes.
    pub fn parts(&self) -> (u16, u16, &[u8])
        ensures station { result.0 ≡ self.now.station }
        ensures at { result.1 ≡ self.now.at }
        ensures bytes { result.2.now ≡ self.now.part }
        ensures within { self.now.at + length self.now.part ≤ MEMORY_BYTES }
    {
        (self.station, self.at, self.bytes.as_slice())
    }
}

/// A range of bytes to be read from a machine's memory, which all lie in it.
#[derive(Debug, Drop)]
pub struct Peek {
    station: u16,
    at: u16,
    count: u16,
}

impl Model for Peek {
    ghost use Rattle.std.specs.Prelude.{◌+◌, ◌≤◌};
    ghost use Rattle.hc_machine.specs.declared.limits.TheConstants.{MEMORY_BYTES};
    ghost use Rattle.hc_text.specs.MemoryRanges.{Peeking};

    ghost Value = { Peeking };

    ghost view = { λ peek. record { station = peek.station; at = peek.at; count = peek.count } };

    ghost invariant = { λ peek. peek.at + peek.count ≤ MEMORY_BYTES };
}

impl Peek {
    ghost use Rattle.std.specs.Prelude.{◌≡◌, ◌+◌, ◌≤◌};
    ghost use Rattle.hc_machine.specs.declared.limits.TheConstants.{MEMORY_BYTES};

    /// Returns the slave's configured station address, the address of the first byte, and the number of bytes.
    pub fn parts(&self) -> (u16, u16, u16)
        ensures station { result.0 ≡ self.now.station }
        ensures at { result.1 ≡ self.now.at }
        ensures count { result.2 ≡ self.now.count }
        ensures within { self.now.at + self.now.count ≤ MEMORY_BYTES }
    {
        (self.station, self.at, self.count)
    }
}

/// Returns the bytes to write that the arguments of a `poke` name.
fn poke_of(alloc: Global, arguments: &[&[u8]]) -> Result<Option<Poke>, AllocError>
    ensures { IfOk result (λ spelt. spelt ≡ poking_in (map (λ word. word.now) arguments.now)) }
{
    match arguments {
        [station, address, bytes] => {
            let (Some(station), Some(at)) = (double_byte_in(station), double_byte_in(address))
            else {
                return Ok(None);
            };
            let Some(bytes) = bytes_in(alloc, bytes)? else {
                return Ok(None);
            };
            if usize::from(at) + bytes.len() > MEMORY_BYTES {
                return Ok(None);
            }
            Ok(Some(Poke {
                station,
                at,
                bytes: Items::of(bytes),
            }))
        }
        [] => Ok(None),
        [_] => Ok(None),
        [_, _] => Ok(None),
        [_, _, _, _, ..] => Ok(None),
    }
}

/// Returns the `poke` with a station address, an address and bytes, two hexadecimal digits each. `None` if an argument is
/// another, or the bytes do not lie in memory, 0x0000 to 0x2FFF. `AllocError` if an allocation fails.
pub(super) fn poke_in(alloc: Global, arguments: &[&[u8]]) -> Result<Option<Command>, AllocError>
    ensures { IfOk result (λ spelt. spelt ≡ poke_in (map (λ word. word.now) arguments.now)) }
{
    match poke_of(alloc, arguments)? {
        Some(poke) => Ok(Some(Command::Poke(poke))),
        None => Ok(None),
    }
}

/// Returns the range to read that the arguments of a `peek` name.
fn peek_of(arguments: &[&[u8]]) -> Option<Peek>
    ensures { result ≡ peeking_in (map (λ word. word.now) arguments.now) }
{
    match arguments {
        [station, address, count] => {
            let (station, at) = (double_byte_in(station)?, double_byte_in(address)?);
            let count = double_byte_in(count)?;
            if count < 1
                || count > MAX_DATA
                || usize::from(at) + usize::from(count) > MEMORY_BYTES
            {
                return None;
            }
            Some(Peek { station, at, count })
        }
        [] => None,
        [_] => None,
        [_, _] => None,
        [_, _, _, _, ..] => None,
    }
}

/// Returns the `peek` with a station address, an address and a number of bytes, 1 to 1,486. `None` if an argument is another,
/// or the bytes do not lie in memory, 0x0000 to 0x2FFF.
pub(super) fn peek_in(arguments: &[&[u8]]) -> Option<Command>
    ensures { result ≡ peek_in (map (λ word. word.now) arguments.now) }
{
    match peek_of(arguments) {
        Some(peek) => Some(Command::Peek(peek)),
        None => None,
    }
}
