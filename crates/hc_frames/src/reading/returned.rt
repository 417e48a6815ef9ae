//! A frame that was read, and its datagrams.
ghost use Rattle.std.specs.Prelude.{◌≡◌, ◌+◌, ◌-◌, ◌^◌, ◌<◌, ◌≤◌, ◌∷◌, true, length, map, slice_get};
ghost use Rattle.std.specs.List.{list_all};
ghost use Rattle.hc_frames.specs.Arrived.{datagram_carried, datagram_tails, is_whole, placed_from, region, Reading, datagrams_placed};

use super::fields::{after_it, data_size, long_at, word_at};
use crate::commands::Command;
use crate::limits::{DATAGRAM_HEAD_BYTES, HEAD_BYTES};
use std::marker::Model;

/// A datagram of a frame that was read. It borrows the frame.
#[derive(Debug, Drop)]
pub struct Part<'a> {
    /// The offset of its first byte in the frame. The address begins 2 bytes later, the data 10 bytes later; the working
    /// counter follows the data.
    pub start: usize,
    /// The command to the slaves.
    pub command: Command,
    /// For `Lrw` the logical address; otherwise the position or station in the low word and the register in the high word.
    pub address: u32,
    /// The interrupt field.
    pub interrupt: u16,
    /// The data, 1 to 1,486 bytes.
    pub bytes: &'a [u8],
    /// The working counter.
    pub counter: u16,
}

impl<'a> Model for Part<'a> {
    ghost use Rattle.hc_frames.specs.Arrived.{ArrivedDatagram};

    ghost Value = { ArrivedDatagram };

    ghost view = { λ part. record { start = part.start; carried = record { command = part.command; address = part.address; interrupt = part.interrupt; bytes = part.bytes.now; counter = part.counter } } };
}

/// A frame that was read: its serial and its datagrams. It borrows the frame.
#[derive(Debug, Drop)]
pub struct Returned<'a> {
    serial: u64,
    region: &'a [u8],
    count: usize,
}

impl<'a> Model for Returned<'a> {
    ghost use Rattle.std.specs.Prelude.{◌≡◌, ◌^◌, ◌<◌, ◌≤◌, true, length, map};
    ghost use Rattle.std.specs.List.{list_all};
    ghost use Rattle.hc_frames.specs.Arrived.{datagram_carried, datagram_tails, is_whole, Reading};

    ghost Value = { Reading };

    ghost view = { λ frame. record { serial = frame.serial; parts = map datagram_carried (datagram_tails frame.region.now) } };

    ghost invariant = { λ frame. (list_all is_whole (datagram_tails frame.region.now) ≡ true) × (frame.count ≡ length (datagram_tails frame.region.now)) × (length frame.region.now < 2048) × (frame.serial < 2 ^ 40) × (1 ≤ frame.count) };
}

impl<'a> Returned<'a> {
    /// Returns the reading of whole datagrams.
    pub(crate) fn of(serial: u64, region: &'a [u8], count: usize) -> Returned<'a>
        requires whole { list_all is_whole (datagram_tails region.now) ≡ true }
        requires counted { count ≡ length (datagram_tails region.now) }
        requires short { length region.now < 2048 }
        requires serial { serial < 2 ^ 40 }
        requires some { 1 ≤ count }
        ensures { result ≡ record { serial = serial; parts = map datagram_carried (datagram_tails region.now) } }
    {
        Returned {
            serial,
            region,
            count,
        }
    }

    /// The sending's serial, below 2^40.
    pub fn serial(&self) -> u64
        ensures value { result ≡ self.now.serial }
        ensures below { result < 2 ^ 40 }
    {
        self.serial
    }

    /// Returns the number of datagrams, at least 1.
    pub fn len(&self) -> usize
        ensures value { result ≡ length self.now.parts }
        ensures some { 1 ≤ result }
    {
        self.count
    }

    /// Returns the datagrams one by one, from the front.
    pub fn parts(&self) -> Parts<'a>
        ensures { result ≡ placed_from 16 self.now.parts }
    {
        Parts {
            rest: self.region,
            start: HEAD_BYTES,
        }
    }

    /// Returns a datagram by its index, from 0, or `None` if the frame has fewer. It walks over those before it; for all of
    /// them use `parts`.
    pub fn get(&self, index: usize) -> Option<Part<'a>>
        ensures { result ≡ slice_get (placed_from 16 self.now.parts) index }
    {
        self.parts().nth(index)
    }
}

/// The datagrams of a frame that an iteration has not reached yet, in their order. Contracts see the list of them.
#[derive(Debug, Drop)]
pub struct Parts<'a> {
    rest: &'a [u8],
    start: usize,
}

impl<'a> Model for Parts<'a> {
    ghost use Rattle.std.specs.Prelude.{List, ◌≡◌, ◌+◌, ◌<◌, true, length, map};
    ghost use Rattle.std.specs.List.{list_all};
    ghost use Rattle.hc_frames.specs.Arrived.{datagram_carried, datagram_tails, is_whole, placed_from, ArrivedDatagram, datagrams_placed};

    ghost Value = { List ArrivedDatagram };

    ghost view = { λ left. datagrams_placed left.start left.rest.now };

    ghost invariant = { λ left. (list_all is_whole (datagram_tails left.rest.now) ≡ true) × (left.start + length left.rest.now < 4096) };
}

/// Returns the whole datagram at the front of some bytes.
fn part_at(start: usize, bytes: &[u8]) -> Part<'_>
    requires { is_whole bytes.now ≡ true }
    ensures { result ≡ record { start = start; carried = datagram_carried bytes.now } }
{
    let size = data_size(bytes);
    Part {
        start,
        command: Command::of(bytes[0]).unwrap_or(Command::Lrw),
        address: long_at(bytes, 2),
        interrupt: word_at(bytes, 8),
        bytes: &bytes[DATAGRAM_HEAD_BYTES..DATAGRAM_HEAD_BYTES + size],
        counter: word_at(bytes, DATAGRAM_HEAD_BYTES + size),
    }
}

/// Returns the datagram at the front, and the bytes after it.
fn first_part(start: usize, bytes: &[u8]) -> (Part<'_>, &[u8])
    requires some { 0 < length bytes.now }
    requires whole { list_all is_whole (datagram_tails bytes.now) ≡ true }
    ensures placed { datagrams_placed start bytes.now ≡ result.0 ∷ datagrams_placed (start + (length bytes.now - length result.1.now)) result.1.now }
    ensures whole { list_all is_whole (datagram_tails result.1.now) ≡ true }
    ensures shorter { length result.1.now < length bytes.now }
{
    (part_at(start, bytes), after_it(bytes))
}

impl<'a> Iterator for Parts<'a> {
    ghost use Rattle.std.specs.Iterator.{YieldsFirst, item_count};

    type Item = Part<'a>;

    ghost next_gives = { YieldsFirst (λ left. left) };

    ghost remaining = { item_count (λ left. left) };

    fn next(&mut self) -> Option<Part<'a>> {
        if self.rest.is_empty() {
            return None;
        }
        let (part, after_it) = first_part(self.start, self.rest);
        self.start += self.rest.len() - after_it.len();
        self.rest = after_it;
        Some(part)
    }
}
