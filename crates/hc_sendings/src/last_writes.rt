//! `LastWrites`: the awaited frames of the first owed register blocks, at most two: the last one that was sent and an older one,
//! each as long as it may still be answered. `Awaited` stores them.
use crate::write_frames::PlacedBlock;
use crate::writes::{AwaitedBlock, Write};
use std::alloc::{AllocError, Global};
use std::marker::Model;
use std::mem;

/// The awaited register writes, at most two, in the order in which they were sent. Contracts see the list of them.
#[derive(Debug, Drop)]
pub(crate) struct LastWrites {
    older: Write,
    last: Write,
}

impl Model for LastWrites {
    ghost use Rattle.std.specs.Prelude.{◌++◌, List};
    ghost use Rattle.hc_sendings.specs.Waiting.{AwaitedWrite};

    ghost Value = { List AwaitedWrite };

    ghost view = { λ writes. writes.older ++ writes.last };
}

impl LastWrites {
    ghost use Rattle.std.specs.List.{list_any};
    ghost use Rattle.std.specs.Prelude.{◌≡◌, ◌==◌, ◌<◌, ◌≤◌, [], ◌∷◌, ◌++◌, IfOk, IfSome, filter, find, length, map, not, option_map};
    ghost use Rattle.hc_events.specs.declared.sending.TheConstants.{FRAME_BLOCKS};
    ghost use Rattle.hc_sendings.specs.declared.awaited.TheConstants.{AWAITED_WRITES};
    ghost use Rattle.hc_sendings.specs.Waiting.{awaited_block, carries_newest, is_awaited, left_forgotten, with_written};

    /// Returns a state in which none is awaited, with all the memory that it will need. Fails with `AllocError` if an
    /// allocation fails.
    pub(crate) fn new(alloc: Global) -> Result<LastWrites, AllocError>
        ensures { IfOk result (λ writes. writes ≡ []) }
    {
        Ok(LastWrites {
            older: Write::none(alloc)?,
            last: Write::none(alloc)?,
        })
    }

    /// Ends all writes.
    pub(crate) fn clear(&mut self)
        ensures { self.new ≡ [] }
    {
        self.older.clear();
        self.last.clear();
    }

    /// Marks the writes as no longer the newest of these blocks, which are sent again. A write that is the newest of no block
    /// ends.
    #[inline(always)]
    pub(crate) fn write_again(&mut self, again: &[PlacedBlock])
        ensures { self.new ≡ filter is_awaited (map (with_written (map awaited_block again.now)) self.old) }
    {
        self.older.write_again(again);
        self.last.write_again(again);
    }

    /// Adds a write of these blocks after the one that is awaited, if one is.
    #[inline(always)]
    pub(crate) fn push(&mut self, serial: u64, placed: &[PlacedBlock])
        requires few { length placed.now ≤ FRAME_BLOCKS }
        requires room { length self.old < AWAITED_WRITES }
        ensures { self.new ≡ self.old ++ record { serial = serial; blocks = map awaited_block placed.now } ∷ [] }
    {
        if !self.last.is_none() {
            mem::swap(&mut self.older, &mut self.last);
        }
        self.last.put(serial, placed);
    }

    /// Marks the writes as no longer the newest of any block of the slave with a station address, which was forgotten. A write
    /// that is the newest of no other block ends.
    pub(crate) fn forget(&mut self, station: u16)
        ensures { self.new ≡ left_forgotten station self.old }
    {
        self.older.forget(station);
        self.last.forget(station);
    }

    /// Ends the write with a serial, if there is one, which was answered.
    pub(crate) fn end(&mut self, serial: u64)
        ensures { self.new ≡ filter (λ write. not (write.serial == serial)) self.old }
    {
        self.older.end(serial);
        self.last.end(serial);
    }

    /// True if one of them carries the newest write of the block with a station address and a number.
    pub(crate) fn carries(&self, station: u16, number: u8) -> bool
        ensures { result ≡ list_any (carries_newest station number) self.now }
    {
        self.older.carries(station, number) || self.last.carries(station, number)
    }

    /// Returns the blocks of the write with a serial, in its order: at most 74.
    pub(crate) fn find(&self, serial: u64) -> Option<&[AwaitedBlock]>
        ensures blocks { option_map (λ blocks. blocks.now) result ≡ option_map (λ write. write.blocks) (find (λ write. write.serial == serial) self.now) }
        ensures few { IfSome result (λ blocks. length blocks.now ≤ FRAME_BLOCKS) }
    {
        match self.older.find(serial) {
            Some(blocks) => Some(blocks),
            None => self.last.find(serial),
        }
    }
}
