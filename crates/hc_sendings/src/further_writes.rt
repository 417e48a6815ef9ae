//! `FurtherWrites`: the awaited frames of further register blocks, beside the frames of the first owed ones. `Awaited` stores
//! them.
ghost use Rattle.std.specs.List.{list_any};
ghost use Rattle.std.specs.Prelude.{◌≡◌, ◌==◌, ◌<◌, ◌≤◌, [], IfOk, IfSome, OnOk, Some, find, length, map, option_map, slice_get, vec_capacity, vec_len};
ghost use Rattle.hc_events.specs.declared.sending.TheConstants.{FRAME_BLOCKS};
ghost use Rattle.hc_sendings.specs.Slots.{in_slots, none_of, writes_without};
ghost use Rattle.hc_sendings.specs.Waiting.{awaited_block, carries_newest, left_after, left_forgotten};

use crate::write_frames::PlacedBlock;
use crate::writes::{AwaitedBlock, Write};
use std::alloc::{AllocError, Global};
use std::marker::Model;

/// The number of further frames that can be awaited at once without an allocation: their memory is allocated at the opening.
const READY_FRAMES: usize = 2;

/// Ends all of the writes.
fn clear_each(writes: &mut [Write])
    ensures { writes.new ≡ map none_of writes.old }
{
    for write in writes.iter_mut() {
        write.clear();
    }
}

/// Ends the writes that are the newest of no other block, once these blocks are sent in a later frame. It ends all of them if
/// `is_over`, which means that a slave was forgotten since the last write.
fn retire_each(writes: &mut [Write], is_over: bool, again: &[PlacedBlock])
    ensures { writes.new ≡ map (left_after (map awaited_block again.now) is_over) writes.old }
{
    for write in writes.iter_mut() {
        write.retire(is_over, again);
    }
}

/// Ends the writes that are the newest of no block of another slave than the one with a station address, which was forgotten.
fn forget_each(writes: &mut [Write], station: u16)
    ensures { writes.new ≡ map (left_forgotten station) writes.old }
{
    for write in writes.iter_mut() {
        write.forget(station);
    }
}

/// Ends the write with a serial, if there is one, which was answered.
fn end_each(writes: &mut [Write], serial: u64)
    ensures { writes.new ≡ map (writes_without serial) writes.old }
{
    for write in writes.iter_mut() {
        write.end(serial);
    }
}

/// Returns the index of a slot whose write is awaited no longer; none if each is awaited.
fn free_slot(writes: &[Write]) -> Option<usize>
    ensures { IfSome result (λ index. slice_get writes.now index ≡ Some []) }
{
    for index in 0..writes.len() {
        if writes[index].is_none() {
            return Some(index);
        }
    }
    None
}

/// Removes a slot whose write is awaited no longer, or makes a new one. The list then has room for it. Fails with `AllocError`
/// if an allocation fails; all writes are still awaited then.
fn take_slot(writes: &mut Vec<Write>, alloc: Global) -> Result<Write, AllocError>
    ensures empty { IfOk result (λ slot. slot ≡ []) }
    ensures room { OnOk result (vec_len writes.new < vec_capacity writes.new) }
    ensures unchanged { in_slots writes.new.items ≡ in_slots writes.old.items }
{
    if let Some(index) = free_slot(writes.as_slice()) {
        return Ok(writes.remove(index));
    }
    writes.reserve(1)?;
    Write::none(alloc)
}

/// Returns the blocks of the write with a serial among these.
fn find_in(writes: &[Write], serial: u64) -> Option<&[AwaitedBlock]>
    ensures blocks { option_map (λ blocks. blocks.now) result ≡ option_map (λ write. write.blocks) (find (λ write. write.serial == serial) (in_slots writes.now)) }
    ensures few { IfSome result (λ blocks. length blocks.now ≤ FRAME_BLOCKS) }
{
    for write in writes {
        if let Some(blocks) = write.find(serial) {
            return Some(blocks);
        }
    }
    None
}

/// True if one of these carries the newest write of the block with a station address and a number.
fn any_carries(writes: &[Write], station: u16, number: u8) -> bool
    ensures { result ≡ list_any (carries_newest station number) (in_slots writes.now) }
{
    for write in writes {
        if write.carries(station, number) {
            return true;
        }
    }
    false
}

/// The awaited frames of further register blocks, in the order in which they were sent, each in a slot. Contracts see the list
/// of the frames. A slot whose frame is awaited no longer is used again.
#[derive(Debug, Drop)]
pub(crate) struct FurtherWrites {
    writes: Vec<Write>,
}

impl Model for FurtherWrites {
    ghost use Rattle.std.specs.Prelude.{List};
    ghost use Rattle.hc_sendings.specs.Slots.{in_slots};
    ghost use Rattle.hc_sendings.specs.Waiting.{AwaitedWrite};

    ghost Value = { List AwaitedWrite };

    ghost view = { λ further. in_slots further.writes.items };
}

impl FurtherWrites {
    ghost use Rattle.std.specs.List.{list_any};
    ghost use Rattle.std.specs.Prelude.{◌≡◌, ◌==◌, ◌≤◌, [], ◌∷◌, ◌++◌, IfOk, IfSome, OnErr, OnOk, filter, find, length, map, not, option_map};
    ghost use Rattle.hc_events.specs.declared.sending.TheConstants.{FRAME_BLOCKS};
    ghost use Rattle.hc_sendings.specs.Waiting.{awaited_block, carries_newest, left_after, left_forgotten};

    /// Returns a list in which none is awaited, with memory for two frames. Fails with `AllocError` if an allocation fails.
    pub(crate) fn new(alloc: Global) -> Result<FurtherWrites, AllocError>
        ensures { IfOk result (λ writes. writes ≡ []) }
    {
        let mut writes = Vec::with_capacity(alloc, READY_FRAMES)?;
        writes.push_reserved(Write::none(alloc)?);
        writes.push_reserved(Write::none(alloc)?);
        Ok(FurtherWrites { writes })
    }

    /// Ends all writes.
    pub(crate) fn clear(&mut self)
        ensures { self.new ≡ [] }
    {
        clear_each(&mut self.writes);
    }

    /// Ends the writes that are the newest of no other block, once these blocks are sent in a later frame, as first owed or as
    /// further ones. It ends all of them if `is_over`, which means that a slave was forgotten since the last write.
    pub(crate) fn retire(&mut self, is_over: bool, again: &[PlacedBlock])
        ensures { self.new ≡ left_after (map awaited_block again.now) is_over self.old }
    {
        retire_each(&mut self.writes, is_over, again);
    }

    /// Adds a further frame of these blocks, at most 74, after the others. It ends the writes that are the newest of no other
    /// block, or all of them if `is_over`, which means that a slave was forgotten since the last write. There are two slots at
    /// first. It allocates only for one more, if each has an awaited frame when it is called. Fails with `AllocError` if an
    /// allocation fails; the writes are as before then.
    pub(crate) fn send(
        &mut self,
        alloc: Global,
        is_over: bool,
        serial: u64,
        placed: &[PlacedBlock],
    ) -> Result<(), AllocError>
        requires few { length placed.now ≤ FRAME_BLOCKS }
        ensures sent { OnOk result (self.new ≡ left_after (map awaited_block placed.now) is_over self.old ++ record { serial = serial; blocks = map awaited_block placed.now } ∷ []) }
        ensures unchanged { OnErr result (self.new ≡ self.old) }
    {
        let mut slot = take_slot(&mut self.writes, alloc)?;
        retire_each(&mut self.writes, is_over, placed);
        slot.put(serial, placed);
        self.writes.push_reserved(slot);
        Ok(())
    }

    /// Ends the writes that are the newest of no block of another slave than the one with a station address, which was
    /// forgotten.
    pub(crate) fn forget(&mut self, station: u16)
        ensures { self.new ≡ left_forgotten station self.old }
    {
        forget_each(&mut self.writes, station);
    }

    /// Ends the write with a serial, if there is one, which was answered.
    pub(crate) fn end(&mut self, serial: u64)
        ensures { self.new ≡ filter (λ write. not (write.serial == serial)) self.old }
    {
        end_each(&mut self.writes, serial);
    }

    /// Returns the blocks of the write with a serial, in its order: at most 74.
    pub(crate) fn find(&self, serial: u64) -> Option<&[AwaitedBlock]>
        ensures blocks { option_map (λ blocks. blocks.now) result ≡ option_map (λ write. write.blocks) (find (λ write. write.serial == serial) self.now) }
        ensures few { IfSome result (λ blocks. length blocks.now ≤ FRAME_BLOCKS) }
    {
        find_in(self.writes.as_slice(), serial)
    }

    /// True if one of them carries the newest write of the block with a station address and a number.
    pub(crate) fn carries(&self, station: u16, number: u8) -> bool
        ensures { result ≡ list_any (carries_newest station number) self.now }
    {
        any_carries(self.writes.as_slice(), station, number)
    }
}
