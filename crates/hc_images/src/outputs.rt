//! The output values of a line, packed as they are sent.
ghost use Rattle.std.specs.Prelude.{◌≡◌, drop};
ghost use Rattle.hc_images.specs.Packed.{MasksFitBytes};
ghost use Rattle.hc_images.specs.Pieces.{Posts};

use crate::moves::Moves;
use crate::row::DatagramBytes;
use crate::rows::{blank_rows, make_masks};
use hc_places::swap::Swap;
use hc_places::table::Places;
use hc_records::limits::{MOST_DATAGRAMS, TASKS};
use hc_records::slots::slot_number;
use hc_records::task::Task;
use std::alloc::{AllocError, Global};
use std::marker::Model;

/// The bytes of each datagram as they are sent, and masks of the bits of output variables. Each datagram has memory of its own,
/// so no post allocates. An edit allocates in its `Moves`, for the moved values and for the datagrams that get longer. The
/// memory of a datagram that gets shorter, or is gone, stays until it gets longer again.
#[derive(Debug)]
pub struct Outputs {
    sent: Vec<DatagramBytes>,
    masks: Vec<DatagramBytes>,
}

impl Drop for Outputs {
    fn drop(self) {
        let Outputs { sent: _, masks: _ } = self;
    }
}

impl Model for Outputs {
    ghost use Rattle.hc_images.specs.Packed.{MasksFitBytes, Packed};

    ghost Value = { Packed };

    ghost view = { λ outputs. record { sent = outputs.sent.items; masks = outputs.masks.items } };

    ghost invariant = { λ outputs. MasksFitBytes (record { sent = outputs.sent.items; masks = outputs.masks.items }) };
}

/// Returns the bytes from an index on; none if there are fewer.
fn from_byte(bytes: &[u8], offset: u16) -> &[u8]
    ensures { result.now ≡ drop offset bytes.now }
{
    match bytes.get(usize::from(offset)..) {
        Some(rest) => rest,
        None => &[],
    }
}

/// Writes a post of a task into the bytes of its datagrams, by their masks.
fn post_datagrams(
    sent: &mut [DatagramBytes],
    masks: &[DatagramBytes],
    places: &Places,
    task: Task,
    bytes: &[u8],
)
    requires { MasksFitBytes (record { sent = sent.old; masks = masks.now }) }
    ensures { Posts places.now sent.old sent.new masks.now task bytes.now }
{
    let datagrams = places.datagrams(task.number());
    for number in 0..datagrams.len() {
        let slot = slot_number(task.number(), number as u8);
        sent[slot].post(&masks[slot], from_byte(bytes, datagrams[number].offset));
    }
}

/// Writes a post of a task into all stored bytes, by their masks.
fn post_all(
    sent: &mut Vec<DatagramBytes>,
    masks: &Vec<DatagramBytes>,
    places: &Places,
    task: Task,
    bytes: &[u8],
)
    requires { MasksFitBytes (record { sent = sent.old.items; masks = masks.now.items }) }
    ensures { Posts places.now sent.old.items sent.new.items masks.now.items task bytes.now }
{
    post_datagrams(sent.as_mut_slice(), masks.as_slice(), places, task, bytes);
}

impl Outputs {
    ghost use Rattle.std.specs.Prelude.{◌≡◌, ℕ, IfOk};
    ghost use Rattle.hc_images.specs.Moves.{moved_table};
    ghost use Rattle.hc_images.specs.Packed.{HasSizes, HoldsOutputValues, IsLaidOut, sent_bytes};
    ghost use Rattle.hc_images.specs.Values.{KeepEntries, kept_values, posted_values};

    /// Returns the outputs of a table with all values 0. `AllocError` if an allocation fails; no other call allocates.
    pub fn new(alloc: Global, places: &Places) -> Result<Outputs, AllocError>
        requires { IsLaidOut places.now }
        ensures { IfOk result (λ outputs. HoldsOutputValues places.now (λ variable k. 0) outputs) }
    {
        let sent = blank_rows(alloc, places)?;
        let mut masks = blank_rows(alloc, places)?;
        make_masks(&mut masks, places);
        Ok(Outputs { sent, masks })
    }

    /// Writes a post of a task by the table of the present line: the task's output variables get their bits of the post as
    /// values, bits after its end being 0; those of other tasks keep theirs. Bits of the post that belong to no output variable
    /// are never sent. It allocates nothing.
    pub fn post(&mut self, places: &Places, task: Task, bytes: &[u8])
        requires { IsLaidOut places.now }
        ensures { (value : ℕ → ℕ → ℕ) → HoldsOutputValues places.now value self.old → HoldsOutputValues places.now (posted_values places.now task bytes.now value) self.new }
    {
        post_all(&mut self.sent, &self.masks, places, task, bytes);
    }

    /// Returns the data with which a datagram is sent, by its task, 0 to 7, and its number in the task, 0 to 15. It has no
    /// bytes if the table has no such datagram, and for any other task or number.
    pub fn bytes(&self, task: u8, number: u8) -> &[u8]
        ensures { result.now ≡ sent_bytes self.now task number }
    {
        if task < TASKS && usize::from(number) < MOST_DATAGRAMS {
            self.sent[slot_number(task, number)].as_slice()
        } else {
            &[]
        }
    }

    /// Changes the line from one table to another, by a swap: a variable with a place in the old one keeps its value, and the
    /// value of any other is 0. Only the bytes of changed variables and of changed tasks are written. It allocates nothing; the
    /// moves have all memory.
    pub fn change(&mut self, moves: Moves, swap: &Swap)
        requires swap { swap.now.change ≡ moves.change }
        requires laid { IsLaidOut moves.before }
        requires laid_out { IsLaidOut (moved_table moves) }
        requires entries { KeepEntries moves.before (moved_table moves) }
        requires sizes { HasSizes moves.before self.old.sent }
        ensures { (value : ℕ → ℕ → ℕ) → HoldsOutputValues moves.before value self.old → HoldsOutputValues (moved_table moves) (kept_values moves.before value) self.new }
    {
        let Moves {
            mut moved,
            sent,
            masks,
        } = moves;
        moved.carry(&mut self.sent, sent, swap, false);
        moved.carry(&mut self.masks, masks, swap, true);
    }
}
