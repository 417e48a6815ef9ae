//! The moves of output values over an edit. The core prepares them before the edit changes anything, and the outputs carry them
//! out.
ghost use Rattle.std.specs.Prelude.{◌≡◌, ◌*◌, length};
ghost use Rattle.hc_records.specs.declared.limits.TheConstants.{MOST_DATAGRAMS, TASKS};
ghost use Rattle.hc_places.specs.Swap.{swapped};
ghost use Rattle.hc_images.specs.Packed.{HasSizes, IsLaidOut, length_in};
ghost use Rattle.hc_images.specs.Pieces.{HasRoomToGrow, HoldsMoves, word_of, CarriesOver};
ghost use Rattle.hc_images.specs.Values.{KeepEntries};

use crate::row::DatagramBytes;
use crate::rows::{output, put_down, resize, room_for, take_up};
use hc_places::swap::Swap;
use hc_places::table::{Place, Places};
use std::alloc::{AllocError, Global};
use std::marker::Model;
use std::snapshot::Snapshot;

/// The old places, as outputs, of the variables that an edit moves, or that appear or go, with the memory for their values.
/// Contracts see the old table, and the change of it.
#[derive(Drop)]
pub(crate) struct MovedPlaces {
    before: Snapshot<Places>,
    swap: Snapshot<Swap>,
    places: Vec<Option<Place>>,
    values: Vec<u64>,
}

impl Model for MovedPlaces {
    ghost use Rattle.hc_images.specs.Moves.{Moves};
    ghost use Rattle.hc_images.specs.Pieces.{HoldsMoves};

    ghost Value = { Moves };

    ghost view = { λ moves. record { before = moves.before.value; change = moves.swap.value.change } };

    ghost invariant = { λ moves. HoldsMoves (record { before = moves.before.value; change = moves.swap.value.change }) moves.places.items moves.values.items };
}

/// The moves of output values, with all memory that they need: for the values, and for the datagrams that get longer. Contracts
/// see the old table, and the change of it.
#[derive(Drop)]
pub struct Moves {
    pub(crate) moved: MovedPlaces,
    // for the bytes as they are sent
    pub(crate) sent: Vec<DatagramBytes>,
    // for the masks
    pub(crate) masks: Vec<DatagramBytes>,
}

impl Model for Moves {
    ghost use Rattle.std.specs.Prelude.{length};
    ghost use Rattle.hc_images.specs.Moves.{Moves};
    ghost use Rattle.hc_images.specs.Packed.{length_in};
    ghost use Rattle.hc_images.specs.Pieces.{HasRoomToGrow};

    ghost Value = { Moves };

    ghost view = { λ moves. moves.moved };

    ghost invariant = { λ moves. HasRoomToGrow (length moves.moved.change.tasks) (length_in moves.moved.before) moves.moved.change.tasks moves.sent.items × HasRoomToGrow (length moves.moved.change.tasks) (length_in moves.moved.before) moves.moved.change.tasks moves.masks.items };
}

/// Returns a word of ones, or of zeros.
fn word_of(ones: bool) -> u64
    ensures { result ≡ word_of ones }
{
    if ones { u64::MAX } else { 0 }
}

/// Carries bits over from the places in one table to those in the other: all are taken up before any is put down. The bits of a
/// variable that had no place are all ones or all zeros. Datagrams that get longer use the memory of `room`.
fn carry_over(
    rows: &mut [DatagramBytes],
    places: &[Option<Place>],
    values: &mut [u64],
    room: &mut [DatagramBytes],
    before: &Snapshot<Places>,
    swap: &Swap,
    ones: bool,
)
    requires all { length rows.old ≡ MOST_DATAGRAMS * TASKS }
    requires stays { HoldsMoves (record { before = before.now.value; change = swap.now.change }) places.now values.old }
    requires laid { IsLaidOut before.now.value }
    requires laid_out { IsLaidOut (swapped swap.now.change before.now.value) }
    requires entries { KeepEntries before.now.value (swapped swap.now.change before.now.value) }
    requires sizes { HasSizes before.now.value rows.old }
    requires room { HasRoomToGrow (length swap.now.change.tasks) (length_in before.now.value) swap.now.change.tasks room.old }
    ensures carried { CarriesOver before.now.value (swapped swap.now.change before.now.value) ones rows.old rows.new }
    ensures sizes { HasSizes (swapped swap.now.change before.now.value) rows.new }
    ensures all { length rows.new ≡ MOST_DATAGRAMS * TASKS }
    ensures values { length values.new ≡ length values.old }
{
    let changed = swap.changes();
    let tasks = swap.tasks();
    take_up(rows, places, word_of(ones), values);
    resize(rows, tasks, room);
    put_down(rows, changed, values);
}

impl MovedPlaces {
    ghost use Rattle.std.specs.Prelude.{◌≡◌, ◌*◌, IfOk, length};
    ghost use Rattle.hc_records.specs.declared.limits.TheConstants.{MOST_DATAGRAMS, TASKS};
    ghost use Rattle.hc_images.specs.Moves.{moved_table};
    ghost use Rattle.hc_images.specs.Packed.{HasSizes, IsLaidOut, length_in};
    ghost use Rattle.hc_images.specs.Pieces.{CarriesOver, HasRoomToGrow};
    ghost use Rattle.hc_images.specs.Values.{KeepEntries};

    /// Returns the places, as outputs in a table, of the variables that a swap changes. `AllocError` if an allocation fails.
    fn of(alloc: Global, old: &Places, swap: &Swap) -> Result<MovedPlaces, AllocError>
        ensures { IfOk result (λ moves. moves ≡ record { before = old.now; change = swap.now.change }) }
    {
        old.is_table();
        let changed = swap.changes();
        let mut places = Vec::with_capacity(alloc, changed.len())?;
        let mut values = Vec::with_capacity(alloc, changed.len())?;
        for row in changed {
            places.push(output(old.old_place(row)))?;
            values.push(0)?;
        }
        Ok(MovedPlaces {
            before: Snapshot::of(old),
            swap: Snapshot::of(swap),
            places,
            values,
        })
    }

    /// Carries bits over to their new places, as `carry_over` does.
    pub(crate) fn carry(
        &mut self,
        rows: &mut Vec<DatagramBytes>,
        room: Vec<DatagramBytes>,
        swap: &Swap,
        ones: bool,
    )
        requires all { length rows.old.items ≡ MOST_DATAGRAMS * TASKS }
        requires swap { swap.now.change ≡ self.old.change }
        requires laid { IsLaidOut self.old.before }
        requires laid_out { IsLaidOut (moved_table self.old) }
        requires entries { KeepEntries self.old.before (moved_table self.old) }
        requires sizes { HasSizes self.old.before rows.old.items }
        requires room { HasRoomToGrow (length self.old.change.tasks) (length_in self.old.before) self.old.change.tasks room.items }
        ensures carried { CarriesOver self.old.before (moved_table self.old) ones rows.old.items rows.new.items }
        ensures sizes { HasSizes (moved_table self.old) rows.new.items }
        ensures all { length rows.new.items ≡ MOST_DATAGRAMS * TASKS }
        ensures same { self.new ≡ self.old }
    {
        let mut room = room;
        carry_over(
            rows.as_mut_slice(),
            self.places.as_slice(),
            self.values.as_mut_slice(),
            room.as_mut_slice(),
            &self.before,
            swap,
            ones,
        );
    }
}

impl Moves {
    ghost use Rattle.std.specs.Prelude.{◌≡◌, IfOk};

    /// Prepares the moves of output values over a swap of a table. The swap says where the changed variables are there, and no
    /// others are read. `AllocError` if an allocation fails.
    pub fn of(alloc: Global, old: &Places, swap: &Swap) -> Result<Moves, AllocError>
        ensures { IfOk result (λ moves. moves ≡ record { before = old.now; change = swap.now.change }) }
    {
        let moved = MovedPlaces::of(alloc, old, swap)?;
        let tasks = swap.tasks();
        let sent = room_for(alloc, old, tasks)?;
        let masks = room_for(alloc, old, tasks)?;
        Ok(Moves { moved, sent, masks })
    }
}
