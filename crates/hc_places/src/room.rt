//! A swap carried out on a table: `room_for` allocates the memory, and `carry_out` cannot fail.
ghost use Rattle.std.specs.Prelude.{◌≡◌, ◌+◌, ◌≤◌, [], IfSome, length, vec_capacity};
ghost use Rattle.hc_records.specs.declared.limits.TheConstants.{TASKS};
ghost use Rattle.std.specs.Option.{MatchOption};
ghost use Rattle.hc_places.specs.Swap.{ChangesAscend, KeepRows, merged, tasks_replaced};
ghost use Rattle.hc_places.specs.Table.{RowsAscend};

use crate::merging::{keep_rows, overwrite};
use crate::middle::change_middle;
use crate::swap::{ChangedRow, ChangedTask, Swap};
use crate::table::{Places, TaskTable, VariableRow};
use hc_records::items::Items;
use std::alloc::{AllocError, Global};
use std::marker::Model;

/// The memory for carrying out a swap on a table: none if no variable appears or goes, otherwise memory for as many rows as the
/// table will have, or more.
#[derive(Drop)]
pub struct Room {
    rows: Option<Vec<VariableRow>>,
}

impl Model for Room {
    ghost use Rattle.std.specs.Prelude.{[], ◌≡◌, IfSome, ℕ, Option, option_map, vec_capacity};

    ghost Value = { Option ℕ };

    ghost view = { λ room. option_map (λ rows. vec_capacity rows) room.rows };

    ghost invariant = { λ room. IfSome room.rows (λ rows. rows.items ≡ []) };
}

/// Replaces the tables of changed tasks.
fn replace_tasks(tasks: &mut Items<TaskTable>, changed: &[ChangedTask])
    requires { length tasks.old ≡ TASKS }
    ensures { tasks.new ≡ tasks_replaced changed.now tasks.old }
{
    for change in changed {
        *tasks.item_mut(change.0.as_index()) = change.1.duplicate();
    }
}

/// Changes a table's rows: in place if no memory is given, otherwise with the help of memory that has room for all.
#[inline(always)]
fn change_rows(rows: &mut Vec<VariableRow>, changed: &[ChangedRow], room: Option<Vec<VariableRow>>)
    requires ascends { RowsAscend rows.old.items }
    requires changes { ChangesAscend changed.now }
    requires empty { IfSome room (λ into. into.items ≡ []) }
    requires room { MatchOption room (KeepRows rows.old.items changed.now) (λ into. length (merged changed.now rows.old.items) ≤ vec_capacity into) }
    ensures { rows.new.items ≡ merged changed.now rows.old.items }
{
    match room {
        Some(into) => change_middle(rows, changed, into),
        None => overwrite(rows, changed),
    }
}

/// Returns the number of rows to allocate for a table's change: all that there may be. It is twice that if the table's own
/// capacity may be too small, so that this memory, the table's from then on, has room for more.
fn room_size(rows: &Vec<VariableRow>, changed: &[ChangedRow]) -> usize
    ensures { length rows.now.items + length changed.now ≤ result }
{
    let count = rows.len() + changed.len();
    if count <= rows.capacity() {
        count
    } else {
        count.saturating_mul(2)
    }
}

impl Places {
    ghost use Rattle.std.specs.Prelude.{◌≡◌, IfOk, None, Ok, OnErr, OnOk};
    ghost use Rattle.hc_places.specs.Room.{IsRowRoomFor};
    ghost use Rattle.hc_places.specs.Swap.{KeepRows, swapped};

    /// Allocates the memory that `carry_out` needs for a swap of this table: none if no variable appears or goes, otherwise
    /// memory for as many rows as the table will have, or more. Fails with `AllocError` if the allocation fails.
    #[inline(always)]
    pub fn room_for(&self, alloc: Global, swap: &Swap) -> Result<Room, AllocError>
        ensures room { IfOk result (IsRowRoomFor swap.now.change self.now) }
        ensures without { KeepRows self.now.variables swap.now.change.rows → result ≡ Ok None }
    {
        let changed = swap.changes();
        if keep_rows(self.variables(), changed) {
            return Ok(Room { rows: None });
        }
        let room = Vec::with_capacity(alloc, room_size(&self.variables, changed))?;
        Ok(Room { rows: Some(room) })
    }

    /// Changes this table to the one that a swap leads to, in memory that was allocated before. It cannot fail. The rows of
    /// changed variables are looked up. Before the first variable that appears or goes, and after the last, they are
    /// overwritten in place. The rows between are merged in the room and put back, and the rows after them are shifted once.
    /// Exception: if the table's capacity may be too small, all rows are merged in the room, which becomes the table's memory.
    /// No row is merged twice.
    #[inline(always)]
    pub fn carry_out(&mut self, swap: &Swap, room: Room)
        requires { IsRowRoomFor swap.now.change self.old room }
        ensures { self.new ≡ swapped swap.now.change self.old }
    {
        let Room { rows } = room;
        change_rows(&mut self.variables, swap.rows.as_slice(), rows);
        replace_tasks(&mut self.tasks, swap.tasks.as_slice());
    }

    /// Changes this table to the one that a swap leads to. Fails with `AllocError` if an allocation fails; the table then stays
    /// as it was.
    pub fn swap(&mut self, alloc: Global, swap: &Swap) -> Result<(), AllocError>
        ensures swapped { OnOk result (self.new ≡ swapped swap.now.change self.old) }
        ensures refused { OnErr result (self.new ≡ self.old) }
    {
        let room = self.room_for(alloc, swap)?;
        self.carry_out(swap, room);
        Ok(())
    }
}
