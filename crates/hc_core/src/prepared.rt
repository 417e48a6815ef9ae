//! An edit worked out for a core before anything changes, with the memory for carrying it out.
ghost use Rattle.std.specs.Prelude.{◌≡◌, ◌+◌, ◌*◌, ◌<◌, ◌≤◌, ◌∷◌, ◌++◌, [], length, vec_capacity, IfOk};
ghost use Rattle.hc_records.specs.declared.edit.Edit.TheVariants.{Declare};
ghost use Rattle.hc_records.specs.declared.records.Group.{Group};
ghost use Rattle.hc_core.specs.Prepared.{HasSlaveRoom};
ghost use Rattle.hc_events.specs.declared.change.Change.TheVariants as change;

use crate::declaring::{SlaveRoom, slave_room};
use crate::keeping::Core;
use hc_events::change::Change;
use hc_images::moves::Moves;
use hc_owed::owed::Owed;
use hc_owed::readiness::Readiness;
use hc_places::swap::Swap;
use hc_places::table::Places;
use hc_plan::prepared::PreparedEdit;
use hc_records::edit::Edit;
use std::alloc::{AllocError, Global};
use std::marker::Model;
use std::snapshot::Snapshot;

/// An edit with all memory for carrying it out in a core: its part of the line, the output values that move, and the slaves
/// that it declares. It also has room for the changes that were not taken and one more.
#[derive(Drop)]
pub(crate) struct PlannedEdit {
    pub(crate) edit: PreparedEdit,
    pub(crate) moves: Moves,
    // for the slaves that the edit declares
    pub(crate) slaves: Option<SlaveRoom>,
    // has room for the changes that were not taken, and for the swap after them
    pub(crate) room: Vec<Change>,
}

/// A prepared edit of a core: its effect on the line, on the values of the output variables, and on the changes. It holds for
/// the core as it was at preparation, which contracts see as `core`. `edit` tells the edit's cost.
#[derive(Drop)]
pub struct CoreEdit {
    pub(crate) planned: PlannedEdit,
    // the tasks that will wait, as a number
    pub(crate) will_wait: u8,
    pub(crate) core: Snapshot<Core>,
}

impl Model for CoreEdit {
    ghost use Rattle.std.specs.Prelude.{◌≡◌};
    ghost use Rattle.hc_events.specs.Ready.{waiting_after};
    ghost use Rattle.hc_core.specs.Prepared.{CoreEdit, CanBeCarriedOut};

    ghost Value = { CoreEdit };

    ghost view = { λ it. record { core = it.core.value; edit = it.planned.edit } };

    ghost invariant = { λ it. CanBeCarriedOut it.core.value it.planned × (it.will_wait ≡ waiting_after it.core.value.history it.planned.edit.report.swap.edit) };
}

impl CoreEdit {
    ghost use Rattle.std.specs.Prelude.{◌≡◌};
    ghost use Rattle.hc_events.specs.Points.{state_of};
    ghost use Rattle.hc_events.specs.Ready.{waiting_after};

    /// Returns the edit's effect on the line: the report that carrying it out will return, the blocks that would have to be
    /// written, with their bytes, and the slaves that would leave.
    pub fn edit(&self) -> &PreparedEdit
        ensures edit { result.now ≡ self.now.edit }
        ensures made { result.now.old ≡ state_of self.now.core.history }
    {
        &self.planned.edit
    }

    /// Returns the tasks that will wait once the edit is carried out and each slave that came with it is cleared (`cleared`).
    /// Bit t of the number is 1 if task t waits, so that `send_ready_into` will refuse it. It takes constant time (this
    /// project's profile).
    pub fn will_wait(&self) -> u8
        ensures { result ≡ waiting_after self.now.core.history self.now.edit.report.swap.edit }
    {
        self.will_wait
    }
}

/// Allocates the memory of an edit beside its plan's: for the output values that move, for the slaves that it declares, and for
/// the present changes and one more. Fails with `AllocError` if an allocation fails.
pub(crate) fn edit_memory(
    alloc: Global,
    places: &Places,
    owed: &Owed,
    readiness: &Readiness,
    changes: &Vec<Change>,
    edit: &Edit,
    swap: &Swap,
) -> Result<(Moves, Option<SlaveRoom>, Vec<Change>), AllocError>
    requires few { (group : Group) → edit.now ≡ Declare group → length owed.now.stations + length group.slaves < 65536 }
    requires areas { length readiness.now ≡ 8 * length owed.now.stations }
    ensures moves { IfOk result (λ memory. memory.0 ≡ record { before = places.now; change = swap.now.change }) }
    ensures slaves { IfOk result (λ memory. HasSlaveRoom (length owed.now.stations) edit.now memory.1) }
    ensures empty { IfOk result (λ memory. memory.2.items ≡ []) }
    ensures room { IfOk result (λ memory. length changes.now.items + 1 ≤ vec_capacity memory.2) }
{
    let moves = Moves::of(alloc, places, swap)?;
    let slaves = slave_room(alloc, owed, readiness, edit)?;
    let room = Vec::with_capacity(alloc, changes.len() + 1)?;
    Ok((moves, slaves, room))
}

/// Adds a swap after changes. If their list is full, all of them move into `room`, which has enough capacity.
pub(crate) fn add_swap(changes: &mut Vec<Change>, room: Vec<Change>, swap: Swap)
    requires room { length changes.old.items < vec_capacity room }
    requires empty { room.items ≡ [] }
    ensures { changes.new.items ≡ changes.old.items ++ change.Swapped swap ∷ [] }
{
    if changes.len() == changes.capacity() {
        let mut all = room;
        let Ok(()) = all.append(changes) else {
            unreachable!()
        };
        *changes = all;
    }
    changes.push_reserved(Change::Swapped(swap));
}
