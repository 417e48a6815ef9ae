//! The state of the register blocks and the areas over an edit. The slaves of a declared group are added, in memory that was
//! allocated before. After any other edit the slaves that left are dropped, and the blocks that moved are compared. `foretell`
//! returns the tasks that will wait.
ghost use Rattle.std.specs.Prelude.{◌≡◌, ◌+◌, ◌*◌, ◌<◌, IfOk, length};
ghost use Rattle.hc_records.specs.declared.edit.Edit.TheVariants.{Declare};
ghost use Rattle.hc_records.specs.declared.records.Group.{Group};
ghost use Rattle.hc_owed.specs.RegisterState.{register_state_of};
ghost use Rattle.hc_owed.specs.Laws.{known_over};
ghost use Rattle.hc_owed.specs.ReadinessLaws.{AreWaiting};
ghost use Rattle.hc_core.specs.Changed.{HasTasksOfBlocks};
ghost use Rattle.hc_core.specs.Prepared.{CanFollow, HasSlaveRoom, areas_followed, areas_foretold};

use hc_owed::owed::Owed;
use hc_owed::readiness::Readiness;
use hc_owed::readiness_room::ReadinessRoom;
use hc_owed::room::OwedRoom;
use hc_owed::task_set::TaskSet;
use hc_plan::prepared::PreparedEdit;
use hc_records::edit::Edit;
use std::alloc::{AllocError, Global};

/// Memory for the slaves of a group that an edit declares: for their register blocks, and for their areas.
#[derive(Drop)]
pub(crate) struct SlaveRoom {
    pub(crate) owed: OwedRoom,
    pub(crate) readiness: ReadinessRoom,
}

/// Allocates memory for the slaves that an edit declares; none if it declares none. Fails with `AllocError` if an allocation
/// fails.
pub(crate) fn slave_room(
    alloc: Global,
    owed: &Owed,
    readiness: &Readiness,
    edit: &Edit,
) -> Result<Option<SlaveRoom>, AllocError>
    requires few { (group : Group) → edit.now ≡ Declare group → length owed.now.stations + length group.slaves < 65536 }
    requires areas { length readiness.now ≡ 8 * length owed.now.stations }
    ensures { IfOk result (HasSlaveRoom (length owed.now.stations) edit.now) }
{
    match edit {
        Edit::Declare(group) => Ok(Some(SlaveRoom {
            owed: owed.room_for(alloc, group.slaves.as_slice())?,
            readiness: readiness.room_for(alloc, group.slaves.len())?,
        })),
        Edit::Connect(_) | Edit::Disconnect(_) | Edit::Remap { .. } | Edit::Move { .. } => Ok(None),
    }
}

/// Updates the state of the register blocks and of the areas after a prepared edit, and returns the tasks whose register blocks
/// it changes. It cannot fail.
pub(crate) fn follow(
    owed: &mut Owed,
    readiness: &mut Readiness,
    edit: &PreparedEdit,
    slaves: Option<SlaveRoom>,
) -> TaskSet
    requires { CanFollow owed.old readiness.old edit.now slaves }
    ensures known { (can : CanFollow owed.old readiness.old edit.now slaves) → owed.new ≡ register_state_of (known_over edit.now.old can.known) edit.now.new }
    ensures ready { (can : CanFollow owed.old readiness.old edit.now slaves) → readiness.new ≡ areas_followed can }
    ensures tasks { HasTasksOfBlocks edit.now result }
{
    match slaves {
        Some(room) => {
            owed.admit(room.owed);
            readiness.admit(room.readiness);
            TaskSet::none()
        }
        None => {
            owed.change(edit.gone(), edit.blocks());
            readiness.change(owed, edit.gone(), edit.blocks())
        }
    }
}

/// The tasks that will wait once a prepared edit is carried out and each slave that came with it is cleared. Nothing changes.
pub(crate) fn foretell(
    owed: &Owed,
    readiness: &Readiness,
    edit: &PreparedEdit,
    slaves: &Option<SlaveRoom>,
) -> TaskSet
    requires { CanFollow owed.now readiness.now edit.now slaves.now }
    ensures { (can : CanFollow owed.now readiness.now edit.now slaves.now) → AreWaiting (areas_foretold can) result }
{
    match slaves {
        Some(_) => readiness.waiting_tasks(),
        None => readiness.will_wait(owed, edit.gone(), edit.blocks()),
    }
}
