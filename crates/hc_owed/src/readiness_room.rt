//! The areas of a declared group: `room_for` allocates their memory, and `admit`, which adds them, cannot fail.
ghost use Rattle.std.specs.Prelude.{◌≡◌, ◌+◌, ◌*◌, ◌≤◌, ◌++◌, IfOk, length, replicate};
ghost use Rattle.hc_owed.specs.Readiness.{no_area};

use crate::area::JudgedArea;
use crate::readiness::Readiness;
use hc_records::room::Room;
use std::alloc::{AllocError, Global};

/// The memory for the areas of a declared group's slaves, and the number of these slaves.
#[derive(Drop)]
pub struct ReadinessRoom {
    pub(crate) areas: Room<JudgedArea>,
    pub(crate) slaves: usize,
}

/// Adds `count` areas of slaves outside the line, in memory that was allocated before.
fn add_areas(areas: &mut Vec<JudgedArea>, room: Room<JudgedArea>, count: usize)
    requires { length areas.old.items + count ≤ room }
    ensures { areas.new.items ≡ areas.old.items ++ replicate count no_area }
{
    room.widen(areas, count);
    for _ in 0..count {
        areas.push_reserved(JudgedArea::outside());
    }
}

impl Readiness {
    ghost use Rattle.std.specs.Prelude.{◌≡◌, ◌+◌, ◌*◌, ◌<◌, ◌≤◌, IfOk, length};
    ghost use Rattle.hc_records.specs.declared.edit.Edit.TheVariants.{Declare};
    ghost use Rattle.hc_records.specs.Edits.{changed};
    ghost use Rattle.hc_owed.specs.Laws.{known_over};
    ghost use Rattle.hc_owed.specs.Readiness.{readiness_of};
    ghost use Rattle.hc_owed.specs.ReadinessLaws.{AdmitsGroup};
    ghost use Rattle.hc_owed.specs.ReadinessRoom.{IsReadinessRoomFor, ReadinessCanAdmit};
    ghost use Rattle.hc_owed.specs.ReadinessSteps.{held_over, unplugged_over};

    /// Allocates the memory for the slaves of a group that is declared after the others. Fails with `AllocError` if an
    /// allocation fails.
    pub fn room_for(&self, alloc: Global, slaves: usize) -> Result<ReadinessRoom, AllocError>
        requires { slaves < 65536 }
        ensures { IfOk result (IsReadinessRoomFor (length self.now) slaves) }
    {
        Ok(ReadinessRoom {
            areas: Room::for_more(alloc, &self.areas, 8 * slaves)?,
            slaves,
        })
    }

    /// Adds the areas of a group that is declared after the others, absent, in memory that was allocated before. The registers
    /// of its slaves concern no task. It cannot fail.
    pub fn admit(&mut self, room: ReadinessRoom)
        requires { ReadinessCanAdmit self.old room }
        ensures { AdmitsGroup self.old self.new room }
    {
        add_areas(&mut self.areas, room.areas, 8 * room.slaves);
    }
}
