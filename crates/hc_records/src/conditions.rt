//! The faults of declared groups: the condition of each, and the table that judges them from the
//! lowest number on.
ghost use Rattle.std.specs.Prelude.{◌≡◌, ◌≢◌, Err, None, Some, IfErr, IsTrue, OnOk};
ghost use Rattle.hc_records.specs.Project.{has_outside, lowest_fault};
ghost use Rattle.hc_records.specs.declared.faults.ProjectFault.TheVariants.{Memory, OutOfRange};

use crate::assignment::repeats;
use crate::faults::ProjectFault;
use crate::limits::MOST_AREA_BITS;
use crate::records::{Area, Group, Pdo, Slave};
use names::{repeats_alias, repeats_station, repeats_variable};
use ranges::is_outside;
use scan::{Condition, Relation, some_area, some_pair, some_slave};
use std::alloc::Global;

pub mod names;
mod ranges;
pub mod scan;

/// Returns `Ok` if no fault's condition holds. Fails with the lowest fault whose condition holds, or with `Memory` if an
/// allocation fails. `OutOfRange`, the lowest fault, is judged before any allocation.
pub fn judge(alloc: Global, groups: &[Group]) -> Result<(), ProjectFault>
    ensures accepted { OnOk result (lowest_fault groups.now ≡ None) }
    ensures refused { IfErr result (λ fault. fault ≢ Memory → lowest_fault groups.now ≡ Some fault) }
    ensures outside { IsTrue (has_outside groups.now) → result ≡ Err OutOfRange }
{
    if is_outside(groups) {
        return Err(ProjectFault::OutOfRange);
    }
    if repeats_alias(alloc, groups)? {
        return Err(ProjectFault::RepeatedAlias);
    }
    if repeats_station(alloc, groups)? {
        return Err(ProjectFault::RepeatedStation);
    }
    if some_slave::<RepeatedManager>(groups) {
        return Err(ProjectFault::RepeatedSyncManager);
    }
    if some_slave::<Overlapping>(groups) {
        return Err(ProjectFault::OverlappingAreas);
    }
    if repeats_variable(alloc, groups)? {
        return Err(ProjectFault::RepeatedVariable);
    }
    if some_area::<UnknownAssigned>(groups) {
        return Err(ProjectFault::UnknownPdo);
    }
    if some_area::<Wide>(groups) {
        return Err(ProjectFault::AreaTooBig);
    }
    Ok(())
}

/// Two areas at one sync manager.
struct SameManager;

impl Relation<Area> for SameManager {
    ghost use Rattle.hc_records.specs.Project.{same_sync_manager};

    ghost relation = { same_sync_manager };

    fn holds(earlier: &Area, later: &Area) -> bool {
        later.sm == earlier.sm
    }
}

/// A slave with one sync manager for two areas.
struct RepeatedManager;

impl Condition<Slave> for RepeatedManager {
    ghost use Rattle.hc_records.specs.Project.{repeats_sync_manager};

    ghost condition = { repeats_sync_manager };

    fn holds(slave: &Slave) -> bool {
        some_pair::<Area, SameManager>(slave.areas.as_slice())
    }
}

/// Two areas that may take a byte of memory in common.
struct Overlap;

impl Relation<Area> for Overlap {
    ghost use Rattle.hc_records.specs.Project.{overlap};

    ghost relation = { overlap };

    fn holds(earlier: &Area, later: &Area) -> bool {
        let a_bytes = earlier.reach();
        let b_bytes = later.reach();
        let a_start = u32::from(earlier.phys);
        let b_start = u32::from(later.phys);
        0 < a_bytes && 0 < b_bytes && a_start < b_start + b_bytes && b_start < a_start + a_bytes
    }
}

/// A slave with two areas that overlap.
struct Overlapping;

impl Condition<Slave> for Overlapping {
    ghost use Rattle.hc_records.specs.Project.{has_overlap};

    ghost condition = { has_overlap };

    fn holds(slave: &Slave) -> bool {
        some_pair::<Area, Overlap>(slave.areas.as_slice())
    }
}

/// Two offered PDOs of one index.
struct SameIndex;

impl Relation<Pdo> for SameIndex {
    ghost use Rattle.hc_records.specs.Project.{same_index};

    ghost relation = { same_index };

    fn holds(earlier: &Pdo, later: &Pdo) -> bool {
        later.index == earlier.index
    }
}

/// An area with an assigned PDO that is not offered or is assigned twice, or with two offered PDOs of one index.
struct UnknownAssigned;

impl Condition<Area> for UnknownAssigned {
    ghost use Rattle.hc_records.specs.Project.{has_unknown_pdo};

    ghost condition = { has_unknown_pdo };

    fn holds(area: &Area) -> bool {
        let assigned = area.assigned.as_slice();
        area.has_unknown(assigned)
            || repeats(assigned)
            || some_pair::<Pdo, SameIndex>(area.offered.as_slice())
    }
}

/// An area whose assigned PDOs have more bits than a datagram.
struct Wide;

impl Condition<Area> for Wide {
    ghost use Rattle.hc_records.specs.Project.{is_wide};

    ghost condition = { is_wide };

    fn holds(area: &Area) -> bool {
        MOST_AREA_BITS < area.width_with(area.assigned.as_slice())
    }
}
