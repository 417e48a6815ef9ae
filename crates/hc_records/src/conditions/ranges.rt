//! Ranges of a record's values.
ghost use Rattle.std.specs.Prelude.{◌≡◌, length, nat_lt};
ghost use Rattle.hc_records.specs.Project.{has_outside, is_misplaced, slaves_of};

use super::scan::{Condition, some, some_slave};
use crate::limits::{
    LAST_SYNC_MANAGER, MEMORY_END, MEMORY_START, MOST_AREAS, MOST_ENTRIES, MOST_ENTRY_BITS,
    MOST_GROUPS, MOST_PDOS, MOST_SLAVES, TASKS,
};
use crate::records::{Area, Entry, Group, Pdo, Slave};

/// An entry without bits, or with more than a value holds.
struct OutsideEntry;

impl Condition<Entry> for OutsideEntry {
    ghost use Rattle.hc_records.specs.Project.{entry_outside};

    ghost condition = { entry_outside };

    fn holds(entry: &Entry) -> bool {
        entry.1 < 1 || MOST_ENTRY_BITS < entry.1
    }
}

/// A PDO with too many entries, or with one outside its range.
struct OutsidePdo;

impl Condition<Pdo> for OutsidePdo {
    ghost use Rattle.hc_records.specs.Project.{pdo_outside};

    ghost condition = { pdo_outside };

    fn holds(pdo: &Pdo) -> bool {
        MOST_ENTRIES < pdo.entries.len() || some::<Entry, OutsideEntry>(pdo.entries.as_slice())
    }
}

/// An area with a value outside its range.
struct OutsideArea;

impl Condition<Area> for OutsideArea {
    ghost use Rattle.hc_records.specs.Project.{area_outside};

    ghost condition = { area_outside };

    fn holds(area: &Area) -> bool {
        LAST_SYNC_MANAGER < area.sm
            || (area.phys < MEMORY_START || MEMORY_END - 1 < area.phys)
            || !(area.task < TASKS)
            || MOST_PDOS < area.assigned.len()
            || MOST_PDOS < area.offered.len()
            || some::<Pdo, OutsidePdo>(area.offered.as_slice())
            || u32::from(MEMORY_END) < u32::from(area.phys) + area.reach()
    }
}

/// A slave with a value outside its range.
struct OutsideSlave;

impl Condition<Slave> for OutsideSlave {
    ghost use Rattle.hc_records.specs.Project.{slave_outside};

    ghost condition = { slave_outside };

    fn holds(slave: &Slave) -> bool {
        slave.station == 0
            || MOST_AREAS < slave.areas.len()
            || some::<Area, OutsideArea>(slave.areas.as_slice())
    }
}

/// A group with alias 0 or without a slave.
struct Bare;

impl Condition<Group> for Bare {
    ghost use Rattle.hc_records.specs.Project.{is_bare};

    ghost condition = { is_bare };

    fn holds(group: &Group) -> bool {
        group.alias == 0 || group.slaves.len() == 0
    }
}

/// True if the first group is not the mandatory one, with alias 0, or a later group has alias 0 or no slave. It is true if there
/// is no group.
fn are_misplaced(groups: &[Group]) -> bool
    ensures { result ≡ is_misplaced groups.now }
{
    match groups {
        [] => true,
        [mandatory, others @ ..] => mandatory.alias != 0 || some::<Group, Bare>(others),
    }
}

/// Returns whether there are more slaves than a project declares. It stops counting there.
fn has_many_slaves(groups: &[Group]) -> bool
    ensures { result ≡ nat_lt MOST_SLAVES (length (slaves_of groups.now)) }
{
    let mut count = 0;
    for group in groups {
        let more = group.slaves.len();
        if MOST_SLAVES - count < more {
            return true;
        }
        count += more;
    }
    false
}

/// True if a number, a list's length or the memory that an area may take is outside its range, if the first group is not the
/// mandatory one, with alias 0, or if a later group has alias 0 or no slave.
pub fn is_outside(groups: &[Group]) -> bool
    ensures { result ≡ has_outside groups.now }
{
    are_misplaced(groups)
        || MOST_GROUPS < groups.len()
        || has_many_slaves(groups)
        || some_slave::<OutsideSlave>(groups)
}
