//! Changes that are carried out in the declared groups, in place. Nothing here allocates.
ghost use Rattle.std.specs.Prelude.{◌≡◌};
ghost use Rattle.hc_records.specs.Lists.{changed_at};
ghost use Rattle.hc_groups.specs.Changes.{changed_groups, with_areas, with_slave};
ghost use Rattle.hc_groups.specs.declared.prepared.Prepared.TheVariants.{Areas, Presence};

use crate::changes::{AreasChange, PresenceChange};
use hc_records::items::Items;
use hc_records::records::{Area, Declared, Slave};

/// Sets the presence of a group, if there is one at the index.
pub(crate) fn turn(change: PresenceChange, groups: &mut Items<Declared>)
    ensures { groups.new ≡ changed_groups (Presence change) groups.old }
{
    if change.group < groups.len() {
        let declared = groups.item_mut(change.group);
        declared.present = change.present;
    }
}

/// Replaces the areas of a slave, if there is such a slave.
fn give_areas(slaves: &mut Items<Slave>, slave: usize, areas: Items<Area>)
    ensures { slaves.new ≡ changed_at slave (with_areas areas) slaves.old }
{
    if slave < slaves.len() {
        slaves.item_mut(slave).areas = areas;
    }
}

/// Replaces the areas of a slave of a group, if there is such a slave.
fn give_areas_in(declared: &mut Declared, slave: usize, areas: Items<Area>)
    ensures { declared.new ≡ with_slave slave areas declared.old }
{
    give_areas(&mut declared.group.slaves, slave, areas);
}

/// Replaces the areas of a slave, if there is one at the index.
pub(crate) fn reassign(change: AreasChange, groups: &mut Items<Declared>)
    ensures { groups.new ≡ changed_groups (Areas change) groups.old }
{
    let AreasChange { place, areas } = change;
    if place.group < groups.len() {
        let declared = groups.item_mut(place.group);
        give_areas_in(declared, place.slave, areas);
    }
}
