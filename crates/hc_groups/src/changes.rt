//! The change of an edit, found in the declared groups: the group that is connected or disconnected, or the slave whose areas
//! change and its new areas.
ghost use Rattle.std.specs.Prelude.{◌≡◌, true, IfOk, Some};
ghost use Rattle.std.specs.List.{list_any};
ghost use Rattle.hc_records.specs.Line.{IsCounted};
ghost use Rattle.hc_groups.specs.Edits.{changed_area};
ghost use Rattle.hc_groups.specs.Changes.{areas_at, areas_change, areas_changed, has_slave, presence_change};

use crate::areas::{AreaEdit, areas_after};
use crate::index::Indexed;
use hc_records::items::Items;
use hc_records::records::{Area, Declared};
use std::alloc::{AllocError, Global};

/// A declared group that is connected or disconnected.
#[derive(Clone, Copy, Debug)]
pub struct PresenceChange {
    /// The group's index among the declared ones, from 0.
    pub group: usize,
    /// Whether the group is in the line afterwards.
    pub present: bool,
    /// The rank of its first slave, counted from 1 over all declared slaves; its other slaves have consecutive ranks.
    pub first: u16,
    /// The number of its slaves.
    pub slaves: u16,
}

/// The position of a declared slave.
#[derive(Clone, Copy, Debug)]
pub struct SlavePlace {
    /// The index of its group among the declared ones, from 0.
    pub group: usize,
    /// Its index among the group's slaves, from 0.
    pub slave: usize,
    /// Its rank, counted from 1 over all declared slaves.
    pub rank: u16,
}

/// A declared slave whose areas change.
#[derive(Debug, Drop)]
pub struct AreasChange {
    /// The position of the slave.
    pub place: SlavePlace,
    /// All its new areas, in record order.
    pub areas: Items<Area>,
}

/// Returns the change of connecting or disconnecting the group with an alias, or `None` if no group has it. It allocates
/// nothing.
pub(crate) fn presence_change(groups: &Indexed, alias: u16, present: bool) -> Option<PresenceChange>
    requires { IsCounted groups.now }
    ensures { result ≡ presence_change groups.now alias present }
{
    let group = groups.group(alias)?;
    Some(PresenceChange {
        group,
        present,
        first: groups.first_rank(group),
        slaves: groups.groups()[group].group.slaves.len() as u16,
    })
}

/// Returns the areas of the slave at a position, or `None` if there is no such slave.
fn areas_at<'a>(groups: &'a [Declared], place: &SlavePlace) -> &'a [Area]
    ensures { result.now ≡ areas_at groups.now place.now }
{
    let Some(declared) = groups.get(place.group) else {
        return &[];
    };
    let Some(slave) = declared.group.slaves.as_slice().get(place.slave) else {
        return &[];
    };
    slave.areas.as_slice()
}

/// Returns the new areas of the slave at a position, in memory of their own. `AllocError` if an allocation fails.
fn areas_changed(
    alloc: Global,
    groups: &[Declared],
    place: SlavePlace,
    edit: &AreaEdit,
) -> Result<AreasChange, AllocError>
    ensures { IfOk result (λ found. found ≡ areas_changed groups.now edit.now.area (changed_area edit.now.change) place) }
{
    let areas = areas_after(alloc, areas_at(groups, &place), edit)?;
    Ok(AreasChange { place, areas })
}

/// Returns the change of an area of a declared slave. `AllocError` if an allocation fails.
pub(crate) fn areas_change(
    alloc: Global,
    groups: &Indexed,
    edit: &AreaEdit,
) -> Result<AreasChange, AllocError>
    requires known { list_any (has_slave edit.now.station) groups.now ≡ true }
    ensures { IfOk result (λ found. areas_change groups.now edit.now.station edit.now.area (changed_area edit.now.change) ≡ Some found) }
{
    let Some(place) = groups.slave_place(edit.station) else {
        unreachable!()
    };
    areas_changed(alloc, groups.groups(), place, edit)
}
