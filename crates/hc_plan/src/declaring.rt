//! A group that is declared after the groups of a plan: the check that it may be, and its memory, which is allocated before
//! anything changes.
ghost use Rattle.std.specs.Prelude.{◌≡◌, ◌≢◌, ◌+◌, ◌<◌, ◌≤◌, ◌==◌, ℕ, IfErr, IfOk, List, None, OnOk, Some, length};
ghost use Rattle.std.specs.List.{list_any};
ghost use Rattle.hc_records.specs.declared.faults.EditFault.TheVariants.{Memory};
ghost use Rattle.hc_records.specs.declared.limits.TheConstants.{LAST_EPOCH, MOST_SLAVES};
ghost use Rattle.hc_records.specs.Edits.{declaring_faults, has_station, is_declared_variable};
ghost use Rattle.hc_records.specs.declared.records.Area.{Area};
ghost use Rattle.hc_records.specs.Line.{groups_of};
ghost use Rattle.hc_records.specs.Lists.{lowest};
ghost use Rattle.hc_records.specs.Project.{lowest_fault, slave_names};
ghost use Rattle.hc_cuts.specs.TaskCuts.{line_cuts};
ghost use Rattle.hc_cuts.specs.Room.{AreOfFewer, with_absent};
ghost use Rattle.hc_plan.specs.inner.Declaring.{AreTrees, ShowsNothing, areas_take, limit_faults, names_taken, pdos_take, taken_faults};

use crate::register_blocks::RegisterBlocks;
use crate::report::Report;
use hc_cuts::tasks::LineCuts;
use hc_groups::index::{Index, Indexed};
use hc_groups::room::IndexRoom;
use hc_places::swap::Swap;
use hc_records::edit::Edit;
use hc_records::faults::{EditFault, ProjectFault};
use hc_records::items::Items;
use hc_records::limits::{MOST_GROUPS, MOST_SLAVES};
use hc_records::records::{Area, Declared, Entry, Group, Pdo, Slave};
use hc_records::room::Room;
use hc_registers::blocks::Block;
use std::alloc::{AllocError, Global};

/// A group that may be declared after the groups of a plan, with memory for it in all lists of the plan. Its drop is written
/// out, so that the owners of a prepared edit do not open it wherever they drop it.
pub(crate) struct Declaration {
    pub(crate) group: Group,
    // the number of declared slaves with those of the group
    slaves: u16,
    // for the declared groups with it
    groups: Room<Declared>,
    // for their index
    index: IndexRoom,
    // for the places of their register blocks
    blocks: Room<Option<Block>>,
    // the tasks of the line in trees with room for its slaves, if the plan's own have none
    wider: Option<LineCuts>,
}

impl Drop for Declaration {
    fn drop(self) {
        let Declaration {
            group: _,
            slaves: _,
            groups: _,
            index: _,
            blocks: _,
            wider: _,
        } = self;
    }
}

/// True if an entry names a variable that is declared already.
fn names_taken(groups: &Indexed<'_>, entry: Entry) -> bool
    ensures { result ≡ names_taken groups.now entry }
{
    match entry.0 {
        Some(variable) => groups.is_declared_variable(variable),
        None => false,
    }
}

/// True if one of these entries names a variable that is declared already.
fn entries_take(groups: &Indexed<'_>, entries: &[Entry]) -> bool
    ensures { result ≡ list_any (names_taken groups.now) entries.now }
{
    entries.iter().any(|entry| names_taken(groups, *entry))
}

/// True if an entry of one of these PDOs names a variable that is declared already.
fn pdos_take(groups: &Indexed<'_>, pdos: &[Pdo]) -> bool
    ensures { result ≡ pdos_take groups.now pdos.now }
{
    pdos.iter()
        .any(|pdo| entries_take(groups, pdo.entries.as_slice()))
}

/// True if one of these areas offers a PDO with an entry that names a variable that is declared already.
fn areas_take(groups: &Indexed<'_>, areas: &[Area]) -> bool
    ensures { result ≡ areas_take groups.now areas.now }
{
    areas
        .iter()
        .any(|area| pdos_take(groups, area.offered.as_slice()))
}

/// True if an area of one of these slaves offers a PDO with an entry that names a variable that is declared already.
fn slaves_take(groups: &Indexed<'_>, slaves: &[Slave]) -> bool
    ensures { result ≡ list_any (λ slave. areas_take groups.now slave.areas) slaves.now }
{
    slaves
        .iter()
        .any(|slave| areas_take(groups, slave.areas.as_slice()))
}

/// True if one of the variables that slaves offer is declared already.
fn variables_taken(groups: &Indexed<'_>, slaves: &[Slave]) -> bool
    ensures { result ≡ list_any (is_declared_variable groups.now) (slave_names slaves.now) }
{
    slaves_take(groups, slaves)
}

/// True if an alias is declared already.
fn alias_taken(groups: &Indexed<'_>, alias: u16) -> bool
    ensures { result ≡ list_any (λ declared. declared.group.alias == alias) groups.now }
{
    groups.group(alias).is_some()
}

/// True if one of the station addresses of slaves is declared already.
fn stations_taken(groups: &Indexed<'_>, slaves: &[Slave]) -> bool
    ensures { result ≡ list_any (λ slave. list_any (λ declared. has_station slave.station declared.group.slaves) groups.now) slaves.now }
{
    slaves
        .iter()
        .any(|slave| groups.is_declared_station(slave.station))
}

/// Returns the lowest fault of a group by the aliases, station addresses and variables that are declared already; none if it
/// has none. It allocates nothing.
fn taken_fault(groups: &Indexed<'_>, group: &Group) -> Option<EditFault>
    ensures { result ≡ lowest (taken_faults groups.now group.now) }
{
    let slaves = group.slaves.as_slice();
    if alias_taken(groups, group.alias) {
        return Some(EditFault::AliasTaken);
    }
    if stations_taken(groups, slaves) {
        return Some(EditFault::StationTaken);
    }
    if variables_taken(groups, slaves) {
        return Some(EditFault::VariableTaken);
    }
    None
}

/// Returns the lowest fault of a group by the limits of a project, which has so many groups and slaves already; none if it has
/// none.
fn limit_fault(groups: usize, slaves: usize, group: &Group) -> Option<EditFault>
    ensures { result ≡ lowest (limit_faults groups slaves group.now) }
{
    if MOST_GROUPS <= groups {
        return Some(EditFault::TooManyGroups);
    }
    if MOST_SLAVES.saturating_sub(slaves) < group.slaves.len() || MOST_SLAVES < slaves {
        return Some(EditFault::TooManySlaves);
    }
    None
}

/// Returns a copy of a group that may be declared after others. Fails with the lowest of its faults, 30 to 35, or with `Memory`
/// if an allocation fails.
fn free_group(
    alloc: Global,
    count: usize,
    groups: &Indexed<'_>,
    group: &Group,
) -> Result<Group, EditFault>
    requires { count ≡ length groups.now }
    ensures copy { IfOk result (λ copy. copy ≡ group.now) }
    ensures free { OnOk result (lowest (declaring_faults groups.now group.now) ≡ None) }
    ensures refused { IfErr result (λ fault. fault ≢ Memory → lowest (declaring_faults groups.now group.now) ≡ Some fault) }
{
    let copy = match group.checked(alloc) {
        Ok(copy) => copy,
        Err(ProjectFault::Memory) => return Err(EditFault::Memory),
        Err(fault) => return Err(EditFault::BadGroup(fault)),
    };
    if let Some(fault) = taken_fault(groups, group) {
        return Err(fault);
    }
    if let Some(fault) = limit_fault(count, groups.declared(), group) {
        return Err(fault);
    }
    Ok(copy)
}

/// Returns the tasks of a line in trees with room for so many slaves, or none if its own trees have room. Fails with
/// `AllocError` if an allocation fails.
fn widened(alloc: Global, cuts: &LineCuts, slaves: u16) -> Result<Option<LineCuts>, AllocError>
    requires fewer { AreOfFewer cuts.now slaves }
    requires most { slaves ≤ MOST_SLAVES }
    ensures { IfOk result (AreTrees cuts.now slaves) }
{
    if cuts.has_room(slaves) {
        return Ok(None);
    }
    Ok(Some(cuts.widened(alloc, slaves)?))
}

impl Declaration {
    ghost use Rattle.std.specs.Prelude.{◌≡◌, ◌≢◌, ◌++◌, ◌∷◌, [], IfErr, IfOk, None, OnOk, Some};
    ghost use Rattle.hc_records.specs.declared.faults.EditFault.TheVariants.{Memory};
    ghost use Rattle.hc_records.specs.Edits.{absent, declaring_faults};
    ghost use Rattle.hc_records.specs.Line.{groups_of};
    ghost use Rattle.hc_records.specs.Lists.{lowest};
    ghost use Rattle.hc_records.specs.Project.{lowest_fault};
    ghost use Rattle.hc_cuts.specs.Areas.{areas_by_rank};
    ghost use Rattle.hc_cuts.specs.TaskCuts.{line_cuts};
    ghost use Rattle.hc_groups.specs.Index.{IsIndexOf};
    ghost use Rattle.hc_plan.specs.RegisterBlocks.{blocks_by_rank};
    ghost use Rattle.hc_plan.specs.inner.Declaring.{CanDeclare};

    /// Returns a group that may be declared after those of a project, with all memory for it. Fails with the lowest of the
    /// group's faults, 30 to 35, or with `Memory` if an allocation fails.
    pub(crate) fn of(
        alloc: Global,
        groups: &Items<Declared>,
        index: &Index,
        cuts: &LineCuts,
        blocks: &RegisterBlocks,
        group: &Group,
    ) -> Result<Declaration, EditFault>
        requires index { IsIndexOf groups.now index.now }
        requires cuts { cuts.now ≡ line_cuts (areas_by_rank groups.now) }
        requires blocks { blocks.now ≡ blocks_by_rank groups.now }
        ensures group { IfOk result (λ declaration. declaration.group ≡ group.now) }
        ensures ready { IfOk result (CanDeclare groups.now) }
        ensures refused { IfErr result (λ fault. fault ≢ Memory → lowest (declaring_faults groups.now group.now) ≡ Some fault) }
    {
        let indexed = index.of(groups.as_slice());
        let group = free_group(alloc, groups.len(), &indexed, group)?;
        let slaves = (indexed.declared() + group.slaves.len()) as u16;
        Ok(Declaration {
            slaves,
            groups: groups.room_for(alloc, 1)?,
            wider: widened(alloc, cuts, slaves)?,
            index: index.room_for(alloc, &group)?,
            blocks: blocks.room_for(alloc, group.slaves.len())?,
            group,
        })
    }

    /// Declares the group after those that it was made for: it is absent. It cannot fail.
    pub(crate) fn carry_out(
        self,
        groups: &mut Items<Declared>,
        index: &mut Index,
        cuts: &mut LineCuts,
        blocks: &mut RegisterBlocks,
    )
        requires ready { CanDeclare groups.old self }
        requires index { IsIndexOf groups.old index.old }
        requires cuts { cuts.old ≡ line_cuts (areas_by_rank groups.old) }
        requires blocks { blocks.old ≡ blocks_by_rank groups.old }
        ensures groups { groups.new ≡ groups.old ++ absent self.group ∷ [] }
        ensures index { IsIndexOf groups.new index.new }
        ensures cuts { cuts.new ≡ line_cuts (areas_by_rank groups.new) }
        ensures blocks { blocks.new ≡ blocks_by_rank groups.new }
    {
        let Declaration {
            group,
            slaves,
            groups: room,
            index: index_room,
            blocks: block_room,
            wider,
        } = self;
        index.admit(&group, index_room);
        put_trees(cuts, slaves, wider);
        blocks.admit(block_room, group.slaves.len());
        groups.push_into(
            room,
            Declared {
                group,
                present: false,
            },
        );
    }
}

/// Replaces the trees of a line's tasks with wider ones, or admits the slaves to its own if there are no wider ones.
fn put_trees(cuts: &mut LineCuts, slaves: u16, wider: Option<LineCuts>)
    requires fewer { AreOfFewer cuts.old slaves }
    requires trees { AreTrees cuts.old slaves wider }
    ensures { (line : List (List Area)) (count : ℕ) → cuts.old ≡ line_cuts line → slaves ≡ length line + count → cuts.new ≡ line_cuts (with_absent count line) }
{
    match wider {
        Some(trees) => *cuts = trees,
        None => cuts.admit(slaves),
    }
}

/// Returns the report of an edit that leaves the line configured as it was: it declares a group, or moves an area without bits.
/// A new epoch begins, and nothing of the line changes. Fails with `AllocError` if an allocation fails.
pub(crate) fn declared_report(
    alloc: Global,
    edit: &Edit,
    groups: &[Declared],
    epoch: u32,
) -> Result<Report, AllocError>
    requires project { lowest_fault (groups_of groups.now) ≡ None }
    requires epoch { epoch < LAST_EPOCH }
    ensures { IfOk result (ShowsNothing (record { groups = groups.now; epoch = epoch }) edit.now) }
{
    let swap = Swap::of(alloc, edit, Vec::new(alloc), Vec::new(alloc))?;
    Ok(Report {
        epoch: epoch + 1,
        recut: 0,
        moved: 0,
        swap,
        blocks: Items::new(alloc),
    })
}
