//! `EditedLine`: a line, and the effect of an edit on it before the edit is carried out. One `LineChange` has the differences;
//! it is made here from the edit's changes to the declared groups.
ghost use Rattle.std.specs.Prelude.{◌≡◌};
ghost use Rattle.hc_groups.specs.declared.prepared.Prepared.TheVariants.{Areas, Presence};
ghost use Rattle.hc_changes.specs.EditedLine.{line_change_of};
ghost use Rattle.hc_changes.specs.inner.LineChanges.{slave_change_of};

use hc_cuts::line_change::LineChange;
use hc_groups::changes::{AreasChange, PresenceChange};
use hc_groups::index::Indexed;
use hc_groups::prepared::Prepared;
use hc_records::records::{Area, Declared, Slave};
use std::marker::Model;

/// Returns the differences in the line of declared groups if one of them comes or goes.
fn presence_changes<'a>(groups: &'a [Declared], change: &PresenceChange) -> LineChange<'a>
    ensures { result ≡ line_change_of (Presence change.now) groups.now }
{
    let Some(declared) = groups.get(change.group) else {
        return LineChange::of_group(change.first, &[], false, false);
    };
    LineChange::of_group(
        change.first,
        declared.group.slaves.as_slice(),
        declared.present,
        change.present,
    )
}

/// Returns the differences in the line if one slave of a group gets other areas. There are none if the group is absent.
fn slave_changes<'a>(declared: &'a Declared, change: &'a AreasChange) -> LineChange<'a>
    ensures { result ≡ slave_change_of change.now declared.now }
{
    let rank = change.place.rank;
    match declared.group.slaves.as_slice().get(change.place.slave) {
        Some(slave) if declared.present => {
            LineChange::of_slave(rank, slave.areas.as_slice(), change.areas.as_slice())
        }
        Some(_) => LineChange::of_slave(rank, &[], &[]),
        None => LineChange::of_group(rank, &[], false, false),
    }
}

/// Returns the differences in the line of declared groups if a slave of one of them gets other areas.
fn areas_changes<'a>(groups: &'a [Declared], change: &'a AreasChange) -> LineChange<'a>
    ensures { result ≡ line_change_of (Areas change.now) groups.now }
{
    let Some(declared) = groups.get(change.place.group) else {
        return LineChange::of_group(change.place.rank, &[], false, false);
    };
    slave_changes(declared, change)
}

/// Returns the differences that a change of declared groups makes in their line: the slaves that it concerns, with the areas of
/// each in the line before the change and after it. It allocates nothing.
fn line_change<'a>(groups: &'a [Declared], change: &'a Prepared) -> LineChange<'a>
    ensures { result ≡ line_change_of change.now groups.now }
{
    match change {
        Prepared::Presence(change) => presence_changes(groups, change),
        Prepared::Areas(change) => areas_changes(groups, change),
    }
}

/// A line, and the effect of an edit on it. Contracts see the declared groups before and after, and the differences in their
/// line; each other slave keeps its areas.
#[derive(Drop)]
pub struct EditedLine<'a> {
    groups: &'a Indexed<'a>,
    // by it contracts know the groups after the edit
    prepared: &'a Prepared,
    change: LineChange<'a>,
}

impl<'a> Model for EditedLine<'a> {
    ghost use Rattle.hc_groups.specs.Changes.{changed_groups};
    ghost use Rattle.hc_changes.specs.EditedLine.{EditedLine, IsEditedLine};

    ghost Value = { EditedLine };

    ghost view = { λ it. record { old = it.groups.now; new = changed_groups it.prepared.now it.groups.now; change = it.change } };

    ghost invariant = { λ it. IsEditedLine (record { old = it.groups.now; new = changed_groups it.prepared.now it.groups.now; change = it.change }) };
}

impl<'a> EditedLine<'a> {
    ghost use Rattle.std.specs.Prelude.{◌≡◌, ◌+◌, ◌≤◌, ◌⊎◌, [], MatchOption, None, Some, false, if◌then◌else◌, length, slice_get, sum_by, take};
    ghost use Rattle.hc_records.specs.Line.{groups_of};
    ghost use Rattle.hc_records.specs.Project.{lowest_fault};
    ghost use Rattle.hc_groups.specs.Changes.{changed_groups};
    ghost use Rattle.hc_groups.specs.Index.{declared_count};
    ghost use Rattle.hc_groups.specs.Rows.{ChangesRow};
    ghost use Rattle.hc_cuts.specs.Areas.{areas_of_rank, areas_by_rank};
    ghost use Rattle.hc_cuts.specs.LineChange.{changes};
    ghost use Rattle.hc_changes.specs.Edited.{HasEdit};
    ghost use Rattle.hc_changes.specs.EditedLine.{IsEditedLine, edited_line_of};

    /// Returns the effect of a prepared edit on the line of a project's groups, which are a project's after it too. It
    /// allocates nothing.
    pub fn of(groups: &'a Indexed<'a>, prepared: &'a Prepared) -> EditedLine<'a>
        requires edited { HasEdit groups.now (changed_groups prepared.now groups.now) }
        requires was { lowest_fault (groups_of groups.now) ≡ None }
        requires is { lowest_fault (groups_of (changed_groups prepared.now groups.now)) ≡ None }
        requires row { ChangesRow prepared.now groups.now }
        ensures { result ≡ edited_line_of prepared.now groups.now }
    {
        EditedLine {
            groups,
            prepared,
            change: line_change(groups.groups(), prepared),
        }
    }

    /// The declared groups before the edit.
    pub fn groups(&self) -> &'a [Declared]
        ensures groups { result.now ≡ self.now.old }
        ensures known { IsEditedLine self.now }
    {
        self.groups.groups()
    }

    /// Returns the number, from 0, of a declared group from which a walk over the slaves meets each one with this rank or a
    /// higher one, and the rank of the group's first slave. It allocates nothing.
    pub(crate) fn group_before(&self, rank: u16) -> (usize, u16)
        ensures inside { result.0 ≤ length self.now.old }
        ensures first { result.1 ≡ sum_by declared_count (take result.0 self.now.old) + 1 }
        ensures low { (result.1 ≡ 1) ⊎ (result.1 ≤ rank) }
    {
        self.groups.group_before(rank)
    }

    /// Returns the differences in the line.
    pub fn change(&self) -> &LineChange<'a>
        ensures { result.now ≡ self.now.change }
    {
        &self.change
    }

    /// True if the edit names the slave with this rank, or the slave's group.
    pub fn is_changed(&self, rank: u16) -> bool
        ensures { result ≡ changes self.now.change rank }
    {
        self.change.index_of(rank).is_some()
    }

    /// Returns the areas that a declared slave has in the line after the edit, from its rank, its record before the edit, and a
    /// flag if its group was present then.
    pub fn areas_after(&self, rank: u16, present: bool, slave: &'a Slave) -> &'a [Area]
        requires { areas_of_rank (areas_by_rank self.now.old) rank ≡ (if present then slave.now.areas else []) }
        ensures { result.now ≡ areas_of_rank (areas_by_rank self.now.new) rank }
    {
        match self.change.index_of(rank) {
            Some(index) => self.change.areas_after(index),
            None if present => slave.areas.as_slice(),
            None => &[],
        }
    }
}
