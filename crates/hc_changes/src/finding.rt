//! `maybe_moved_areas`: the areas of a new line that may be configured in another way than in the old one. They are found slave
//! by slave, from the turned trees of the tasks.
ghost use Rattle.std.specs.Prelude.{◌≡◌, ◌&&◌, IfOk, slice_index_or};
ghost use Rattle.hc_records.specs.declared.keys.Key.{Key};
ghost use Rattle.hc_records.specs.declared.keys.TheConstants.Key.{END};
ghost use Rattle.hc_records.specs.Keys.{is_within};
ghost use Rattle.hc_cuts.specs.Areas.{areas_by_rank};
ghost use Rattle.hc_cuts.specs.LineKeeping.{IsKnownBefore};
ghost use Rattle.hc_cuts.specs.TaskCuts.{line_cuts};
ghost use Rattle.hc_changes.specs.MaybeMovedAreas.{maybe_moved_areas};
ghost use Rattle.hc_changes.specs.EditedLine.{maybe_moved_areas_of};

use crate::edited_line::EditedLine;
use crate::maybe_moved_areas::MaybeMoved;
use crate::ranks::Ranks;
use hc_cuts::finder::Finder;
use hc_cuts::line_keeping::Before;
use hc_cuts::packing::Placed;
use hc_cuts::tasks::LineCuts;
use hc_records::keys::Key;
use hc_records::limits::TASKS;
use hc_records::records::{Area, Declared, Slave};
use hc_records::task::Task;
use std::alloc::{AllocError, Global};
use std::marker::Model;

/// The key of an area of a slave.
fn key_of(area: &Area, rank: u16, index: u8) -> Key
    ensures { result ≡ record { dir = area.now.dir; rank = rank; area = index } }
{
    Key {
        dir: area.dir,
        rank,
        area: index,
    }
}

/// Returns the boundary of a task with a number, from the boundaries without `Key::END`, which stands for all later ones.
fn start_at(starts: &[Key], number: usize) -> Key
    ensures { result ≡ slice_index_or starts.now number END }
{
    match starts.get(number) {
        Some(key) => *key,
        None => Key::END,
    }
}

/// The higher of two keys.
fn higher(one: Key, other: Key) -> Key
    ensures { (key : Key) → is_within result key ≡ (is_within one key && is_within other key) }
{
    if one.is_before(other) { other } else { one }
}

/// The test of an area as a candidate, with its place. It reads the edited line, the state of the tasks before they were
/// turned, and the turned tasks. Contracts see the edited line.
#[derive(Drop)]
struct MaybeMovedTest<'b, 'a> {
    edited_line: &'b EditedLine<'a>,
    before: &'b Before,
    cuts: &'b LineCuts,
}

impl<'b, 'a> Model for MaybeMovedTest<'b, 'a> {
    ghost use Rattle.hc_changes.specs.inner.Found.{IsMaybeMovedTest};
    ghost use Rattle.hc_changes.specs.EditedLine.{EditedLine};

    ghost Value = { EditedLine };

    ghost view = { λ test. test.edited_line.now };

    ghost invariant = { λ test. IsMaybeMovedTest test.edited_line.now test.before.now test.cuts.now };
}

impl<'b, 'a> MaybeMovedTest<'b, 'a> {
    ghost use Rattle.std.specs.Prelude.{◌≡◌, ◌+◌, ◌<◌, ◌≤◌, ◌++◌, [], IfSome, OnOk, false, if◌then◌else◌, length, not, option_to_list, true};
    ghost use Rattle.std.specs.Option.{option_map_or};
    ghost use Rattle.hc_records.specs.declared.limits.TheConstants.{MOST_SLAVES, TASKS};
    ghost use Rattle.hc_records.specs.Keys.{is_before};
    ghost use Rattle.hc_records.specs.declared.keys.TheConstants.Key.{END};
    ghost use Rattle.hc_cuts.specs.Areas.{areas_of_rank, areas_by_rank};
    ghost use Rattle.hc_cuts.specs.TaskCuts.{line_cuts};
    ghost use Rattle.hc_changes.specs.inner.Found.{HoldChanged, HoldRanks, HoldRecut, IsGroupAt, LieWithin, area_found, found_below, rank_found, ranked_station, is_unchanged_at};
    ghost use Rattle.hc_changes.specs.EditedLine.{IsEditedLine, maybe_moved_areas_of};

    /// True if an area of a task has a place, and its datagram is not kept up to this place.
    fn is_recut(&self, task: Task, place: &Option<Placed>) -> bool
        requires { IfSome place.now (λ placed. is_before placed.key END ≡ true) }
        ensures { result ≡ option_map_or (λ placed. not (is_unchanged_at self.now task placed)) place.now false }
    {
        match place {
            Some(placed) => {
                let until = self
                    .before
                    .unchanged_until(self.cuts, task, placed.datagram());
                !placed.key().is_before(until)
            }
            None => false,
        }
    }

    /// Returns the candidate for an area of the new line, if it is one, from the station address and the rank of its slave, and
    /// its index there. Its place is found among the turned tasks.
    fn judge(
        &self,
        places: &mut Finder,
        station: u16,
        rank: u16,
        index: u8,
        area: &'a Area,
    ) -> Option<MaybeMoved<'a>>
        requires places { places.old ≡ line_cuts (areas_by_rank self.now.new) }
        requires task { area.now.task < TASKS }
        ensures places { places.new ≡ places.old }
        ensures found { option_to_list result ≡ area_found self.now station rank index area.now }
    {
        let changed = self.edited_line.is_changed(rank);
        if !changed && !self.before.is_touched(Task(area.task)) {
            return None;
        }
        let place = places.place(Task(area.task), key_of(area, rank, index));
        if !changed && !self.is_recut(Task(area.task), &place) {
            return None;
        }
        Some(MaybeMoved {
            station,
            rank,
            index,
            area,
            place,
        })
    }

    /// Adds the candidates of a declared slave, from its rank, its record before the edit, and a flag if its group was present
    /// then. Fails with `AllocError` if an allocation fails.
    fn add_slave(
        &self,
        places: &mut Finder,
        found: &mut Vec<MaybeMoved<'a>>,
        rank: u16,
        present: bool,
        slave: &'a Slave,
    ) -> Result<(), AllocError>
        requires places { places.old ≡ line_cuts (areas_by_rank self.now.new) }
        requires areas { areas_of_rank (areas_by_rank self.now.old) rank ≡ (if present then slave.now.areas else []) }
        requires station { ranked_station self.now.old rank ≡ slave.now.station }
        ensures places { places.new ≡ places.old }
        ensures found { OnOk result (found.new.items ≡ found.old.items ++ rank_found self.now rank) }
    {
        let areas = self.edited_line.areas_after(rank, present, slave);
        for i in 0..areas.len() {
            if let Some(maybe_moved) = self.judge(places, slave.station, rank, i as u8, &areas[i]) {
                found.push(maybe_moved)?;
            }
        }
        Ok(())
    }

    /// Adds the candidates of a declared group's slaves, from a rank on, to those of the slaves with lower ranks. It skips the
    /// slaves whose ranks are not among the given ones. Fails with `AllocError` if an allocation fails.
    fn add_group(
        &self,
        places: &mut Finder,
        found: &mut Vec<MaybeMoved<'a>>,
        first: u16,
        declared: &'a Declared,
        ranks: Ranks,
    ) -> Result<(), AllocError>
        requires places { places.old ≡ line_cuts (areas_by_rank self.now.new) }
        requires group { IsGroupAt self.now.old first declared.now }
        requires few { first + length declared.now.group.slaves ≤ MOST_SLAVES + 1 }
        requires ranks { LieWithin self.now ranks.low ranks.high }
        requires so_far { found.old.items ≡ found_below self.now first }
        ensures places { places.new ≡ places.old }
        ensures found { OnOk result (found.new.items ≡ found_below self.now (first + length declared.now.group.slaves)) }
    {
        let slaves = declared.group.slaves.as_slice();
        let (from, to) = ranks.part(first, slaves.len());
        for i in from..to {
            self.add_slave(
                places,
                found,
                first + i as u16,
                declared.present,
                &slaves[i],
            )?;
        }
        Ok(())
    }

    /// The ranks of the slaves that the edit concerns.
    fn changed_ranks(&self) -> Ranks
        requires { IsEditedLine self.now }
        ensures { HoldChanged self.now result.low result.high }
    {
        let change = self.edited_line.change();
        let first = change.first();
        let slaves = change.slaves();
        Ranks::of(first, first + slaves as u16 - 1)
    }

    /// Returns ranks that include the given ones, and those of the slaves with areas in datagrams of a task that are not kept
    /// up to them.
    fn with_recut(&self, ranks: Ranks, task: Task) -> Ranks
        ensures own { HoldRanks result.low result.high ranks.low ranks.high }
        ensures recut { HoldRecut self.now task result.low result.high }
    {
        let starts = self.cuts.starts(task);
        let inputs = self.cuts.has_inputs(task);
        let mut all = ranks;
        for number in 0..starts.len() {
            let until = self.before.unchanged_until(self.cuts, task, number as u16);
            let from = higher(starts[number], until);
            let next = start_at(starts, number + 1);
            if from.is_before(next) {
                all = all.joined(Ranks::between(from, next, inputs));
            }
        }
        all
    }

    /// Ranks between which all candidates are.
    fn ranks(&self) -> Ranks
        requires { IsEditedLine self.now }
        ensures { LieWithin self.now result.low result.high }
    {
        let mut ranks = self.changed_ranks();
        for task in 0..TASKS {
            if self.before.is_touched(Task(task)) {
                ranks = self.with_recut(ranks, Task(task));
            }
        }
        ranks
    }

    /// Returns the candidates in line and record order, from the declared groups before the edit. All candidates are of slaves
    /// with these ranks, and it goes over the groups of such slaves only. Fails with `AllocError` if an allocation fails.
    fn all(
        &self,
        alloc: Global,
        groups: &'a [Declared],
        ranks: Ranks,
    ) -> Result<Vec<MaybeMoved<'a>>, AllocError>
        requires groups { groups.now ≡ self.now.old }
        requires known { IsEditedLine self.now }
        requires ranks { LieWithin self.now ranks.low ranks.high }
        ensures { IfOk result (λ found. found.items ≡ maybe_moved_areas_of self.now) }
    {
        let mut places = Finder::of(self.cuts);
        let mut found = Vec::new(alloc);
        let (start, mut first) = self.edited_line.group_before(ranks.low);
        for i in start..groups.len() {
            let declared = &groups[i];
            if ranks.high < first {
                return Ok(found);
            }
            self.add_group(&mut places, &mut found, first, declared, ranks)?;
            first += declared.group.slaves.len() as u16;
        }
        Ok(found)
    }
}

/// Returns the areas of the line after an edit that may be configured in another way than before it, in line and record order,
/// each with its place. They are the areas of the slaves that the edit concerns, and those in datagrams that are not kept up to
/// them. It reads the edited line, the state of the tasks before they were turned, and the turned tasks. Fails with
/// `AllocError` if an allocation fails.
pub fn maybe_moved_areas<'a>(
    alloc: Global,
    edited_line: &EditedLine<'a>,
    before: &Before,
    cuts: &LineCuts,
) -> Result<Vec<MaybeMoved<'a>>, AllocError>
    requires before { IsKnownBefore (areas_by_rank edited_line.now.old) (areas_by_rank edited_line.now.new) before.now }
    requires cuts { cuts.now ≡ line_cuts (areas_by_rank edited_line.now.new) }
    ensures { IfOk result (λ found. found.items ≡ maybe_moved_areas_of edited_line.now) }
{
    let groups = edited_line.groups();
    let test = MaybeMovedTest {
        edited_line,
        before,
        cuts,
    };
    test.all(alloc, groups, test.ranks())
}
