//! The datagrams of the eight tasks that an edit leaves as they are, from facts of the tasks before they are turned. The plan
//! has these from the turn to the end of an edit, and the parts of its change use them.
ghost use Rattle.hc_cuts.specs.Areas.{AreaLine};
ghost use Rattle.hc_cuts.specs.ApplyWidths.{AreLines, HasLines};
ghost use Rattle.hc_cuts.specs.LineKeeping.{AreLineHulls};

use crate::hulls::Hulls;
use crate::keeping::{is_unchanged, unchanged_until};
use crate::line_change::LineChange;
use crate::starts::LineStarts;
use crate::tasks::LineCuts;
use crate::touched::touched_hulls;
use hc_records::keys::Key;
use hc_records::limits::TASKS;
use hc_records::task::Task;
use std::marker::Model;

/// The boundaries of the eight tasks of a line before a change, and the hulls of the keys whose widths the change makes differ.
#[derive(Drop)]
pub struct Before {
    starts: LineStarts,
    hulls: [Hulls; 8],
}

impl Model for Before {
    ghost use Rattle.hc_cuts.specs.LineKeeping.{Before};

    ghost Value = { Before };

    ghost view = { λ before. record { starts = before.starts; hulls = before.hulls } };
}

/// Returns the hulls of the keys of the eight tasks whose widths a change makes differ.
fn all_hulls(change: &LineChange) -> [Hulls; 8]
    requires { HasLines change.now }
    ensures { (old new : AreaLine) → AreLines change.now old new → AreLineHulls old new result }
{
    let mut hulls = [Hulls::none(); 8];
    for task in 0..TASKS {
        hulls[usize::from(task)] = touched_hulls(task, change);
    }
    hulls
}

impl Before {
    ghost use Rattle.std.specs.Prelude.{◌≡◌};
    ghost use Rattle.hc_records.specs.declared.keys.Key.{Key};
    ghost use Rattle.hc_cuts.specs.Keeping.{is_unchanged, is_unchanged_up_to, HoldsBefore};
    ghost use Rattle.hc_cuts.specs.Areas.{list_by, AreaLine};
    ghost use Rattle.hc_cuts.specs.LineKeeping.{IsKnownBefore, AreTasksOfEdit};
    ghost use Rattle.hc_cuts.specs.TaskCuts.{line_cuts};
    ghost use Rattle.hc_cuts.specs.Recut.{is_touched_by};
    ghost use Rattle.hc_cuts.specs.ApplyWidths.{AreLines, HasLines};

    /// Returns the boundaries of the eight tasks of the old line, and for each task the range of keys whose widths a change
    /// makes differ. It must be called before the tasks are changed. It allocates nothing.
    pub fn of(cuts: &LineCuts, change: &LineChange) -> Before
        requires { HasLines change.now }
        ensures { (old new : AreaLine) → AreLines change.now old new → cuts.now ≡ line_cuts old → IsKnownBefore old new result }
    {
        Before {
            starts: cuts.copied_starts(),
            hulls: all_hulls(change),
        }
    }

    /// Returns the boundaries of the eight tasks of the old line. It allocates nothing.
    pub fn starts(&self) -> &LineStarts
        ensures { result.now ≡ self.now.starts }
    {
        &self.starts
    }

    /// Returns whether the width of a key of a task differs between the two lines. It allocates nothing.
    pub fn is_touched(&self, task: Task) -> bool
        ensures { (old new : AreaLine) → IsKnownBefore old new self.now → result ≡ is_touched_by task old new }
    {
        !self.hulls[task.as_index()].are_none()
    }

    /// Returns whether the datagram of a task, with a number from 0, stays: it began at the key at which it begins now, and its
    /// keys up to the next boundary meet neither the interval from the least to the greatest output whose width differs nor the
    /// inputs' interval. The tasks are the new line's, turned. A datagram that does not exist does not stay. It allocates
    /// nothing.
    pub fn is_unchanged(&self, cuts: &LineCuts, task: Task, number: u16) -> bool
        ensures { (old new : AreaLine) → AreTasksOfEdit old new self.now cuts.now → result ≡ is_unchanged (list_by task old) (list_by task new) number }
    {
        let hulls = &self.hulls[task.as_index()];
        is_unchanged(self.starts.of_task(task), cuts.starts(task), hulls, number)
    }

    /// Returns the key before which the areas of a datagram stay at their places, by its task and its number, from 0. If it
    /// began at the key at which it begins now, this is the first of its keys up to which the interval from there on meets the
    /// one from the least to the greatest output whose width differs, or the inputs' one, or `Key::END` if none does. If it
    /// began elsewhere or does not exist, it is `Key::START`. The tasks are the new line's, turned. It allocates nothing.
    pub fn unchanged_until(&self, cuts: &LineCuts, task: Task, number: u16) -> Key
        ensures { (old new : AreaLine) → AreTasksOfEdit old new self.now cuts.now → HoldsBefore result (is_unchanged_up_to (list_by task old) (list_by task new) number) }
    {
        let hulls = &self.hulls[task.as_index()];
        unchanged_until(self.starts.of_task(task), cuts.starts(task), hulls, number)
    }
}
