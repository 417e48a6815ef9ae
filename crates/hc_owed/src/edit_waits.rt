//! The tasks that will wait once an edit is carried out and each slave that came with it is cleared.
ghost use Rattle.std.specs.Prelude.{◌≡◌, ◌≢◌, ◌+◌, ◌-◌, ◌*◌, ◌<◌, ◌≤◌, Some, length, slice_get};
ghost use Rattle.hc_registers.specs.RankDifferences.{block_place};
ghost use Rattle.hc_owed.specs.declared.area.Turn.TheVariants.{Left};
ghost use Rattle.hc_owed.specs.Areas.{area_after};
ghost use Rattle.hc_owed.specs.EditWaits.{CanTallyMoved, area_coming, areas_coming};
ghost use Rattle.hc_owed.specs.ReadinessSteps.{changed_from};
ghost use Rattle.hc_owed.specs.Tally.{Tallies};

use crate::area::{JudgedArea, Turn};
use crate::owed::Owed;
use crate::readiness::{Readiness, moved_area};
use crate::tally::Tally;
use crate::task_set::TaskSet;
use hc_registers::ranked::{Gone, RankedBlock};

/// Recounts the areas from index `from` on, before index `end`, as they are once their slaves have left the line.
fn tally_left(areas: &[JudgedArea], tally: &mut Tally, from: usize, end: usize)
    requires order { from ≤ end }
    requires inside { end ≤ length areas.now }
    requires few { length areas.now < 8 * 65536 }
    requires tallied { Tallies areas.now tally.old }
    ensures { Tallies (changed_from (area_after Left) from (end - from) areas.now) tally.new }
{
    for n in from..end {
        let area = areas[n];
        tally.replace(area, area.after(Turn::Left));
    }
}

/// Returns an area once its block has moved, and once its slave, if it came with the edit, is cleared.
fn area_coming(owed: &Owed, moved: &RankedBlock, area: JudgedArea) -> JudgedArea
    requires rank { 1 ≤ moved.now.rank }
    requires inside { block_place moved.now < length owed.now.known }
    ensures { result ≡ area_coming owed.now moved.now area }
{
    moved_area(moved, owed.will_owe(moved), area.entered())
}

/// Returns the area with an index: `last` if a block of it moved just before, otherwise the area of the list. `done` is one
/// more than the index of the area in `last`, or 0 if no block moved yet.
fn area_now(areas: &[JudgedArea], n: usize, done: usize, last: JudgedArea) -> JudgedArea
    requires { n < length areas.now }
    ensures last { n + 1 ≡ done → result ≡ last }
    ensures unmoved { n + 1 ≢ done → slice_get areas.now n ≡ Some result }
{
    if n + 1 == done { last } else { areas[n] }
}

/// Counts the areas of moved blocks, one after another, as they are once their slaves, if they came with the edit, are cleared.
fn tally_moved(areas: &[JudgedArea], tally: &mut Tally, owed: &Owed, moved: &[RankedBlock])
    requires { CanTallyMoved areas.now tally.old owed.now moved.now }
    ensures { (can : CanTallyMoved areas.now tally.old owed.now moved.now) → Tallies (areas_coming owed.now moved.now can.counted) tally.new }
{
    let mut done = 0;
    let mut last = JudgedArea::outside();
    for block in moved {
        let n = block.place() / 2;
        let was = area_now(areas, n, done, last);
        last = area_coming(owed, block, was);
        tally.replace(was, last);
        done = n + 1;
    }
}

impl Readiness {
    ghost use Rattle.std.specs.Prelude.{◌≡◌};
    ghost use Rattle.hc_owed.specs.EditWaits.{ReadinessWillBeEdited};
    ghost use Rattle.hc_owed.specs.ReadinessLaws.{ForetellsWaiting};

    /// Returns the tasks that will wait once an edit that declares nothing is carried out and each slave that came with it is
    /// cleared. `owed` is the state of the blocks before the edit. `gone` are the slaves that leave the line, and `moved` the
    /// blocks that move, in line and block order. Nothing changes. It takes the time of the blocks that leave and move, and
    /// allocates nothing.
    pub fn will_wait(&self, owed: &Owed, gone: Gone, moved: &[RankedBlock]) -> TaskSet
        requires { ReadinessWillBeEdited self.now owed.now gone moved.now }
        ensures { ForetellsWaiting self.now owed.now gone moved.now result }
    {
        let areas = self.areas.as_slice();
        let mut tally = self.tally;
        let from = gone.first_place() / 2;
        tally_left(areas, &mut tally, from, from + 8 * usize::from(gone.slaves));
        tally_moved(areas, &mut tally, owed, moved);
        tally.free().others()
    }
}
