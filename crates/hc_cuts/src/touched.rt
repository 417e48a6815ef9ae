//! The keys of a task whose widths differ between two lines.
ghost use Rattle.std.specs.Prelude.{◌==◌, ◌&&◌};
ghost use Rattle.hc_records.specs.Boundaries.{is_touched};
ghost use Rattle.hc_records.specs.Keys.{same_key};
ghost use Rattle.hc_records.specs.declared.records.Area.{Area};
ghost use Rattle.hc_cuts.specs.Hulls.{AreHulls, TakeIn};
ghost use Rattle.hc_cuts.specs.Areas.{list_by, AreaLine};
ghost use Rattle.hc_cuts.specs.ApplyWidths.{AreLines, HasLines};
ghost use Rattle.hc_cuts.specs.Widths.{AreBounded, width_differs};

use crate::hulls::Hulls;
use crate::line_change::LineChange;
use crate::widths::{is_in_task, slave_width};
use hc_records::keys::Key;
use hc_records::records::{Area, Dir};

/// Adds a key of a slave that had some areas and gets others, if its width differs.
fn touch_key(hulls: &mut Hulls, task: u8, key: Key, old: &[Area], new: &[Area])
    requires old { AreBounded old.now }
    requires new { AreBounded new.now }
    ensures { TakeIn hulls.old hulls.new (λ other. same_key key other && width_differs task old.now new.now other) }
{
    if slave_width(old, task, key) == slave_width(new, task, key) {
        return;
    }
    hulls.add(key);
}

/// Adds the keys of an output and of an input with an index in the record of a slave, if their widths differ: none if the task
/// has that area neither before nor after.
fn touch_area(hulls: &mut Hulls, task: u8, rank: u16, area: u8, old: &[Area], new: &[Area])
    requires old { AreBounded old.now }
    requires new { AreBounded new.now }
    ensures { TakeIn hulls.old hulls.new (λ key. (rank == key.rank) && (area == key.area) && width_differs task old.now new.now key) }
{
    if !is_in_task(old, task, area) && !is_in_task(new, task, area) {
        return;
    }
    let output = Key {
        dir: Dir::Out,
        rank,
        area,
    };
    let input = Key {
        dir: Dir::In,
        rank,
        area,
    };
    touch_key(hulls, task, output, old, new);
    touch_key(hulls, task, input, old, new);
}

/// Adds the keys of a slave that had some areas and gets others, if their widths differ.
fn touch_slave(hulls: &mut Hulls, task: u8, rank: u16, old: &[Area], new: &[Area])
    requires old { AreBounded old.now }
    requires new { AreBounded new.now }
    ensures { TakeIn hulls.old hulls.new (λ key. (rank == key.rank) && width_differs task old.now new.now key) }
{
    for area in 0..old.len().max(new.len()) {
        touch_area(hulls, task, rank, area as u8, old, new);
    }
}

/// Returns the hulls of the keys of a task, 0 to 7, that a change touches: the intervals from the least to the greatest output
/// and input whose width differs. None if no width does. It allocates nothing.
pub fn touched_hulls(task: u8, change: &LineChange) -> Hulls
    requires { HasLines change.now }
    ensures { (old new : AreaLine) → AreLines change.now old new → AreHulls (is_touched (list_by task old) (list_by task new)) result }
{
    let mut hulls = Hulls::none();
    for i in 0..change.slaves() {
        let rank = change.first() + i as u16;
        touch_slave(
            &mut hulls,
            task,
            rank,
            change.areas_before(i),
            change.areas_after(i),
        );
    }
    hulls
}
