//! The widths of a task's areas, set if they differ between two lines.
ghost use Rattle.std.specs.Prelude.{◌≡◌, ◌<◌, ◌≤◌, ◌==◌, ◌&&◌, false, if◌then◌else◌};
ghost use Rattle.hc_bitsum.specs.Tree.{HasPlace, HoldsTaskList};
ghost use Rattle.hc_records.specs.Boundaries.{width_in};
ghost use Rattle.hc_records.specs.Keys.{same_key};
ghost use Rattle.hc_records.specs.declared.keys.Key.{Key};
ghost use Rattle.hc_records.specs.declared.limits.TheConstants.{MOST_AREAS, MOST_AREA_BITS};
ghost use Rattle.hc_records.specs.declared.records.Area.{Area};
ghost use Rattle.hc_cuts.specs.Areas.{slave_width, width_at, AreaLine};
ghost use Rattle.hc_cuts.specs.TaskCuts.{tree_by};
ghost use Rattle.hc_cuts.specs.ApplyWidths.{AreLines, HasTree};
ghost use Rattle.hc_cuts.specs.Widths.{AreBounded, IsSetTo, widths_with_slave};

use crate::cuts::Cuts;
use crate::line_change::LineChange;
use hc_records::keys::Key;
use hc_records::records::{Area, Dir};

/// Returns the width of a key in a task, by the areas of its slave, in bits.
pub(crate) fn slave_width(areas: &[Area], task: u8, key: Key) -> u16
    requires { AreBounded areas.now }
    ensures value { result ≡ slave_width task areas.now key }
    ensures narrow { result ≤ MOST_AREA_BITS }
{
    match areas.get(usize::from(key.area)) {
        Some(area) if area.task == task && area.dir == key.dir => area.width(),
        _ => 0,
    }
}

/// Returns whether a slave with these areas has the one with an index in its record in a task.
pub(crate) fn is_in_task(areas: &[Area], task: u8, place: u8) -> bool
    ensures { result ≡ false → (key : Key) → key.area ≡ place → slave_width task areas.now key ≡ 0 }
{
    match areas.get(usize::from(place)) {
        Some(area) => area.task == task,
        None => false,
    }
}

/// Sets the width of a key of a slave that had some areas and gets others, if it differs.
fn set_key(cuts: &mut Cuts, task: u8, key: Key, old: &[Area], new: &[Area])
    requires place { HasPlace cuts.old.tree.slaves key }
    requires holds { HoldsTaskList cuts.old.tree }
    requires old { AreBounded old.now }
    requires new { AreBounded new.now }
    requires was { width_in cuts.old.tree.list key ≡ slave_width task old.now key }
    ensures { IsSetTo cuts.old cuts.new (λ other. if same_key key other then slave_width task new.now key else width_in cuts.old.tree.list other) }
{
    let bits = slave_width(new, task, key);
    if slave_width(old, task, key) == bits {
        return;
    }
    cuts.set(key, bits);
}

/// Sets the widths of an output and of an input with an index in the record of a slave, if they differ: none if the task has
/// that area neither before nor after.
fn set_area(cuts: &mut Cuts, task: u8, rank: u16, area: u8, old: &[Area], new: &[Area])
    requires first { 1 ≤ rank }
    requires last { rank ≤ cuts.old.tree.slaves }
    requires area { area < MOST_AREAS }
    requires holds { HoldsTaskList cuts.old.tree }
    requires old { AreBounded old.now }
    requires new { AreBounded new.now }
    requires was { (key : Key) → key.rank ≡ rank → key.area ≡ area → width_in cuts.old.tree.list key ≡ slave_width task old.now key }
    ensures { IsSetTo cuts.old cuts.new (λ key. if (rank == key.rank) && (area == key.area) then slave_width task new.now key else width_in cuts.old.tree.list key) }
{
    if !is_in_task(old, task, area) && !is_in_task(new, task, area) {
        return;
    }
    let output = Key {
        dir: Dir::Out,
        rank,
        area,
    };
    let input = Key {
        dir: Dir::In,
        rank,
        area,
    };
    set_key(cuts, task, output, old, new);
    set_key(cuts, task, input, old, new);
}

/// Sets the widths of a slave that had some areas and gets others, if they differ.
fn set_slave(cuts: &mut Cuts, task: u8, rank: u16, old: &[Area], new: &[Area])
    requires first { 1 ≤ rank }
    requires last { rank ≤ cuts.old.tree.slaves }
    requires holds { HoldsTaskList cuts.old.tree }
    requires old { AreBounded old.now }
    requires new { AreBounded new.now }
    requires was { (key : Key) → key.rank ≡ rank → width_in cuts.old.tree.list key ≡ slave_width task old.now key }
    ensures { IsSetTo cuts.old cuts.new (widths_with_slave task rank new.now cuts.old) }
{
    for area in 0..old.len().max(new.len()) {
        set_area(cuts, task, rank, area as u8, old, new);
    }
}

/// Sets the widths of a task of a line to those that a change leads to, if they differ. It allocates nothing.
pub(crate) fn set_widths(cuts: &mut Cuts, task: u8, change: &LineChange)
    requires { HasTree task cuts.old.tree change.now }
    ensures { (old new : AreaLine) → AreLines change.now old new → cuts.old.tree ≡ tree_by task old → IsSetTo cuts.old cuts.new (width_at task new) }
{
    for i in 0..change.slaves() {
        let rank = change.first() + i as u16;
        set_slave(
            cuts,
            task,
            rank,
            change.areas_before(i),
            change.areas_after(i),
        );
    }
}
