//! Tasks of a line that are turned into those of another: the widths that differ are set, and the boundaries of a task with
//! such a width are repaired. If a task would need too many datagrams, it and those before it are restored, and those after it
//! are not read. If the boundaries are known, as on the way back, they replace a repair.
ghost use Rattle.std.specs.Prelude.{◌≡◌, ◌+◌, ◌*◌, ◌≤◌, IfErr, IfOk, None, OnErr, OnOk, Some, false, length, true};
ghost use Rattle.hc_records.specs.declared.limits.TheConstants.{MOST_DATAGRAMS};
ghost use Rattle.hc_cuts.specs.Starts.{most_read};
ghost use Rattle.hc_cuts.specs.TaskCuts.{over_limit_from, is_over_limit, both_task_cuts, task_cuts_from, starts_by, tree_by};
ghost use Rattle.hc_cuts.specs.Recut.{recut_by, recut_from, most_steps_by, most_steps_from};
ghost use Rattle.hc_cuts.specs.ApplyWidths.{AreLines, CanRestoreWidths, CanApplyTaskWidths, HasTree, CanApplyWidths, RestoresWidths, AppliesTaskWidths, Applies};
ghost use Rattle.hc_cuts.specs.Areas.{AreaLine};

use crate::cuts::Cuts;
use crate::fold::TooManyDatagrams;
use crate::line_change::LineChange;
use crate::starts::LineStarts;
use crate::touched::touched_hulls;
use crate::widths::set_widths;
use arrayvec::ArrayVec;
use hc_bitsum::steps::Steps;
use hc_records::keys::Key;
use hc_records::task::Task;
use std::sync::ledger::Ledger;

/// Turns a task, and returns how many of its spans are not settled. Each of these spans takes 1 to 104 steps, and nothing else
/// takes any; a refusal takes at most 16 times 104. Fails with `TooManyDatagrams` if it would need more than 16; then it is
/// unchanged.
fn apply_in_task<L: Ledger>(
    cuts: &mut Cuts,
    task: u8,
    change: &LineChange,
    steps: &mut Steps<L>,
) -> Result<u32, TooManyDatagrams>
    requires { CanApplyTaskWidths task cuts.old change.now }
    ensures applied { (old new : AreaLine) → AppliesTaskWidths task cuts.old change.now old new → OnOk result (cuts.new ≡ both_task_cuts task new) }
    ensures fits { (old new : AreaLine) → AppliesTaskWidths task cuts.old change.now old new → OnOk result (is_over_limit task new ≡ false) }
    ensures refused { (old new : AreaLine) → AppliesTaskWidths task cuts.old change.now old new → OnErr result (is_over_limit task new ≡ true) }
    ensures unchanged { OnErr result (cuts.new ≡ cuts.old) }
    ensures recut { (old new : AreaLine) → AppliesTaskWidths task cuts.old change.now old new → IfOk result (λ recut. recut ≡ recut_by task old new) }
    ensures few { IfOk result (λ recut. recut ≤ MOST_DATAGRAMS) }
    ensures steps { (old new : AreaLine) → AppliesTaskWidths task cuts.old change.now old new → steps.new ≤ steps.old + most_steps_by task old new }
    ensures least { IfOk result (λ recut. steps.old + recut ≤ steps.new) }
    ensures most { IfOk result (λ recut. steps.new ≤ steps.old + most_read * recut) }
{
    set_widths(cuts, task, change);
    let hulls = touched_hulls(task, change);
    if hulls.are_none() {
        return Ok(0);
    }
    match cuts.repair(&hulls, steps) {
        Ok(recut) => Ok(recut),
        Err(refused) => {
            let back = change.back();
            set_widths(cuts, task, &back);
            Err(refused)
        }
    }
}

/// Restores a task to another line's, whose boundaries are known.
fn restore_in_task(cuts: &mut Cuts, task: u8, change: &LineChange, starts: ArrayVec<Key, 16>)
    requires { HasTree task cuts.old.tree change.now }
    ensures { (old new : AreaLine) → AreLines change.now old new → cuts.old.tree ≡ tree_by task old → starts.items ≡ starts_by task new → cuts.new ≡ both_task_cuts task new }
{
    set_widths(cuts, task, change);
    cuts.put_starts(starts);
}

/// Turns tasks in a row, from a number on, and returns how many of their spans are not settled. Fails with the first of them
/// that would need more than 16 datagrams; then they are unchanged.
pub(crate) fn apply_in_tasks<L: Ledger>(
    tasks: &mut [Cuts],
    task: u8,
    change: &LineChange,
    steps: &mut Steps<L>,
) -> Result<u32, u8>
    requires numbers { task + length tasks.old ≤ 8 }
    requires lines { CanApplyWidths (length tasks.old) task tasks.old change.now }
    ensures applied { (old new : AreaLine) → Applies task tasks.old change.now old new → OnOk result (tasks.new ≡ task_cuts_from (length tasks.old) task new) }
    ensures accepted { (old new : AreaLine) → Applies task tasks.old change.now old new → OnOk result (over_limit_from (length tasks.old) task new ≡ None) }
    ensures refused { (old new : AreaLine) → Applies task tasks.old change.now old new → IfErr result (λ over_limit. over_limit_from (length tasks.old) task new ≡ Some over_limit) }
    ensures unchanged { OnErr result (tasks.new ≡ tasks.old) }
    ensures recut { (old new : AreaLine) → Applies task tasks.old change.now old new → IfOk result (λ recut. recut ≡ recut_from (length tasks.old) task old new) }
    ensures few { IfOk result (λ recut. recut ≤ MOST_DATAGRAMS * length tasks.old) }
    ensures steps { (old new : AreaLine) → Applies task tasks.old change.now old new → steps.new ≤ steps.old + most_steps_from (length tasks.old) task old new }
    ensures least { IfOk result (λ recut. steps.old + recut ≤ steps.new) }
    ensures most { IfOk result (λ recut. steps.new ≤ steps.old + most_read * recut) }
{
    if tasks.is_empty() {
        return Ok(0);
    }
    let (these, rest) = tasks.split_at_mut(1);
    let starts = these[0].copied_starts();
    let Ok(recut) = apply_in_task(&mut these[0], task, change, steps) else {
        return Err(task);
    };
    match apply_in_tasks(rest, task + 1, change, steps) {
        Ok(after_it) => Ok(recut + after_it),
        Err(over_limit) => {
            let back = change.back();
            restore_in_task(&mut these[0], task, &back, starts);
            Err(over_limit)
        }
    }
}

/// Restores tasks in a row, from a number on, to another line, whose boundaries are known.
pub(crate) fn restore_in_tasks(
    tasks: &mut [Cuts],
    task: u8,
    change: &LineChange,
    starts: &LineStarts,
)
    requires numbers { task + length tasks.old ≤ 8 }
    requires lines { CanRestoreWidths (length tasks.old) task tasks.old change.now starts.now }
    ensures { (old new : AreaLine) → RestoresWidths (length tasks.old) task tasks.old change.now starts.now old new → tasks.new ≡ task_cuts_from (length tasks.old) task new }
{
    if tasks.is_empty() {
        return;
    }
    let (these, rest) = tasks.split_at_mut(1);
    restore_in_task(&mut these[0], task, change, starts.copied(Task(task)));
    restore_in_tasks(rest, task + 1, change, starts);
}
