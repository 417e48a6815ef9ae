//! The repair of a task's boundaries after an edit: those between which nothing was touched stay, and the others are searched.
//! `Cuts::repair` uses it.
ghost use Rattle.std.specs.Prelude.{◌≡◌, ◌+◌, ◌*◌, ◌<◌, ◌≤◌, ◌∷◌, ◌++◌, [], IfOk, OnErr, OnOk, drop, if◌then◌else◌};
ghost use Rattle.hc_records.specs.Boundaries.{boundaries};
ghost use Rattle.hc_records.specs.Image.{datagram_count};
ghost use Rattle.hc_records.specs.Packing.{empty_front, packed};
ghost use Rattle.hc_records.specs.declared.keys.TheConstants.Key.{END};
ghost use Rattle.hc_records.specs.declared.limits.TheConstants.{MOST_DATAGRAMS};
ghost use Rattle.hc_bitsum.specs.Tree.{CanBegin, HoldsTaskList};
ghost use Rattle.hc_cuts.specs.Firsts.{IsOverLimit};
ghost use Rattle.hc_cuts.specs.Repair.{AreOfBefore, following, meets_either, unsettled_between};
ghost use Rattle.hc_cuts.specs.Spans.{is_settled_by};
ghost use Rattle.hc_cuts.specs.Starts.{most_read, next_boundary};

use crate::cuts::end_of;
use crate::fold::TooManyDatagrams;
use crate::hulls::{Hulls, meets_hull};
use crate::next::next_cut;
use arrayvec::ArrayVec;
use hc_bitsum::steps::Steps;
use hc_bitsum::tree::SumTree;
use hc_records::keys::Key;
use std::sync::ledger::Ledger;

/// Returns whether a span has a key in common with the hull of the outputs or of the inputs.
pub(crate) fn meets_either(hulls: &Hulls, span: (Key, Key)) -> bool
    ensures { result ≡ meets_either hulls.now span }
{
    meets_hull(hulls.outputs, span) || meets_hull(hulls.inputs, span)
}

/// Returns the boundary after a key at which a datagram begins: the key of the next one, or `Key::END`.
fn following(starts: &[Key], from: Key) -> Option<Key>
    ensures { result ≡ following from starts.now }
{
    for i in 0..starts.len() {
        if from.is_same(starts[i]) {
            return Some(end_of(starts, i));
        }
    }
    None
}

/// Returns the end of the span from a boundary, and the number of searches for it: none if the old span from there meets no
/// hull, and so stays, and else one.
fn span_end<L: Ledger>(
    task: &SumTree,
    old: &[Key],
    hulls: &Hulls,
    from: Key,
    steps: &mut Steps<L>,
) -> (Key, u32)
    requires holds { HoldsTaskList task.now }
    requires begins { CanBegin task.now.slaves from }
    requires were { AreOfBefore old.now hulls.now task.now.list }
    ensures next { result.0 ≡ next_boundary from task.now.list }
    ensures searched { result.1 ≡ (if is_settled_by (drop 1 old.now) hulls.now.outputs hulls.now.inputs (from, result.0) then 0 else 1) }
    ensures one { result.1 ≤ 1 }
    ensures least { steps.old + result.1 ≤ steps.new }
    ensures most { steps.new ≤ steps.old + most_read * result.1 }
{
    if let Some(next) = following(old, from) {
        if !meets_either(hulls, (from, next)) {
            return (next, 0);
        }
    }
    (next_cut(task, from, steps), 1)
}

/// Returns the boundaries of a task's areas without the last, `Key::END`, and the number of searches for them. The old ones are
/// those of areas whose widths differ from the task's only inside the hulls.
pub(crate) fn repaired_starts<L: Ledger>(
    task: &SumTree,
    old: &[Key],
    hulls: &Hulls,
    steps: &mut Steps<L>,
) -> Result<(ArrayVec<Key, 16>, u32), TooManyDatagrams>
    requires holds { HoldsTaskList task.now }
    requires were { AreOfBefore old.now hulls.now task.now.list }
    ensures starts { IfOk result (λ found. found.0.items ++ END ∷ [] ≡ boundaries task.now.list) }
    ensures few { OnOk result (datagram_count (packed empty_front task.now.list) ≤ MOST_DATAGRAMS) }
    ensures count { IfOk result (λ found. found.1 ≡ unsettled_between hulls.now old.now found.0.items) }
    ensures refused { OnErr result (IsOverLimit task.now.list) }
    ensures least { IfOk result (λ found. steps.old + found.1 ≤ steps.new) }
    ensures most { IfOk result (λ found. steps.new ≤ steps.old + most_read * found.1) }
    ensures bound { steps.new ≤ steps.old + most_read * MOST_DATAGRAMS }
    ensures spans { IfOk result (λ found. found.1 ≤ MOST_DATAGRAMS) }
{
    let mut starts = ArrayVec::new();
    starts.push(Key::START);
    let mut from = Key::START;
    let mut count = 0;
    'spans: loop {
        let (next, searches) = span_end(task, old, hulls, from, steps);
        count += searches;
        if next.is_same(Key::END) {
            return Ok((starts, count));
        }
        if starts.is_full() {
            return Err(TooManyDatagrams);
        }
        starts.push(next);
        from = next;
    }
}
