//! The trees of a line's tasks, turned to the line after an edit, and back.
ghost use Rattle.std.specs.Prelude.{◌≡◌, IfErr, IfOk, None, OnErr, OnOk, Some};
ghost use Rattle.hc_records.specs.Boundaries.{recut};
ghost use Rattle.hc_records.specs.Edits.{over_limit_task};
ghost use Rattle.hc_records.specs.Line.{line_from};
ghost use Rattle.hc_cuts.specs.Areas.{areas_by_rank};
ghost use Rattle.hc_cuts.specs.LineKeeping.{IsKnownBefore};
ghost use Rattle.hc_cuts.specs.TaskCuts.{line_cuts};
ghost use Rattle.hc_cuts.specs.ApplyWidths.{AreStartsOf};
ghost use Rattle.hc_changes.specs.EditedLine.{IsEditedLine};

use hc_bitsum::steps::Steps;
use hc_changes::edited_line::EditedLine;
use hc_cuts::line_keeping::Before;
use hc_cuts::starts::LineStarts;
use hc_cuts::tasks::LineCuts;
use std::sync::ledger::Ledger;

/// Turns the trees of a line's tasks to the line after an edit, and returns the number of spans of touched tasks that are not
/// settled. Fails with the lowest task of the new line that needs more than 16 datagrams; the trees are then as they were. It
/// allocates nothing.
pub(crate) fn apply_line_widths<L: Ledger>(
    cuts: &mut LineCuts,
    edited: &EditedLine<'_>,
    steps: &mut Steps<L>,
) -> Result<u32, u8>
    requires edited { IsEditedLine edited.now }
    requires trees { cuts.old ≡ line_cuts (areas_by_rank edited.now.old) }
    requires fits { over_limit_task (line_from 1 edited.now.old) ≡ None }
    ensures applied { OnOk result (cuts.new ≡ line_cuts (areas_by_rank edited.now.new)) }
    ensures accepted { OnOk result (over_limit_task (line_from 1 edited.now.new) ≡ None) }
    ensures recut { IfOk result (λ unsettled. unsettled ≡ recut (line_from 1 edited.now.old) (line_from 1 edited.now.new)) }
    ensures refused { IfErr result (λ task. over_limit_task (line_from 1 edited.now.new) ≡ Some task) }
    ensures unchanged { OnErr result (cuts.new ≡ cuts.old) }
{
    cuts.apply_widths(edited.change(), steps)
}

/// Turns the trees of the line after an edit back to the line before it, by the boundaries that the tasks had there. It
/// allocates nothing.
pub(crate) fn restore_line_widths(cuts: &mut LineCuts, edited: &EditedLine<'_>, known: &Before)
    requires edited { IsEditedLine edited.now }
    requires trees { cuts.old ≡ line_cuts (areas_by_rank edited.now.new) }
    requires known { IsKnownBefore (areas_by_rank edited.now.old) (areas_by_rank edited.now.new) known.now }
    ensures { cuts.new ≡ line_cuts (areas_by_rank edited.now.old) }
{
    let back = edited.change().back();
    cuts.restore_widths(&back, known.starts());
}

/// Turns the trees of a line's tasks again to the line after an edit, by the boundaries that the tasks have there. It allocates
/// nothing.
pub(crate) fn apply_known_widths(cuts: &mut LineCuts, edited: &EditedLine<'_>, starts: &LineStarts)
    requires edited { IsEditedLine edited.now }
    requires trees { cuts.old ≡ line_cuts (areas_by_rank edited.now.old) }
    requires starts { AreStartsOf (areas_by_rank edited.now.new) starts.now }
    ensures { cuts.new ≡ line_cuts (areas_by_rank edited.now.new) }
{
    cuts.restore_widths(edited.change(), starts);
}
