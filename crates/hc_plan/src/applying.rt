//! An edit worked out on a line whose tasks are stored in trees. The trees are turned to find the differences, and are then put
//! back.
ghost use Rattle.std.specs.Prelude.{◌≡◌, ◌≢◌, ◌+◌, Err, IfErr, IfOk, None, Ok, OnOk, map};
ghost use Rattle.hc_records.specs.declared.faults.EditFault.TheVariants.{Memory};
ghost use Rattle.hc_records.specs.Edits.{over_limit_task, edited};
ghost use Rattle.hc_records.specs.Line.{line_from};
ghost use Rattle.hc_registers.specs.Ranked.{moved_ranked};
ghost use Rattle.hc_places.specs.Room.{IsRowRoomFor};
ghost use Rattle.hc_places.specs.Swap.{Leads};
ghost use Rattle.hc_places.specs.Table.{table_of};
ghost use Rattle.hc_cuts.specs.Areas.{areas_by_rank};
ghost use Rattle.hc_cuts.specs.LineKeeping.{IsKnownBefore};
ghost use Rattle.hc_cuts.specs.TaskCuts.{line_cuts};
ghost use Rattle.hc_cuts.specs.ApplyWidths.{AreStartsOf};
ghost use Rattle.hc_changes.specs.EditedLine.{IsEditedLine};
ghost use Rattle.hc_plan.specs.RegisterBlocks.{blocks_by_rank};
ghost use Rattle.hc_plan.specs.inner.Applied.{Makes, state_before, state_after};
ghost use Rattle.hc_plan.specs.Reports.{ReportsEdit, found_name};

use crate::line_widths::{apply_line_widths, restore_line_widths};
use crate::moved_blocks::moved_blocks;
use crate::register_blocks::RegisterBlocks;
use crate::report::Report;
use hc_bitsum::steps::Steps;
use hc_changes::edited_line::EditedLine;
use hc_changes::finding::maybe_moved_areas;
use hc_changes::rows::changed_rows;
use hc_changes::tables::changed_tasks;
use hc_cuts::line_keeping::Before;
use hc_cuts::starts::LineStarts;
use hc_cuts::tasks::LineCuts;
use hc_places::room::Room;
use hc_places::swap::Swap;
use hc_places::table::Places;
use hc_records::edit::Edit;
use hc_records::faults::EditFault;
use hc_records::items::Items;
use hc_records::limits::LAST_EPOCH;
use hc_registers::ranked::RankedBlock;
use std::alloc::{AllocError, Global};
use std::sync::ledger::{Blank, Ledger};

/// An edit worked out on a line: its report, the moved blocks with their bytes, the boundaries of the new line's tasks, and the
/// memory for the new table.
#[derive(Drop)]
pub(crate) struct WorkedOut {
    pub(crate) report: Report,
    pub(crate) blocks: Vec<RankedBlock>,
    pub(crate) starts: LineStarts,
    pub(crate) room: Room,
}

/// The differences between the old line and the new one, and the memory for the new table.
#[derive(Drop)]
struct Leading {
    blocks: Vec<RankedBlock>,
    names: Vec<(u16, u8)>,
    swap: Swap,
    room: Room,
}

/// The names of blocks, in their order: each by its slave's station address and its number in the slave's order.
fn names_of(alloc: Global, blocks: &[RankedBlock]) -> Result<Vec<(u16, u8)>, AllocError>
    ensures { IfOk result (λ names. names.items ≡ map (λ block. found_name block.found) blocks.now) }
{
    let mut names = Vec::with_capacity(alloc, blocks.len())?;
    for block in blocks {
        names.push((block.found.station, block.found.number))?;
    }
    Ok(names)
}

/// Returns the differences between a line, by its table and its stored blocks, and the line after an edit, by the trees of
/// that. The memory for the new table is allocated last. Fails with `AllocError` if an allocation fails.
fn say(
    alloc: Global,
    edit: &Edit,
    edited_line: &EditedLine<'_>,
    known: &Before,
    cuts: &LineCuts,
    places: &Places,
    stored: &RegisterBlocks,
) -> Result<Leading, AllocError>
    requires edit { Makes edit.now places.now edited_line.now }
    requires accepted { over_limit_task (line_from 1 edited_line.now.new) ≡ None }
    requires known { IsKnownBefore (areas_by_rank edited_line.now.old) (areas_by_rank edited_line.now.new) known.now }
    requires trees { cuts.now ≡ line_cuts (areas_by_rank edited_line.now.new) }
    requires stored { stored.now ≡ blocks_by_rank edited_line.now.old }
    ensures blocks { IfOk result (λ leading. leading.blocks.items ≡ moved_ranked (line_from 1 edited_line.now.old) (line_from 1 edited_line.now.new)) }
    ensures names { IfOk result (λ leading. leading.names.items ≡ map (λ block. found_name block.found) leading.blocks.items) }
    ensures edit { IfOk result (λ leading. leading.swap.edit ≡ edit.now) }
    ensures leads { IfOk result (λ leading. Leads (table_of (line_from 1 edited_line.now.old)) (table_of (line_from 1 edited_line.now.new)) leading.swap) }
    ensures room { IfOk result (λ leading. IsRowRoomFor leading.swap.change places.now leading.room) }
{
    let candidates = maybe_moved_areas(alloc, edited_line, known, cuts)?;
    let tasks = changed_tasks(alloc, cuts, places, known)?;
    let found = candidates.as_slice();
    let blocks = moved_blocks(alloc, edited_line, stored, found)?;
    let names = names_of(alloc, blocks.as_slice())?;
    let rows = changed_rows(alloc, places, found, edited_line.change())?;
    let swap = Swap::of(alloc, edit, tasks, rows)?;
    let room = places.room_for(alloc, &swap)?;
    Ok(Leading {
        blocks,
        names,
        swap,
        room,
    })
}

/// Works out an edit that has no fault by itself; the trees of the line are then as they were. Fails with the lowest fault
/// whose condition holds, or with `Memory` if an allocation fails.
pub(crate) fn work_out<L: Ledger>(
    alloc: Global,
    edit: &Edit,
    edited_line: &EditedLine<'_>,
    epoch: u32,
    cuts: &mut LineCuts,
    places: &Places,
    stored: &RegisterBlocks,
    blank: Blank,
) -> Result<WorkedOut, EditFault>
    requires name { blank.name ≡ L.name }
    requires parts { blank.parts ≡ L.parts }
    requires one { L.parts ≡ 1 }
    requires edit { Makes edit.now places.now edited_line.now }
    requires trees { cuts.old ≡ line_cuts (areas_by_rank edited_line.now.old) }
    requires stored { stored.now ≡ blocks_by_rank edited_line.now.old }
    ensures fits { OnOk result (over_limit_task (line_from 1 edited_line.now.new) ≡ None) }
    ensures starts { IfOk result (λ worked. AreStartsOf (areas_by_rank edited_line.now.new) worked.starts) }
    ensures report { IfOk result (λ worked. ReportsEdit (state_before epoch edited_line.now) edit.now (state_after epoch edited_line.now) worked.report) }
    ensures blocks { IfOk result (λ worked. worked.blocks.items ≡ moved_ranked (line_from 1 edited_line.now.old) (line_from 1 edited_line.now.new)) }
    ensures room { IfOk result (λ worked. IsRowRoomFor worked.report.swap.change places.now worked.room) }
    ensures accepted { OnOk result (edited (state_before epoch edited_line.now) edit.now ≡ Ok (state_after epoch edited_line.now)) }
    ensures refused { IfErr result (λ fault. fault ≢ Memory → edited (state_before epoch edited_line.now) edit.now ≡ Err fault) }
    ensures unchanged { cuts.new ≡ cuts.old }
{
    let mut steps: Steps<L> = Steps::start(blank);
    let known = Before::of(cuts, edited_line.change());
    let unsettled = match apply_line_widths(cuts, edited_line, &mut steps) {
        Ok(unsettled) => unsettled,
        Err(task) => return Err(EditFault::TooManyDatagrams(task)),
    };
    let leading = say(alloc, edit, edited_line, &known, cuts, places, stored);
    let starts = cuts.copied_starts();
    restore_line_widths(cuts, edited_line, &known);
    if epoch == LAST_EPOCH {
        return Err(EditFault::EpochsSpent);
    }
    let Leading {
        blocks,
        names,
        swap,
        room,
    } = leading?;
    let report = Report {
        epoch: epoch + 1,
        recut: unsettled,
        moved: blocks.len() as u32,
        swap,
        blocks: Items::of(names),
    };
    Ok(WorkedOut {
        report,
        blocks,
        starts,
        room,
    })
}
