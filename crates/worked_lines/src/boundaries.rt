//! Two thousand drawn edits on a plan of 16 slaves, with declarations of 48 more among them. After each edit the boundaries of
//! the plan's tasks equal those of the plain fold over the tasks' lists.
ghost use Rattle.std.specs.Prelude.{All, IfOk};
ghost use Rattle.hc_records.specs.Laws.{IsPackable};
ghost use Rattle.hc_bitsum.specs.Tree.{HasPlace};

use crate::drawn::{AREAS, Drawing, Line, groups};
use crate::opened::{Refused, opened};
use hc_cuts::fold::fold_cuts;
use hc_plan::plan::Plan;
use hc_records::faults::EditFault;
use hc_records::keys::Key;
use hc_records::project::Project;
use hc_records::records::Dir;
use std::alloc::{AllocError, Global};
use std::test::Fail;

/// The bits of each area in a task's list. 0 if the area is not in the list.
type Widths = [u16; AREAS];

/// The bits that each area has in a task's list.
fn widths(line: &Line, task: u8) -> Widths {
    let mut widths = [0; AREAS];
    for area in 0..AREAS {
        widths[area] = line.width(task, area);
    }
    widths
}

/// The key at a place of a list of widths.
fn key(place: u16) -> Key
    ensures { HasPlace 64 result }
{
    let is_output = place < 64;
    Key {
        dir: if is_output { Dir::Out } else { Dir::In },
        rank: place % 64 + 1,
        area: if is_output { 0 } else { 1 },
    }
}

/// A task's list: the keys that have a width.
fn list_of(alloc: Global, widths: &Widths) -> Result<Vec<(Key, u16)>, AllocError>
    ensures { IfOk result (λ list. All IsPackable list.items) }
{
    let mut list = Vec::new(alloc);
    let mut place = 0_u16;
    for width in widths {
        let bits = *width;
        if bits > 0 && bits <= 11_888 {
            list.push((key(place), bits))?;
        }
        place = place.saturating_add(1);
    }
    Ok(list)
}

/// True if the boundaries are `Key::START` and these keys without the first.
fn are_starts(starts: &[Key], keys: &[Key]) -> bool {
    match (starts, keys) {
        ([first, later @ ..], [_, others @ ..]) => *first == Key::START && later == others,
        ([first], []) => *first == Key::START,
        _ => false,
    }
}

/// True if no task of a line has too many datagrams.
fn has_room(alloc: Global, line: &Line) -> Result<bool, AllocError> {
    for task in 0..8 {
        let list = list_of(alloc, &widths(line, task))?;
        if fold_cuts(&list).is_err() {
            return Ok(false);
        }
    }
    Ok(true)
}

/// The plan at the opening.
fn plan(alloc: Global) -> Result<Plan, Refused> {
    match groups(alloc) {
        Ok(groups) => opened(alloc, Project::checked(alloc, groups)),
        Err(_) => Err(Refused::Opening(EditFault::Memory)),
    }
}

/// True if the boundaries of each task of the plan are those of the fold over the line's list.
fn has_folded(alloc: Global, plan: &Plan, line: &Line) -> Result<bool, AllocError> {
    for task in 0..8 {
        let list = list_of(alloc, &widths(line, task))?;
        let Ok(keys) = fold_cuts(&list) else {
            return Ok(false);
        };
        if !are_starts(plan.starts(task), &keys) {
            return Ok(false);
        }
    }
    Ok(true)
}

/// The number of 2,000 edits that a plan accepts. None if its boundaries differ from the fold's after one of them, or an edit
/// is refused for its datagrams though the fold over the new lists has room.
fn accepted(plan: &mut Plan, alloc: Global) -> Result<Option<usize>, AllocError> {
    let mut drawing = Drawing::begin();
    let mut count = 0_usize;
    for _ in 0..2000 {
        let answered = drawing.apply_next(alloc, plan)?;
        match answered.refused {
            None => count = count.saturating_add(1),
            Some(EditFault::TooManyDatagrams(_)) if has_room(alloc, &answered.next)? => {
                return Ok(None);
            }
            Some(_) => {}
        }
        if !has_folded(alloc, plan, &drawing.line)? {
            return Ok(None);
        }
    }
    Ok(Some(count))
}

/// More than 800 of 2,000 drawn edits are accepted, and after each the tasks' boundaries equal the fold over their lists.
#[test]
fn boundaries_are_those_of_the_fold(rt: HostRuntime) -> Result<(), Fail> {
    let mut plan = plan(rt.alloc())?;
    let count = accepted(&mut plan, rt.alloc())?;
    assert!(rt; count > Some(800));
    assert_eq!(rt; plan.groups().len(), 16);
    Ok(())
}
