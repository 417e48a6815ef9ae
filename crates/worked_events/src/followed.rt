//! A copy of what tasks see that follows a core at work: after each event it shows what the core's reads answer.
ghost use Rattle.std.specs.Prelude.{IfOk};
ghost use Rattle.hc_publish.specs.ChangesSince.{IsOpening};

use crate::asked::{Row, holds};
use crate::driven::Driven;
use crate::lines::opened;
use crate::shared::SHARED;
use crate::stages::{At, Case, Stage, first_wrong_row};
use crate::values;
use hc_core::keeping::Core;
use hc_events::answer::Answer;
use hc_plan::plan::Plan;
use hc_project::read_project;
use hc_publish::shown::Shown;
use hc_records::items::Items;
use hc_records::limits::TASKS;
use std::alloc::{AllocError, Global};
use std::test::Fail;

/// True if a copy has exactly the data of a task's slots.
fn has_slots(copy: &Shown, task: u8, slots: &[Option<Items<u8>>]) -> bool {
    for (datagram, slot) in (0..16_u8).zip(slots) {
        let same = match (slot, copy.data(task, datagram)) {
            (Some(bytes), Some(data)) => bytes.as_slice() == data,
            (None, None) => true,
            _ => false,
        };
        if !same {
            return false;
        }
    }
    true
}

/// True if a copy shows the core's answer to a task's read.
fn shows_task(copy: &Shown, core: &Core, alloc: Global, task: u8) -> Result<bool, AllocError> {
    let Answer::Image { epoch, slots } = core.read(alloc, task)? else {
        return Ok(false);
    };
    Ok(
        copy.epoch() == epoch
            && copy.part(task) == core.plan().places().part(task)
            && has_slots(copy, task, slots.as_slice()),
    )
}

/// True if a copy shows the core's answer to each task's read.
fn shows_all(copy: &Shown, core: &Core, alloc: Global) -> Result<bool, AllocError> {
    for task in 0..TASKS {
        if !shows_task(copy, core, alloc, task)? {
            return Ok(false);
        }
    }
    Ok(true)
}

/// Takes the changes since the last taking into the copy. True if it shows the core's answers then.
fn follows(copy: &mut Shown, core: &mut Core, alloc: Global) -> Result<bool, AllocError> {
    for change in core.take_changes(alloc) {
        copy.take_in(&change)?;
    }
    shows_all(copy, core, alloc)
}

/// The number of the first row that has another answer, or after which the copy differs from the core. None if there is none.
fn first_lost(
    driven: &mut Driven,
    copy: &mut Shown,
    alloc: Global,
    rows: &[Row],
) -> Result<Option<usize>, AllocError> {
    let mut number = 0_usize;
    for row in rows {
        if !holds(driven, alloc, row)? || !follows(copy, &mut driven.core, alloc)? {
            return Ok(Some(number));
        }
        number = number.saturating_add(1);
    }
    Ok(None)
}

/// The first row of a stage that the copy loses. The rows are followed one by one.
fn first_lost_in(
    driven: &mut Driven,
    copy: &mut Shown,
    alloc: Global,
    stage: Stage,
) -> Result<Option<usize>, AllocError> {
    if let Stage::Rows(rows) = stage {
        return first_lost(driven, copy, alloc, rows);
    }
    let wrong = first_wrong_row(driven, alloc, stage)?;
    Ok(if follows(copy, &mut driven.core, alloc)? {
        wrong
    } else {
        Some(0)
    })
}

/// The first stage that is not followed, and the row in it. None if all are.
fn first_lost_at(
    driven: &mut Driven,
    copy: &mut Shown,
    alloc: Global,
    stages: &[Stage],
) -> Result<Option<At>, AllocError> {
    let mut number = 0_usize;
    for stage in stages {
        if let Some(row) = first_lost_in(driven, copy, alloc, *stage)? {
            return Ok(Some((number, row)));
        }
        number = number.saturating_add(1);
    }
    Ok(None)
}

/// A line's plan at its opening.
fn plan_of(alloc: Global, text: &str) -> Result<Plan, AllocError>
    ensures { IfOk result IsOpening }
{
    let Ok(project) = read_project(alloc, text.as_bytes()) else {
        return Err(AllocError);
    };
    match Plan::new(alloc, project) {
        Ok(plan) => Ok(plan),
        Err(_) => Err(AllocError),
    }
}

/// The first stage of a line that is not followed, from its opening on, and the row in it. None if all are.
fn first_lost_of(alloc: Global, case: &Case) -> Result<Option<At>, Fail> {
    let mut driven = opened(alloc, case.0)?;
    let mut copy = Shown::of(alloc, &plan_of(alloc, case.0)?)?;
    Ok(first_lost_at(&mut driven, &mut copy, alloc, case.1)?)
}

/// The number of the first line that is not followed, with the stage and the row. None if all are.
fn first_lost_case(alloc: Global, cases: &[Case]) -> Result<Option<(usize, At)>, Fail> {
    let mut number = 0_usize;
    for case in cases {
        if let Some(at) = first_lost_of(alloc, case)? {
            return Ok(Some((number, at)));
        }
        number = number.saturating_add(1);
    }
    Ok(None)
}

/// A copy that takes in the changes after each event shows the core's answers to reads.
#[test]
fn a_copy_shows_what_is_read(rt: HostRuntime) -> Result<(), Fail> {
    assert_eq!(rt; first_lost_case(rt.alloc(), values::LINES)?, None);
    assert_eq!(rt; first_lost_case(rt.alloc(), SHARED)?, None);
    Ok(())
}
