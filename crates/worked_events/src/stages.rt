//! Stages of a line, one after another.
use crate::asked::{Row, first_unprepared, first_wrong};
use crate::driven::Driven;
use crate::lines::{opened, write_all};
use crate::updates::{Update, are_answered};
use hc_events::answer::Answer;
use hc_events::event::Event;
use std::alloc::{AllocError, Global};
use std::test::Fail;

/// A stage.
#[derive(Clone, Copy)]
pub enum Stage {
    /// All owed blocks are written and answered well. There are this many.
    Blocks(u32),
    /// Task 0 is sent this many times.
    Sends(u32),
    /// Each row's event has its answer.
    Rows(&'static [Row]),
    /// Each row's edit is prepared, and has the row's report. None is carried out.
    Prepared(&'static [Row]),
    /// The changes since the last taking are exactly these.
    Changes(&'static [Update]),
}

/// The number of a stage and of a row in it, from 0.
pub type At = (usize, usize);

/// Sends task 0. True if that was accepted.
pub fn is_sent(driven: &mut Driven, alloc: Global) -> Result<bool, AllocError> {
    let answer = driven.put(alloc, Event::SendTasks(&[0]))?;
    Ok(matches!(answer, Answer::Sent(_)))
}

/// Sends task 0 `times` times. True if each sending was accepted.
fn send_times(driven: &mut Driven, alloc: Global, times: u32) -> Result<bool, AllocError> {
    for _ in 0..times {
        if !is_sent(driven, alloc)? {
            return Ok(false);
        }
    }
    Ok(true)
}

/// The number of the first row of a stage that does not hold. None if all hold. A stage without rows has the number 0.
pub fn first_wrong_row(
    driven: &mut Driven,
    alloc: Global,
    stage: Stage,
) -> Result<Option<usize>, AllocError> {
    let holds = match stage {
        Stage::Blocks(count) => write_all(driven, alloc)? == count,
        Stage::Sends(times) => send_times(driven, alloc, times)?,
        Stage::Rows(rows) => return first_wrong(driven, alloc, rows),
        Stage::Prepared(rows) => return first_unprepared(driven, alloc, rows),
        Stage::Changes(updates) => are_answered(&driven.core.take_changes(alloc), updates),
    };
    Ok(if holds { None } else { Some(0) })
}

/// The first stage that does not hold, and the row in it. None if all hold.
pub fn first_wrong_at(
    driven: &mut Driven,
    alloc: Global,
    stages: &[Stage],
) -> Result<Option<At>, AllocError> {
    let mut number = 0_usize;
    for stage in stages {
        if let Some(row) = first_wrong_row(driven, alloc, *stage)? {
            return Ok(Some((number, row)));
        }
        number = number.saturating_add(1);
    }
    Ok(None)
}

/// A line's text, and its stages from the opening on.
pub type Case = (&'static str, &'static [Stage]);

/// The first stage of a line that does not hold, and the row in it. None if all hold.
fn first_wrong_of(alloc: Global, case: &Case) -> Result<Option<At>, Fail> {
    let mut driven = opened(alloc, case.0)?;
    Ok(first_wrong_at(&mut driven, alloc, case.1)?)
}

/// The number of the first line with a stage that does not hold, and the stage and the row. None if there is none.
pub fn first_wrong_case(alloc: Global, cases: &[Case]) -> Result<Option<(usize, At)>, Fail> {
    let mut number = 0_usize;
    for case in cases {
        if let Some(at) = first_wrong_of(alloc, case)? {
            return Ok(Some((number, at)));
        }
        number = number.saturating_add(1);
    }
    Ok(None)
}
