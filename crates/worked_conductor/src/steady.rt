//! Cycles of eight tasks, all in one thread: posts, sendings, arrivals and a publishing. The lists and the memory of answers
//! are used again. After the first cycles no allocation is made, which is counted from outside (`ci/sweep.sh`).

use crate::fates::answer;
use crate::lines::{FRAME, are_written, opened_line};
use crate::posting::is_posted;
use crate::working::byte_of;
use hc_conductor::conductor::Conductor;
use hc_conductor::seat::TaskSeat;
use hc_events::answer::{Arrived, Outcome};
use hc_events::faults::CoreFault;
use hc_events::sending::Sending;
use hc_records::limits::TASKS;
use std::alloc::{AllocError, Global};
use std::sync::Wait;
use std::test::Fail;
use worked_views::projects::EIGHT;

/// As many frames as any sending has.
const MOST_FRAMES: usize = 128;

/// As many outcomes as any answer has.
const MOST_OUTCOMES: usize = 115;

/// The lists that a cycle uses again, with room for the frames of any sending and the outcomes of any answer.
#[derive(Drop)]
struct Lists {
    frames: Vec<Sending>,
    outcomes: Vec<Outcome>,
}

/// True if the core reads the byte that the slaves sent as this task's first input, after its outputs.
fn is_read(conductor: &Conductor, task: u8, step: u8) -> bool {
    let plan = conductor.core().plan();
    let (outputs, _) = plan.places().part(task);
    match conductor.core().data(task, 0) {
        Some(data) => data.get(usize::from(outputs)).copied() == Some(byte_of(plan.epoch(), step)),
        None => false,
    }
}

/// Sends a task and takes its answer. True if it was sent in one frame, and the answer is good.
fn is_exchanged(
    alloc: Global,
    conductor: &mut Conductor,
    lists: &mut Lists,
    task: u8,
    step: u8,
) -> Result<bool, CoreFault> {
    let mut frame = [0; FRAME];
    conductor.send_into(&[task], &mut frame, &mut lists.frames)?;
    if lists.frames.len() != 1 || answer(conductor, task, step, &mut frame).is_none() {
        return Ok(false);
    }
    let arrived = conductor.arrive_into(alloc, &frame, &mut lists.outcomes)?;
    let is_good = matches!(
        lists.outcomes.as_slice(),
        [Outcome::Inputs { datagram: 0, .. }]
    );
    Ok(arrived == Arrived::Answered && is_good && is_read(conductor, task, step))
}

/// Sends all tasks and takes their answers. True if each exchange is good.
fn are_exchanged(
    alloc: Global,
    conductor: &mut Conductor,
    lists: &mut Lists,
    step: u8,
) -> Result<bool, CoreFault> {
    for task in 0..TASKS {
        if !is_exchanged(alloc, conductor, lists, task, step)? {
            return Ok(false);
        }
    }
    Ok(true)
}

/// Each task posts. True if each post is made.
fn are_posted(seats: &mut Vec<TaskSeat>, byte: u8) -> bool {
    for seat in seats.iter_mut() {
        if !is_posted(seat, byte) {
            return false;
        }
    }
    true
}

/// Plays a cycle. True if its posts, takings and exchanges succeed.
fn is_played<R: Wait>(
    rt: &R,
    alloc: Global,
    conductor: &mut Conductor,
    seats: &mut Vec<TaskSeat>,
    lists: &mut Lists,
    step: u8,
) -> Result<bool, CoreFault> {
    let posted = are_posted(seats, step);
    let taken = conductor.take_posts();
    let exchanged = are_exchanged(alloc, conductor, lists, step)?;
    conductor.publish(rt, alloc)?;
    Ok(posted && taken.accepted == u32::from(TASKS) && exchanged)
}

/// Writes all blocks, and plays `cycles` cycles. True if each of them succeeds.
fn are_played<R: Wait>(
    rt: &R,
    alloc: Global,
    conductor: &mut Conductor,
    seats: &mut Vec<TaskSeat>,
    cycles: u8,
) -> Result<bool, CoreFault> {
    let mut lists = Lists {
        frames: Vec::with_capacity(alloc, MOST_FRAMES)?,
        outcomes: Vec::with_capacity(alloc, MOST_OUTCOMES)?,
    };
    let owed = conductor.core().owed();
    let mut right = are_written(alloc, conductor, owed);
    for step in 0..cycles {
        right = is_played(rt, alloc, conductor, seats, &mut lists, step)? && right;
    }
    Ok(right)
}

/// Returns whether `cycles` cycles go as they should, from the line's opening on.
fn is_steady<R: Wait>(rt: &R, alloc: Global, cycles: u8) -> Result<bool, CoreFault> {
    let Some((mut conductor, mut seats)) = opened_line(rt, alloc, EIGHT) else {
        return Err(CoreFault::Memory);
    };
    let steady = are_played(rt, alloc, &mut conductor, &mut seats, cycles);
    conductor.finish(rt);
    steady
}

/// Four cycles of eight tasks go as they should.
#[test]
fn few_cycles(rt: HostRuntime) -> Result<(), Fail> {
    assert!(rt; is_steady(&rt, rt.alloc(), 4)?);
    Ok(())
}

/// Forty cycles of eight tasks go as they should, and make as many allocations as four, as `ci/sweep.sh` counts.
#[test]
fn many_cycles(rt: HostRuntime) -> Result<(), Fail> {
    assert!(rt; is_steady(&rt, rt.alloc(), 40)?);
    Ok(())
}
