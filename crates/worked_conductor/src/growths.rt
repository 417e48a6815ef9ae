//! Each call of the conductor that allocates. If an allocation fails, nothing has changed, a view shows what was published
//! before, and the repeated call succeeds.
use crate::gates::WaitsForNext;
use crate::growths::Call::{Arrive, Move, Publish, Send, SendAtOnce, Write};
use crate::lines::{first_two, opening};
use crate::rows::{Moment, OPENED, sees};
use crate::steps::MOVE;
use hc_conductor::conductor::Conductor;
use hc_conductor::seat::TaskSeat;
use hc_events::answer::{Answer, Outcome};
use hc_events::faults::CoreFault;
use hc_publish::faults::OpenFault;
use std::alloc::{AllocError, Global};
use std::sync::Wait;
use std::test::Fail;
use std::thread::Threads;

/// Room for the frame of both tasks, or for a write's.
const ROOM: usize = 60;

/// A call of the conductor, with the axis' answer.
enum Call {
    /// The first owed block is written, and the slave answers.
    Write,
    /// The outputs move to task 1.
    Move,
    /// Tasks 0 and 1 are sent, and the axis answers.
    Send,
    /// Tasks 0 and 1 are sent by a worker each, and the axis answers.
    SendAtOnce,
    /// The bytes of the arena arrive.
    Arrive,
    /// All is published.
    Publish,
}

/// The calls up to the publishing of an answer, and those after it.
const CALLS: [&[Call]; 2] = [
    &[
        Write, Arrive, Write, Arrive, Write, Arrive, Write, Arrive, Publish, Move, Write, Arrive,
        Write, Arrive, Send, Arrive, Publish,
    ],
    &[SendAtOnce, Arrive],
];

/// The view of task 0 after the publishing of the answer: its outputs are in the other task.
const MOVED: Moment = Moment {
    epoch: 1,
    data: Some(b"\x34\x0a"),
    values: &[(9, Err(1)), (1, Err(2)), (2, Ok(2612))],
};

/// Writes the first owed block into the arena, and counts it as its slave does. True if there is such a write.
fn is_written(conductor: &mut Conductor, arena: &mut [u8; ROOM]) -> bool {
    let Ok(ROOM) = conductor.next_write(arena) else {
        return false;
    };
    let counter = 26 + usize::from(arena[22]);
    if counter >= ROOM {
        return false;
    }
    arena[counter] = 1;
    true
}

/// The axis answers both tasks in one frame: inputs of 0xa34 after 26 bytes, and counters of 1 and 2.
fn answers(frames: usize, arena: &mut [u8; ROOM]) -> bool {
    arena[26] = 0x34;
    arena[27] = 0x0a;
    arena[28] = 1;
    arena[41] = 2;
    frames == 1
}

/// True if an answer is the expected one. None if an allocation failed.
fn is_answered(answer: Answer) -> Option<bool> {
    match answer {
        Answer::Refused(CoreFault::Memory) => None,
        Answer::Edited { epoch, .. } => Some(epoch == 1),
        Answer::WriteDone => Some(true),
        Answer::Answered(outcomes) => Some(matches!(
            outcomes.as_slice(),
            [
                Outcome::Inputs { task: 0, .. },
                Outcome::Inputs { task: 1, .. }
            ]
        )),
        _ => Some(false),
    }
}

/// Makes a call. True if its result is the expected one, and none if an allocation failed.
fn ask<R: Threads + Wait + Sync>(
    rt: &R,
    alloc: Global,
    conductor: &mut Conductor,
    arena: &mut [u8; ROOM],
    call: &Call,
) -> Option<bool> {
    let sent = match call {
        Call::Write => return Some(is_written(conductor, arena)),
        Call::Move => return is_answered(conductor.edit(alloc, &MOVE)),
        Call::Arrive => return is_answered(conductor.arrive(alloc, arena)),
        Call::Publish => {
            return match conductor.publish(rt, alloc) {
                Ok(()) => Some(true),
                Err(_) => None,
            };
        }
        Call::Send => conductor.send(alloc, &[0, 1], arena),
        Call::SendAtOnce => {
            conductor.send_at_once(rt, alloc, &[0, 1], arena, &WaitsForNext::shut())
        }
    };
    match sent {
        Ok(frames) => Some(answers(frames.len(), arena)),
        Err(CoreFault::Memory) => None,
        Err(_) => Some(false),
    }
}

/// The observable state of a conductor: its next serial, its owed blocks and its epoch.
fn seen(conductor: &Conductor) -> (u64, u32, u32) {
    let core = conductor.core();
    (core.next_serial(), core.owed(), core.plan().epoch())
}

/// Makes a call, and repeats it once if an allocation failed. False if a result is wrong, the failed call changed something, or
/// the seat does not see what was published before.
fn asked<R: Threads + Wait + Sync>(
    rt: &R,
    alloc: Global,
    conductor: &mut Conductor,
    arena: &mut [u8; ROOM],
    seat: TaskSeat,
    published: &Moment,
    call: &Call,
) -> (TaskSeat, Result<bool, AllocError>) {
    let before = (seen(conductor), *arena);
    if let Some(right) = ask(rt, alloc, conductor, arena, call) {
        return (seat, Ok(right));
    }
    let (seat, is_seen) = sees(seat, published);
    if !is_seen || (seen(conductor), *arena) != before {
        return (seat, Ok(false));
    }
    let again = ask(rt, alloc, conductor, arena, call).ok_or(AllocError);
    (seat, again)
}

/// True if each of these calls has its result. `published` is the moment that a seat sees if a call fails at first.
fn all_asked<R: Threads + Wait + Sync>(
    rt: &R,
    alloc: Global,
    conductor: &mut Conductor,
    arena: &mut [u8; ROOM],
    seat: TaskSeat,
    published: &Moment,
    calls: &[Call],
) -> (TaskSeat, Result<bool, AllocError>) {
    let mut seat = seat;
    for call in calls {
        let (back, right) = asked(rt, alloc, conductor, arena, seat, published, call);
        seat = back;
        if !matches!(right, Ok(true)) {
            return (seat, right);
        }
    }
    (seat, Ok(true))
}

/// True if each call has its result, and the answer is seen once it is published.
fn are_asked<R: Threads + Wait + Sync>(
    rt: &R,
    alloc: Global,
    conductor: &mut Conductor,
    seat: TaskSeat,
) -> Result<bool, AllocError> {
    let mut arena = [0; ROOM];
    let (seat, first) = all_asked(rt, alloc, conductor, &mut arena, seat, &OPENED, CALLS[0]);
    if !first? {
        return Ok(false);
    }
    let (seat, is_moved) = sees(seat, &MOVED);
    let (seat, second) = all_asked(rt, alloc, conductor, &mut arena, seat, &MOVED, CALLS[1]);
    let is_still = sees(seat, &MOVED).1;
    Ok(second? && is_moved && is_still)
}

/// The axis at its opening, opened once more if an allocation failed. None if it is refused for any other cause.
fn opened_again<R: Wait>(
    rt: &R,
    alloc: Global,
) -> Result<Option<(Conductor, Vec<TaskSeat>)>, AllocError> {
    match opening(rt, alloc) {
        Ok(opened) => Ok(Some(opened)),
        Err(OpenFault::Memory) => match opening(rt, alloc) {
            Ok(opened) => Ok(Some(opened)),
            Err(_) => Err(AllocError),
        },
        Err(_) => Ok(None),
    }
}

/// True if all calls have their results, from the opening on.
fn is_gone<R: Threads + Wait + Sync>(rt: &R, alloc: Global) -> Result<bool, AllocError> {
    let Some((mut conductor, seats)) = opened_again(rt, alloc)? else {
        return Ok(false);
    };
    let gone = match first_two(seats) {
        Some((seat, _other)) => are_asked(rt, alloc, &mut conductor, seat),
        None => Ok(false),
    };
    conductor.finish(rt);
    gone
}

/// A failed allocation changes nothing in any call of the conductor, and the repeated call succeeds.
#[test]
fn refused_growths_change_nothing(rt: HostRuntime) -> Result<(), Fail> {
    assert!(rt; is_gone(&rt, rt.alloc())?);
    Ok(())
}
