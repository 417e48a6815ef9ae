//! Steps of a conductor and of the seat of task 0, each with its result.
use crate::lines::{FRAME, are_written};
use crate::posting::lends;
use crate::rows::{Moment, has, sees};
use hc_conductor::conductor::Conductor;
use hc_conductor::seat::TaskSeat;
use hc_conductor::taking::Taken;
use hc_events::answer::{Answer, Outcome};
use hc_records::edit::Edit;
use hc_records::items::Items;
use hc_rings::PostFault;
use std::alloc::Global;
use std::sync::Wait;

/// The result of an arrival for the axis' datagram.
#[derive(Clone, Copy, PartialEq, Eq)]
pub enum Came {
    /// The inputs of the axis' datagram.
    Inputs,
    /// The datagram came back with another working counter than the expected one.
    WrongCount(u16, u16),
    /// The frame answers nothing.
    Stale,
}

/// A step, with its result.
pub enum Step {
    /// This many blocks are written and answered well.
    Write(u32),
    /// Outputs are held, one byte that is 0, and then filled with this one.
    Lend(u8),
    /// The held outputs are posted, or the post fails.
    Post(Result<(), PostFault>),
    /// This many posts are taken and accepted, and this many refused.
    Take(u32, u32),
    /// The inputs are mapped anew as they are: the epoch that begins with it.
    Remap(u32),
    /// The outputs move to task 1: the epoch that begins with it, the spans and the blocks.
    Move(u32, u32, u32),
    /// A task is sent. The frame has these bytes, and zeros after them.
    Send(u8, &'static [u8]),
    /// A frame arrives.
    Come(&'static [u8], Came),
    /// Task 0 reads this epoch and these data of its datagram, or none.
    Read(u32, Option<&'static [u8]>),
    /// All is published.
    Publish,
    /// The seat's view shows this.
    See(Moment),
}

/// True if an edit is accepted with this epoch, and with these numbers of spans recut and blocks moved.
pub fn is_edited(
    alloc: Global,
    conductor: &mut Conductor,
    edit: &Edit,
    numbers: (u32, u32, u32),
) -> bool {
    match conductor.edit(alloc, edit) {
        Answer::Edited {
            epoch,
            recut,
            moved,
        } => (epoch, recut, moved) == numbers,
        _ => false,
    }
}

/// Maps the inputs anew as they are. True if the edit is accepted and moves nothing.
pub fn is_mapped(alloc: Global, conductor: &mut Conductor, epoch: u32) -> bool {
    let Ok(indexes) = Vec::from_slice(alloc, &[0x1a00]) else {
        return false;
    };
    let edit = Edit::Remap {
        station: 1001,
        area: 1,
        pdos: Items::of(indexes),
    };
    is_edited(alloc, conductor, &edit, (epoch, 0, 0))
}

/// The outputs move to task 1.
pub const MOVE: Edit = Edit::Move {
    station: 1001,
    area: 0,
    task: 1,
};

/// Sends a task. True if it is sent in one frame, which has these bytes and zeros after them.
fn is_sent(alloc: Global, conductor: &mut Conductor, task: u8, text: &[u8]) -> bool {
    let mut frame = [0; FRAME];
    let Ok(frames) = conductor.send(alloc, &[task], &mut frame) else {
        return false;
    };
    let Some(rest) = frame.get(text.len()..) else {
        return false;
    };
    frames.len() == 1 && frame.starts_with(text) && [0; FRAME].starts_with(rest)
}

/// The result of an arrival. None if it is none of the three.
fn judged(alloc: Global, conductor: &mut Conductor, bytes: &[u8]) -> Option<Came> {
    match conductor.arrive(alloc, bytes) {
        Answer::Stale => Some(Came::Stale),
        Answer::Answered(outcomes) => match outcomes.as_slice() {
            [
                Outcome::Inputs {
                    task: 0,
                    datagram: 0,
                },
            ] => Some(Came::Inputs),
            [Outcome::WrongCount { expected, got }] => Some(Came::WrongCount(*expected, *got)),
            _ => None,
        },
        _ => None,
    }
}

/// True if task 0 reads this epoch and these data of its only datagram, or none.
fn is_read(alloc: Global, conductor: &Conductor, epoch: u32, data: Option<&[u8]>) -> bool {
    match conductor.core().read(alloc, 0) {
        Ok(Answer::Image { epoch: now, slots }) => match slots.as_slice() {
            [Some(bytes)] => now == epoch && has(Some(bytes.as_slice()), data),
            [None] => now == epoch && has(None, data),
            _ => false,
        },
        _ => false,
    }
}

/// True if a step of the conductor alone has its result.
fn is_driven(alloc: Global, conductor: &mut Conductor, step: &Step) -> bool {
    match step {
        Step::Write(blocks) => are_written(alloc, conductor, *blocks),
        Step::Take(accepted, refused) => {
            conductor.take_posts()
                == Taken {
                    accepted: *accepted,
                    refused: *refused,
                }
        }
        Step::Remap(epoch) => is_mapped(alloc, conductor, *epoch),
        Step::Move(epoch, recut, moved) => {
            is_edited(alloc, conductor, &MOVE, (*epoch, *recut, *moved))
        }
        Step::Send(task, text) => is_sent(alloc, conductor, *task, text),
        Step::Come(bytes, wanted) => judged(alloc, conductor, bytes) == Some(*wanted),
        Step::Read(epoch, data) => is_read(alloc, conductor, *epoch, *data),
        _ => false,
    }
}

/// The number of the first step with another result. The number of steps if there is none.
pub fn first_wrong<R: Wait>(
    rt: &R,
    alloc: Global,
    conductor: &mut Conductor,
    seat: TaskSeat,
    steps: &[Step],
) -> usize {
    let mut seat = seat;
    let mut number: usize = 0;
    for step in steps {
        let comes = match step {
            Step::Lend(byte) => lends(&mut seat, *byte).is_ok(),
            Step::Post(wanted) => seat.post() == *wanted,
            Step::Publish => conductor.publish(rt, alloc).is_ok(),
            Step::See(moment) => {
                let (back, is_seen) = sees(seat, moment);
                seat = back;
                is_seen
            }
            _ => is_driven(alloc, conductor, step),
        };
        if !comes {
            return number;
        }
        number = number.saturating_add(1);
    }
    number
}
