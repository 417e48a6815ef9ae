//! Steps of the axis' master, each with its result.
use crate::one_thread::lines::{FRAME, are_inputs, is_ready_sent, is_sent, is_written, opened};
use hc_conductor::one_thread::master::Master;
use hc_conductor::one_thread::refusals::PostRefusal;
use hc_conductor::one_thread::settings::Setting;
use hc_conductor::taking::Taken;
use hc_events::answer::Answer;
use hc_events::faults::CoreFault;
use hc_records::edit::Edit;
use hc_records::items::Items;
use std::alloc::Global;
use std::sync::Wait;

/// A step, with its result.
pub enum Step {
    /// Each owed block is written and answered well. There are this many.
    Write(u32),
    /// A task posts values.
    Post(u8, &'static [Setting], Result<(), PostRefusal>),
    /// All waiting posts are taken: this many are accepted, and this many refused.
    Take(u32, u32),
    /// The inputs are mapped anew as they are: the epoch that begins with it.
    Remap(u32),
    /// Task 0 is sent with this byte, and answered well.
    Exchange(u8),
    /// Task 0 is sent as a ready task with this byte, and answered well.
    ExchangeReady(u8),
    /// Task 0 is not sent as a ready task, since this many owed blocks concern it.
    Wait(u32),
    /// The axis is forgotten, so its four blocks are owed.
    Forget,
    /// All is published.
    Publish,
    /// A task views a variable: the epoch, and its value or the fault's number.
    View(u8, u32, u32, Result<u64, u8>),
}

/// Writes `blocks` owed blocks. True if each write is done and no block is owed then.
fn are_written(alloc: Global, master: &mut Master, blocks: u32) -> bool {
    let mut frame = [0; FRAME];
    for _ in 0..blocks {
        if !is_written(master, &mut frame) {
            return false;
        }
        if !matches!(master.arrive(alloc, &frame), Answer::WriteDone) {
            return false;
        }
    }
    master.core().owed() == 0
}

/// Maps the inputs anew as they are. True if the edit is accepted and moves nothing.
fn is_mapped(alloc: Global, master: &mut Master, begun: u32) -> bool {
    let Ok(indexes) = Vec::from_slice(alloc, &[0x1a00]) else {
        return false;
    };
    let edit = Edit::Remap {
        station: 1001,
        area: 1,
        pdos: Items::of(indexes),
    };
    match master.edit(alloc, &edit) {
        Answer::Edited {
            epoch,
            recut,
            moved,
        } => (epoch, recut, moved) == (begun, 0, 0),
        _ => false,
    }
}

/// Sends task 0. True if its outputs are this byte, and its answer brings inputs.
fn is_exchanged(alloc: Global, master: &mut Master, outputs: u8) -> bool {
    let mut frame = [0; FRAME];
    is_sent(alloc, master, outputs, &mut frame) && are_inputs(&master.arrive(alloc, &frame))
}

/// Sends task 0 as a ready task. True if its outputs are this byte, and its answer brings inputs.
fn is_ready_exchanged(alloc: Global, master: &mut Master, outputs: u8) -> bool {
    let mut frame = [0; FRAME];
    is_ready_sent(alloc, master, outputs, &mut frame) && are_inputs(&master.arrive(alloc, &frame))
}

/// True if task 0 waits for this many owed blocks, and for no register outside the line.
fn waits(alloc: Global, master: &mut Master, blocks: u32) -> bool {
    let mut frame = [0; FRAME];
    let wanted = CoreFault::Waits {
        task: 0,
        blocks,
        outside: 0,
    };
    match master.send_ready(alloc, &[0], &mut frame) {
        Ok(_) => false,
        Err(fault) => fault == wanted,
    }
}

/// True if a task, 0 to 7, views a variable in this epoch with this value or fault.
fn is_viewed(
    master: &mut Master,
    task: u8,
    variable: u32,
    epoch: u32,
    value: Result<u64, u8>,
) -> bool {
    let Ok(viewed) = master.view(task % 8, variable) else {
        return false;
    };
    let is_valued = match viewed.value {
        Ok(own) => value == Ok(own),
        Err(fault) => value == Err(fault.number()),
    };
    viewed.epoch == epoch && is_valued
}

/// True if a step has its result.
fn comes<R: Wait>(rt: &R, alloc: Global, master: &mut Master, step: &Step) -> bool {
    match step {
        Step::Write(blocks) => are_written(alloc, master, *blocks),
        Step::Post(task, settings, posted) => master.post(alloc, *task % 8, settings) == *posted,
        Step::Take(accepted, refused) => {
            master.take()
                == Taken {
                    accepted: *accepted,
                    refused: *refused,
                }
        }
        Step::Remap(epoch) => is_mapped(alloc, master, *epoch),
        Step::Exchange(outputs) => is_exchanged(alloc, master, *outputs),
        Step::ExchangeReady(outputs) => is_ready_exchanged(alloc, master, *outputs),
        Step::Wait(blocks) => waits(alloc, master, *blocks),
        Step::Forget => master.forget(1001).is_ok() && master.core().owed() == 4,
        Step::Publish => master.publish(rt, alloc).is_ok(),
        Step::View(task, variable, epoch, value) => {
            is_viewed(master, *task, *variable, *epoch, *value)
        }
    }
}

/// The number of the first step with another result, from the axis' opening on. The number of steps if there is none.
pub fn wrong_step<R: Wait>(rt: &R, alloc: Global, steps: &[Step]) -> Option<usize> {
    let mut master = opened(rt, alloc)?;
    let mut number: usize = 0;
    for step in steps {
        if !comes(rt, alloc, &mut master, step) {
            break;
        }
        number = number.saturating_add(1);
    }
    master.finish(rt);
    Some(number)
}
