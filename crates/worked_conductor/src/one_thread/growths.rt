//! Each call of the master that allocates. If an allocation fails, nothing has changed, and the repeated call succeeds.
use crate::one_thread::growths::Call::{Arrive, Publish, Send, Write};
use crate::one_thread::lines::{FRAME, are_inputs, is_sent, is_written, opened, opening};
use hc_conductor::one_thread::master::Master;
use hc_events::answer::Answer;
use hc_events::faults::CoreFault;
use hc_publish::faults::OpenFault;
use std::alloc::{AllocError, Global};
use std::sync::Wait;
use std::test::Fail;

/// A call of the master, with the axis' answer.
enum Call {
    /// The first owed block is written.
    Write,
    /// The bytes of the frame arrive.
    Arrive,
    /// Task 0 is sent, and the axis answers.
    Send,
    /// All is published.
    Publish,
}

const CALLS: [Call; 11] = [
    Write, Arrive, Write, Arrive, Write, Arrive, Write, Arrive, Send, Arrive, Publish,
];

/// Makes a call. True if its result is the expected one, and none if an allocation failed.
fn ask<R: Wait>(
    rt: &R,
    alloc: Global,
    master: &mut Master,
    frame: &mut [u8; FRAME],
    call: &Call,
) -> Option<bool> {
    match call {
        Call::Write => Some(is_written(master, frame)),
        Call::Arrive => match master.arrive(alloc, frame) {
            Answer::Refused(CoreFault::Memory) => None,
            Answer::WriteDone => Some(true),
            answer => Some(are_inputs(&answer)),
        },
        Call::Send => is_sent(alloc, master, 0, frame).then_some(true),
        Call::Publish => match master.publish(rt, alloc) {
            Ok(()) => Some(true),
            Err(_) => None,
        },
    }
}

/// The observable state of a master: its next serial, and its owed blocks.
fn seen(master: &Master) -> (u64, u32) {
    let core = master.core();
    (core.next_serial(), core.owed())
}

/// Makes a call, and repeats it once if an allocation failed. False if a result is wrong, or the failed call changed something.
fn asked<R: Wait>(
    rt: &R,
    alloc: Global,
    master: &mut Master,
    frame: &mut [u8; FRAME],
    call: &Call,
) -> Result<bool, AllocError> {
    let before = seen(master);
    if let Some(right) = ask(rt, alloc, master, frame, call) {
        return Ok(right);
    }
    if seen(master) != before {
        return Ok(false);
    }
    ask(rt, alloc, master, frame, call).ok_or(AllocError)
}

/// True if each call has its result, and the input is viewed.
fn all_asked<R: Wait>(rt: &R, alloc: Global, master: &mut Master) -> Result<bool, AllocError> {
    let mut frame = [0; FRAME];
    for call in &CALLS {
        if !asked(rt, alloc, master, &mut frame, call)? {
            return Ok(false);
        }
    }
    Ok(matches!(master.view(0, 2), Ok(viewed) if viewed.value == Ok(2612)))
}

/// True if all calls have their results, from the opening on. The line is opened once more if an allocation failed, and for no
/// other cause.
fn is_gone<R: Wait>(rt: &R, alloc: Global) -> Result<bool, AllocError> {
    let mut master = match opening(rt, alloc) {
        Ok(master) => master,
        Err(OpenFault::Memory) => opened(rt, alloc).ok_or(AllocError)?,
        Err(_) => return Ok(false),
    };
    let gone = all_asked(rt, alloc, &mut master);
    master.finish(rt);
    gone
}

/// A failed allocation changes nothing in any call of the master, and the repeated call succeeds.
#[test]
fn refused_growths_change_nothing(rt: HostRuntime) -> Result<(), Fail> {
    assert!(rt; is_gone(&rt, rt.alloc())?);
    Ok(())
}
