//! Two tasks are sent by a worker each.
use crate::gates::WaitsForNext;
use crate::lines::{are_written, opened};
use crate::steps::{MOVE, is_edited};
use hc_conductor::conductor::Conductor;
use hc_events::faults::CoreFault;
use std::alloc::Global;
use std::sync::Wait;
use std::thread::Threads;

/// The number of frames sent, or the fault; the arena of 64 bytes after the call; and the next serial.
type Sent = (Result<usize, CoreFault>, [u8; 64], u64);

/// Writes the axis' blocks, moves its outputs to task 1, and writes the two moved blocks. True if all succeed.
fn is_parted(alloc: Global, conductor: &mut Conductor) -> bool {
    are_written(alloc, conductor, 4)
        && is_edited(alloc, conductor, &MOVE, (1, 2, 2))
        && are_written(alloc, conductor, 2)
}

/// Sends both tasks by `send`.
fn sent(alloc: Global, conductor: &mut Conductor) -> Sent {
    let mut arena = [9; 64];
    let count = match conductor.send(alloc, &[0, 1], &mut arena) {
        Ok(frames) => Ok(frames.len()),
        Err(fault) => Err(fault),
    };
    (count, arena, conductor.core().next_serial())
}

/// Sends both tasks by a worker each, into a buffer of `room` bytes.
fn sent_at_once<R: Threads + Sync>(
    rt: &R,
    alloc: Global,
    conductor: &mut Conductor,
    room: usize,
    gate: &WaitsForNext,
) -> Sent {
    let mut arena = [9; 64];
    let frames = match arena.get_mut(..room) {
        Some(front) => conductor.send_at_once(rt, alloc, &[0, 1], front, gate),
        None => Err(CoreFault::Room(64)),
    };
    let count = match frames {
        Ok(frames) => Ok(frames.len()),
        Err(fault) => Err(fault),
    };
    (count, arena, conductor.core().next_serial())
}

/// The result of `send` for both tasks, from the axis' opening on.
fn by_send<R: Wait>(rt: &R, alloc: Global) -> Option<Sent> {
    let (mut conductor, _) = opened(rt, alloc)?;
    let done = if is_parted(alloc, &mut conductor) {
        Some(sent(alloc, &mut conductor))
    } else {
        None
    };
    conductor.finish(rt);
    done
}

/// The results of two sendings by workers: into 59 bytes, one too few, and then into 64.
fn by_workers<R: Threads + Wait + Sync>(
    rt: &R,
    alloc: Global,
    gate: &WaitsForNext,
) -> Option<(Sent, Sent)> {
    let (mut conductor, _) = opened(rt, alloc)?;
    let done = if is_parted(alloc, &mut conductor) {
        let short = sent_at_once(rt, alloc, &mut conductor, 59, gate);
        Some((short, sent_at_once(rt, alloc, &mut conductor, 64, gate)))
    } else {
        None
    };
    conductor.finish(rt);
    done
}

/// A sending that fails for want of room writes no byte and uses no serial. The frame that workers write is the one of `send`,
/// and the first worker saw the second.
#[test]
fn workers_write_what_is_sent(rt: HostRuntime) {
    let gate = WaitsForNext::shut();
    let worked = by_workers(&rt, rt.alloc(), &gate);
    let Some(sent) = by_send(&rt, rt.alloc()) else {
        panic!(rt; "nothing is sent");
    };
    assert!(rt; gate.has_seen() && matches!(sent, (Ok(1), _, 7)));
    let short = (Err(CoreFault::Room(60)), [9; 64], 6);
    assert_eq!(rt; worked, Some((short, sent)));
}
