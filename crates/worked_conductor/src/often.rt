//! Two thousand cycles beside eight tasks in threads of their own.

use crate::fates::{Master, play_all, play_last};
use crate::lines::{are_written, opened_line};
use crate::working::work_eight;
use hc_conductor::conductor::Conductor;
use hc_conductor::seat::TaskSeat;
use std::alloc::Global;
use std::sync::Wait;
use std::sync::atomic::{AtomicBool, Ordering};
use std::thread::Threads;
use worked_views::projects::EIGHT;

/// Writes all blocks, plays `cycles` cycles and one more, and returns the moment of the last one.
fn played<R: Wait>(
    rt: &R,
    alloc: Global,
    conductor: &mut Conductor,
    master: &mut Master,
    cycles: u32,
) -> Option<u64> {
    let owed = conductor.core().owed();
    if !are_written(alloc, conductor, owed) {
        return None;
    }
    play_all(rt, alloc, conductor, master, 0, cycles)?;
    play_last(rt, alloc, conductor, master)
}

/// True if the tasks beside it saw the sent cycles, the last of them in the end, and all their posts were taken.
fn are_shown<R: Threads + Wait + Sync>(
    rt: &R,
    alloc: Global,
    conductor: &mut Conductor,
    seats: Vec<TaskSeat>,
    cycles: u32,
) -> bool {
    let mut master = Master::of(0x5eed);
    let is_done = AtomicBool::new(false);
    let (worked, last) = work_eight(rt, seats, &is_done, || -> Option<u64> {
        let last = played(rt, alloc, conductor, &mut master, cycles);
        is_done.store(true, Ordering::SeqCst);
        last
    });
    master.take_posts(conductor);
    match (worked, last) {
        (Some((moment, posts)), Some(last)) => moment == last && posts == master.taken(),
        _ => false,
    }
}

/// Eight tasks in threads of their own see what was sent over 2,000 cycles, never an older cycle, and all their posts are
/// taken.
#[test]
fn eight_tasks_beside_two_thousand_cycles(rt: HostRuntime) {
    let alloc = rt.alloc();
    let Some((mut conductor, seats)) = opened_line(&rt, alloc, EIGHT) else {
        panic!(rt; "the line isn't opened");
    };
    let shown = are_shown(&rt, alloc, &mut conductor, seats, 2000);
    conductor.finish(&rt);
    assert!(rt; shown);
}
