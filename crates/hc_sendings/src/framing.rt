//! The frames of tasks: `put_frames` puts their datagrams into frames, one after another.
ghost use Rattle.std.specs.Prelude.{◌≡◌, ◌+◌, ◌*◌, ◌^◌, ◌<◌, ◌≤◌, ◌++◌, [], IfSome, OnErr, OnOk, Some, ℕ, length, vec_capacity, vec_len};
ghost use Rattle.hc_records.specs.Line.{line};
ghost use Rattle.hc_records.specs.declared.limits.TheConstants.{MOST_DATAGRAMS, TASKS};
ghost use Rattle.hc_frames.specs.declared.limits.TheConstants.{MAX_DATA, SETUP_SERIAL};
ghost use Rattle.hc_events.specs.Sendings.{Named, sendings_of};
ghost use Rattle.hc_sendings.specs.Framing.{FramesTask, IsOpenUpTo, closed, done_by, last_with, open_in};

use hc_events::sending::{Named, Sending};
use hc_plan::plan::Plan;
use std::alloc::AllocError;

/// Puts a datagram with 1 to 1,486 bytes of data after the others. It joins the last frame if that has room. Otherwise it
/// begins a new frame, with the next serial, or with `serial` if there is no frame. Fails with `AllocError` if an allocation
/// fails.
#[inline(always)]
fn place(
    frames: &mut Vec<Sending>,
    serial: u64,
    datagram: Named,
    length: u16,
) -> Result<(), AllocError>
    requires some { 1 ≤ length }
    requires most { length ≤ MAX_DATA }
    requires serial { IfSome (open_in frames.old.items) (λ frame. frame.serial + 1 < 2 ^ 64) }
    ensures done { OnOk result (closed frames.new.items ≡ closed frames.old.items ++ done_by (open_in frames.old.items) length) }
    ensures open { OnOk result (open_in frames.new.items ≡ Some (last_with serial (open_in frames.old.items) datagram length)) }
    ensures more { vec_len frames.new ≤ vec_len frames.old + 1 }
    ensures room { vec_capacity frames.old ≤ vec_capacity frames.new }
    ensures full { OnErr result (vec_capacity frames.old ≤ vec_len frames.old) }
{
    let count = frames.len();
    if count == 0 {
        frames.push(Sending::of(serial, datagram, length))?;
        return Ok(());
    }
    if frames[count - 1].has_room(length) {
        frames[count - 1].join(datagram, length);
        return Ok(());
    }
    let next = frames[count - 1].serial() + 1;
    frames.push(Sending::of(next, datagram, length))?;
    Ok(())
}

/// Puts the datagrams of a task after the others. Fails with `AllocError` if an allocation fails.
#[inline(always)]
fn place_task(
    plan: &Plan,
    frames: &mut Vec<Sending>,
    serial: u64,
    task: u8,
) -> Result<(), AllocError>
    requires serial { serial + MOST_DATAGRAMS < 2 ^ 64 }
    requires last { IfSome (open_in frames.old.items) (λ frame. frame.serial + MOST_DATAGRAMS < 2 ^ 64) }
    ensures serials { OnOk result ((bound : ℕ) → serial ≤ bound → IsOpenUpTo bound frames.old.items → IsOpenUpTo (bound + MOST_DATAGRAMS) frames.new.items) }
    ensures more { OnOk result (vec_len frames.new ≤ vec_len frames.old + MOST_DATAGRAMS) }
    ensures room { vec_capacity frames.old ≤ vec_capacity frames.new }
    ensures full { OnErr result (vec_capacity frames.old < vec_len frames.old + MOST_DATAGRAMS) }
    ensures framed { OnOk result (FramesTask (line plan.now) serial task frames.old.items frames.new.items) }
{
    let datagrams = plan.places().datagrams(task);
    for number in 0..datagrams.len() {
        let length = datagrams[number].length;
        place(frames, serial, (task, number as u8), length)?;
    }
    Ok(())
}

/// Returns the number of datagrams that tasks have together, at most 128. No sending of them has more frames.
fn most_frames(plan: &Plan, tasks: &[u8]) -> usize
    requires { length tasks.now ≤ TASKS }
    ensures { result ≤ MOST_DATAGRAMS * TASKS }
{
    let mut count = 0;
    for task in tasks {
        count += plan.places().datagrams(*task).len();
    }
    count
}

/// Puts the frames of tasks, with serials from `serial` on, into an empty list. The datagrams are in the tasks' order; each
/// joins the frame before it if that has room, otherwise it begins a frame. Fails with `AllocError` if an allocation fails,
/// which does not happen with a capacity of 128 frames. The capacity never falls.
#[inline(always)]
pub(crate) fn put_frames(
    plan: &Plan,
    serial: u64,
    tasks: &[u8],
    frames: &mut Vec<Sending>,
) -> Result<(), AllocError>
    requires serial { serial ≤ SETUP_SERIAL }
    requires few { length tasks.now ≤ TASKS }
    requires empty { frames.old.items ≡ [] }
    ensures frames { OnOk result (frames.new.items ≡ sendings_of (line plan.now) serial tasks.now) }
    ensures full { OnErr result (vec_capacity frames.old < MOST_DATAGRAMS * TASKS) }
    ensures room { vec_capacity frames.old ≤ vec_capacity frames.new }
{
    frames.reserve(most_frames(plan, tasks))?;
    for task in tasks {
        place_task(plan, frames, serial, *task)?;
    }
    Ok(())
}
