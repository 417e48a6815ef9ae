//! Tasks that view and post in threads of their own, again and again, while something goes on.

use crate::posting::is_posted;
use hc_conductor::seat::TaskSeat;
use hc_conductor::view::TaskView;
use std::sync::atomic::{AtomicBool, Ordering};
use std::thread;
use std::thread::{Threads, join, map_vec};

/// The steps of an epoch.
pub const STEPS: u8 = 25;

/// The moment viewed last, and the number of posts made.
pub type Worked = (u64, u64);

/// The byte that slaves send in an epoch at this step of it: no other step of it has this byte, and none of the nine
/// epochs before it and after it.
pub fn byte_of(epoch: u32, step: u8) -> u8 {
    (epoch % 10) as u8 * STEPS + step % STEPS
}

/// The moment of an epoch's step, or of its opening before the first answer. Later moments have greater numbers.
pub fn moment_of(epoch: u32, step: Option<u8>) -> u64 {
    let opened = u64::from(epoch) * 26;
    match step {
        Some(step) => opened + 1 + u64::from(step % STEPS),
        None => opened,
    }
}

/// True if all these bytes are this one.
fn are_all(bytes: &[u8], byte: u8) -> bool {
    for own in bytes {
        if *own != byte {
            return false;
        }
    }
    true
}

/// The moment of a view. None if an input is not the byte of a step of the view's epoch, or two inputs are of different steps.
fn moment_seen(view: &TaskView) -> Option<u64> {
    let epoch = view.epoch();
    let Some(data) = view.inputs(0) else {
        return Some(moment_of(epoch, None));
    };
    let (outputs, _) = view.part();
    let inputs = data.get(usize::from(outputs)..)?;
    let byte = *inputs.first()?;
    let step = byte.checked_sub(byte_of(epoch, 0))?;
    if step < STEPS && are_all(inputs, byte) {
        Some(moment_of(epoch, Some(step)))
    } else {
        None
    }
}

/// Takes a view and leaves it. Returns the seat and the view's moment.
fn looked(seat: TaskSeat) -> (TaskSeat, Option<u64>) {
    match seat.view() {
        Ok(view) => {
            let moment = moment_seen(&view);
            (view.leave(), moment)
        }
        Err(seat) => (seat, None),
    }
}

/// Views and posts in turn until all is done, and views once more. None if a view is refused or false, or is earlier than the
/// one before.
fn worked_until(seat: TaskSeat, is_done: &AtomicBool) -> Option<Worked> {
    let mut seat = seat;
    let (mut last, mut posts) = (0, 0_u64);
    for _ in 0..u64::MAX {
        let was_done = is_done.load(Ordering::SeqCst);
        let (back, moment) = looked(seat);
        seat = back;
        let moment = moment?;
        if moment < last {
            return None;
        }
        if was_done {
            return Some((moment, posts));
        }
        last = moment;
        posts = posts.wrapping_add(u64::from(is_posted(&mut seat, 9)));
        thread::yield_now();
    }
    None
}

/// Eight tasks work, each in a thread of its own, until all is done. Returns the moment to which all came, and the number of
/// all their posts. None if there are more or fewer seats, or two tasks differ.
fn worked<R: Threads + Sync>(rt: &R, seats: Vec<TaskSeat>, is_done: &AtomicBool) -> Option<Worked> {
    if seats.len() != 8 {
        return None;
    }
    let done = map_vec(
        rt,
        seats,
        &|seat: TaskSeat| -> Option<Worked> { worked_until(seat, is_done) },
    )
    .ok()?;
    let (first, _) = (*done.first()?)?;
    let mut all = 0_u64;
    for one in &done {
        let (moment, posts) = (*one)?;
        if moment != first {
            return None;
        }
        all = all.wrapping_add(posts);
    }
    Some((first, all))
}

/// Eight tasks work beside `work`, which sets the flag when all is done. Returns the result of the tasks and that of `work`.
pub fn work_eight<R: Threads + Sync, A, F: FnOnce() -> A>(
    rt: &R,
    seats: Vec<TaskSeat>,
    is_done: &AtomicBool,
    work: F,
) -> (Option<Worked>, A)
    requires { F.pre work }
    ensures { F.post work result.1 }
{
    join(
        rt,
        || -> Option<Worked> { worked(rt, seats, is_done) },
        work,
    )
}
