//! Seats that view again and again while changes are published in turn, and the moments of their views.

use hc_publish::seat::Seat;
use std::sync::atomic::{AtomicBool, Ordering};
use std::thread;

/// True if all these bytes are this one.
fn are_all(bytes: &[u8], byte: u8) -> bool {
    for own in bytes {
        if *own != byte {
            return false;
        }
    }
    true
}

/// Takes a view and leaves it. Its moment is twice its epoch, and one more if its datagram has an answer. None if the answer's
/// bytes are of another epoch.
fn looked(seat: Seat) -> (Seat, Option<u64>) {
    match seat.view() {
        Ok(view) => {
            let [byte, _, _, _] = view.epoch().to_le_bytes();
            let swapped = 2 * u64::from(view.epoch());
            let moment = match view.inputs(0) {
                Some(bytes) => are_all(bytes, byte).then_some(swapped + 1),
                None => Some(swapped),
            };
            (view.leave(), moment)
        }
        Err(seat) => (seat, None),
    }
}

/// Views, one after another, until all is published, and views once more. Returns the moment of the last view. None if a view
/// is refused or wrong, or is older than the one before.
pub fn looked_until(mut seat: Seat, is_done: &AtomicBool) -> Option<u64> {
    let mut last = 0;
    for _ in 0..u64::MAX {
        let was_done = is_done.load(Ordering::SeqCst);
        let (back, moment) = looked(seat);
        seat = back;
        let moment = moment?;
        if moment < last {
            return None;
        }
        if was_done {
            return Some(moment);
        }
        last = moment;
        thread::yield_now();
    }
    None
}
