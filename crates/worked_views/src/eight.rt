//! Seats that view in threads of their own.

use crate::watched::looked_until;
use hc_publish::seat::Seat;
use std::sync::atomic::AtomicBool;
use std::thread::{Threads, join, map_vec};

/// Eight seats view, each in a thread of its own, until all is done. Returns the moment to which all came. None if two differ,
/// or there are more or fewer seats.
fn watch<R: Threads + Sync>(rt: &R, seats: Vec<Seat>, is_done: &AtomicBool) -> Option<u64> {
    if seats.len() != 8 {
        return None;
    }
    let moments = map_vec(
        rt,
        seats,
        &|seat: Seat| -> Option<u64> { looked_until(seat, is_done) },
    )
    .ok()?;
    let first = *moments.first()?;
    for moment in &moments {
        if *moment != first {
            return None;
        }
    }
    first
}

/// Eight seats view beside `work`, which sets the flag when all is done. Returns the seats' moment and the result of `work`.
pub fn watch_eight<R: Threads + Sync, A, F: FnOnce() -> A>(
    rt: &R,
    seats: Vec<Seat>,
    is_done: &AtomicBool,
    work: F,
) -> (Option<u64>, A)
    requires { F.pre work }
    ensures { F.post work result.1 }
{
    join(rt, || -> Option<u64> { watch(rt, seats, is_done) }, work)
}
