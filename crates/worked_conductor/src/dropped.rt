//! Seats that are dropped before, between and after posts, and one that holds outputs as it is dropped.
use crate::lines::opened;
use crate::posting::{accepted, is_posted};
use hc_conductor::conductor::Conductor;
use hc_conductor::seat::TaskSeat;
use hc_conductor::taking::Taken;
use std::alloc::Global;
use std::sync::Wait;

/// The posts taken, and the success of the publishing after them, three times.
type Left = (Taken, bool, Taken, bool, Taken, bool);

/// Drops the seats of tasks 7, 6 and 5. Task 7's goes before it posts, task 6's between its posts and a taking, task 5's after
/// its posts, with outputs held that it never posts.
fn left_by<R: Wait>(
    rt: &R,
    alloc: Global,
    conductor: &mut Conductor,
    seats: &mut Vec<TaskSeat>,
) -> Option<Left> {
    drop(seats.pop());
    let mut between = seats.pop()?;
    let mut last = seats.pop()?;
    if !is_posted(&mut between, 0) || !is_posted(&mut between, 0) || !is_posted(&mut last, 0) {
        return None;
    }
    let first = (conductor.take_posts(), conductor.publish(rt, alloc).is_ok());
    if !is_posted(&mut between, 0) || !is_posted(&mut last, 0) {
        return None;
    }
    drop(between);
    let second = (conductor.take_posts(), conductor.publish(rt, alloc).is_ok());
    last.hold().ok()?;
    drop(last);
    let third = (conductor.take_posts(), conductor.publish(rt, alloc).is_ok());
    Some((first.0, first.1, second.0, second.1, third.0, third.1))
}

/// The results of takings and publishings with dropped seats, from the axis' opening on.
fn left_on_axis<R: Wait>(rt: &R, alloc: Global) -> Option<Left> {
    let (mut conductor, mut seats) = opened(rt, alloc)?;
    let left = left_by(rt, alloc, &mut conductor, &mut seats);
    conductor.finish(rt);
    left
}

/// The posts of a seat are taken, also after it is dropped. Outputs that it only held are not, and publishing goes on.
#[test]
fn posts_outlive_their_seat(rt: HostRuntime) {
    assert_eq!(rt;
        left_on_axis(&rt, rt.alloc()),
        Some((accepted(3), true, accepted(2), true, accepted(0), true))
    );
}
