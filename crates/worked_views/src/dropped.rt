//! Seats that are dropped before, between and after publishings.
ghost use Rattle.worked_views.specs.Lines.{LeadsTo};

use crate::lines::{DOCK, UNDOCK, opened, publish_edit};
use crate::scopes::looked;
use hc_plan::plan::Plan;
use hc_publish::publisher::Publisher;
use hc_publish::seat::Seat;
use std::alloc::Global;
use std::sync::Wait;

/// Three publishings beside fewer and fewer seats, and the epoch that a seat showed between the last two.
fn published_beside<R: Wait>(
    rt: &R,
    alloc: Global,
    plan: &mut Plan,
    publisher: &mut Publisher,
    seats: &mut Vec<Seat>,
) -> Option<u32>
    requires { LeadsTo publisher.old plan.old }
{
    drop(seats.pop());
    publish_edit(rt, alloc, plan, publisher, &DOCK)?;
    drop(seats.pop());
    publish_edit(rt, alloc, plan, publisher, &UNDOCK)?;
    let (seat, epoch) = looked(seats.pop()?);
    publish_edit(rt, alloc, plan, publisher, &DOCK)?;
    drop(seat);
    Some(epoch)
}

/// Three edits are published while seats are dropped, and a seat that is left sees the second one.
#[test]
fn a_dropped_seat_holds_nobody_up(rt: HostRuntime) {
    let alloc = rt.alloc();
    let Some((mut plan, mut publisher, mut seats)) = opened(&rt, alloc) else {
        panic!(rt; "the line isn't opened");
    };
    let epoch = published_beside(&rt, alloc, &mut plan, &mut publisher, &mut seats);
    publisher.finish(&rt);
    assert_eq!(rt; epoch, Some(2));
}
