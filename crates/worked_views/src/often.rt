//! Two thousand publishings beside eight seats that view in threads of their own.
ghost use Rattle.worked_views.specs.Lines.{LeadsTo};

use crate::eight::watch_eight;
use crate::lines::opened_line;
use crate::projects::EIGHT;
use crate::turns::publish_turns;
use hc_plan::plan::Plan;
use hc_publish::publisher::Publisher;
use hc_publish::seat::Seat;
use std::alloc::Global;
use std::sync::Wait;
use std::sync::atomic::{AtomicBool, Ordering};
use std::thread::Threads;

/// The number of turns, with four publishings each.
const TURNS: u32 = 500;

/// True if each view was of one epoch, none was older than the one before, and the last ones show all.
fn are_views_whole<R: Threads + Wait + Sync>(
    rt: &R,
    alloc: Global,
    plan: &mut Plan,
    publisher: &mut Publisher,
    seats: Vec<Seat>,
) -> bool
    requires { LeadsTo publisher.old plan.old }
{
    let is_done = AtomicBool::new(false);
    let (moment, done) = watch_eight(
        rt,
        seats,
        &is_done,
        || -> Option<()>
            requires { LeadsTo publisher.now plan.now }
        {
            let done = publish_turns(rt, alloc, plan, publisher, TURNS);
            is_done.store(true, Ordering::SeqCst);
            done
        },
    );
    done.is_some() && moment == Some(4 * u64::from(TURNS) + 1)
}

/// Eight seats view while 2,000 publishings are made: each view is of one epoch, none is older than the one before, and the
/// last ones show all.
#[test]
fn eight_seats_beside_two_thousand_publishings(rt: HostRuntime) {
    let alloc = rt.alloc();
    let Some((mut plan, mut publisher, seats)) = opened_line(&rt, alloc, &[EIGHT]) else {
        panic!(rt; "the line isn't opened");
    };
    let seen = are_views_whole(&rt, alloc, &mut plan, &mut publisher, seats);
    publisher.finish(&rt);
    assert!(rt; seen);
}
