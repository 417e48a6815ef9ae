//! Cycles of good answers, in which a seat views, learns and leaves. After the first ones no allocation is made, which is
//! counted from outside (`ci/sweep.sh`).
ghost use Rattle.std.specs.Prelude.{◌≡◌, OnOk};
ghost use Rattle.hc_publish.specs.PublishedState.{origin_of};
ghost use Rattle.hc_publish.specs.Seats.{seat_origin};
ghost use Rattle.worked_views.specs.Lines.{LeadsTo};

use crate::lines::{append_answer, first_seat, opened, publish};
use hc_plan::plan::Plan;
use hc_publish::publisher::Publisher;
use hc_publish::seat::Seat;
use hc_records::records::VarId;
use std::alloc::{AllocError, Global};
use std::sync::Wait;
use std::test::Fail;

/// The memory of an answer that both copies have applied. It is empty in the first cycles.
fn room(alloc: Global, publisher: &Publisher) -> Vec<u8> {
    match publisher.spare() {
        Some(good) => good.into_bytes().into_vec(),
        None => Vec::new(alloc),
    }
}

/// Appends and publishes two answers.
fn cycle<R: Wait>(
    rt: &R,
    alloc: Global,
    plan: &Plan,
    publisher: &mut Publisher,
) -> Result<(), AllocError>
    requires { LeadsTo publisher.old plan.now }
    ensures leads { OnOk result (LeadsTo publisher.new plan.now) }
    ensures same { origin_of publisher.new ≡ origin_of publisher.old }
{
    append_answer(room(alloc, publisher), plan, publisher, 0, b"\x02\x11\x01")?;
    append_answer(room(alloc, publisher), plan, publisher, 0, b"\x02\x34\x0a")?;
    publish(rt, plan, publisher)
}

/// The value of variable 2 for a seat. None if it has no value.
fn value_seen(seat: Seat) -> (Seat, Option<u64>)
    ensures { seat_origin result.0 ≡ seat_origin seat }
{
    match seat.view() {
        Ok(view) => {
            let value = match VarId::new(2) {
                Some(variable) => view.value(variable).ok(),
                None => None,
            };
            (view.leave(), value)
        }
        Err(seat) => (seat, None),
    }
}

/// True if a seat that learns a note after each of `cycles` cycles sees the last answer each time.
fn is_steady<R: Wait>(
    rt: &R,
    alloc: Global,
    plan: &Plan,
    publisher: &mut Publisher,
    mut seat: Seat,
    cycles: u32,
) -> Result<bool, AllocError>
    requires leads { LeadsTo publisher.old plan.now }
    requires own { seat_origin seat ≡ origin_of publisher.old }
{
    let mut seen = true;
    for _ in 0..cycles {
        cycle(rt, alloc, plan, publisher)?;
        seat.learn(publisher.note());
        let (back, value) = value_seen(seat);
        seat = back;
        seen = seen && value == Some(2612);
    }
    Ok(seen)
}

/// Returns whether a seat that learns a note after each of `cycles` cycles sees the last answer, from the line's opening on.
fn is_steady_of<R: Wait>(rt: &R, alloc: Global, cycles: u32) -> Result<bool, AllocError> {
    let Some((plan, mut publisher, seats)) = opened(rt, alloc) else {
        return Err(AllocError);
    };
    let steady = match first_seat(seats) {
        Some(seat) => is_steady(rt, alloc, &plan, &mut publisher, seat, cycles),
        None => Ok(false),
    };
    publisher.finish(rt);
    steady
}

/// Four cycles of good answers go as they should, and the seat sees the last one.
#[test]
fn few_cycles(rt: HostRuntime) -> Result<(), Fail> {
    assert!(rt; is_steady_of(&rt, rt.alloc(), 4)?);
    Ok(())
}

/// Forty cycles of good answers go as they should, and make as many allocations as four, as `ci/sweep.sh` counts.
#[test]
fn many_cycles(rt: HostRuntime) -> Result<(), Fail> {
    assert!(rt; is_steady_of(&rt, rt.alloc(), 40)?);
    Ok(())
}
