//! Views of the axis' answer by the seats of tasks 0 and 1: rows worked out by hand.
ghost use Rattle.std.specs.Prelude.{◌≡◌};
ghost use Rattle.hc_conductor.specs.Conducting.{conductor_origin};
ghost use Rattle.hc_conductor.specs.Seats.{task_seat_origin};

use crate::lines::{first_two, is_answered, is_programmed, opened};
use hc_conductor::conductor::Conductor;
use hc_conductor::seat::TaskSeat;
use hc_conductor::view::TaskView;
use hc_records::records::VarId;
use std::alloc::Global;
use std::sync::Wait;

/// A variable's number, and its value or the number of a fault.
pub type ShownValue = (u32, Result<u64, u8>);

/// The contents of a view: the epoch, the data of its task's first datagram, and the values of variables.
pub struct Moment {
    pub epoch: u32,
    pub data: Option<&'static [u8]>,
    pub values: &'static [ShownValue],
}

/// Before the publishing the answer is not shown.
pub const OPENED: Moment = Moment {
    epoch: 0,
    data: None,
    values: &[(9, Err(1)), (1, Err(2)), (2, Err(4))],
};

/// The twelve bits from the second byte on are 0xa34.
pub const ANSWERED: Moment = Moment {
    epoch: 0,
    data: Some(b"\x02\x34\x0a"),
    values: &[(9, Err(1)), (1, Err(2)), (2, Ok(2612))],
};

/// Task 1 has no datagram, and the axis' variables are another task's.
pub const ELSEWHERE: Moment = Moment {
    epoch: 0,
    data: None,
    values: &[(9, Err(1)), (1, Err(2)), (2, Err(3))],
};

/// True if a view gives each of these variables its value or fault.
fn says_all(view: &TaskView, rows: &[ShownValue]) -> bool {
    for (number, value) in rows {
        let Some(variable) = VarId::new(*number) else {
            return false;
        };
        let is_valued = match view.value(variable) {
            Ok(own) => *value == Ok(own),
            Err(fault) => *value == Err(fault.number()),
        };
        if !is_valued {
            return false;
        }
    }
    true
}

/// True if a datagram has exactly these data, or none.
pub fn has(data: Option<&[u8]>, wanted: Option<&[u8]>) -> bool {
    match (data, wanted) {
        (Some(data), Some(wanted)) => data == wanted,
        (None, None) => true,
        _ => false,
    }
}

/// Takes a view and leaves it. True if it showed this moment.
pub fn sees(seat: TaskSeat, moment: &Moment) -> (TaskSeat, bool)
    ensures { task_seat_origin result.0 ≡ task_seat_origin seat }
{
    match seat.view() {
        Ok(view) => {
            let seen = view.epoch() == moment.epoch
                && has(view.inputs(0), moment.data)
                && says_all(&view, moment.values);
            (view.leave(), seen)
        }
        Err(seat) => (seat, false),
    }
}

/// True if the answer is seen once it is published and a note is learned, and not before.
fn is_seen<R: Wait>(
    rt: &R,
    alloc: Global,
    conductor: &mut Conductor,
    seat: TaskSeat,
    other: TaskSeat,
) -> bool
    requires { task_seat_origin seat ≡ conductor_origin conductor.old }
{
    if !is_programmed(alloc, conductor) || !is_answered(alloc, conductor) {
        return false;
    }
    let (mut seat, before) = sees(seat, &OPENED);
    if conductor.publish(rt, alloc).is_err() {
        return false;
    }
    seat.learn(conductor.note());
    let (_, after_it) = sees(seat, &ANSWERED);
    let (_, elsewhere) = sees(other, &ELSEWHERE);
    before && after_it && elsewhere
}

/// Opens the line. True if the two seats see their moments.
fn is_shown<R: Wait>(rt: &R, alloc: Global) -> bool {
    let Some((mut conductor, seats)) = opened(rt, alloc) else {
        return false;
    };
    let seen = match first_two(seats) {
        Some((seat, other)) => is_seen(rt, alloc, &mut conductor, seat, other),
        None => false,
    };
    conductor.finish(rt);
    seen
}

/// The seat of task 0 sees the axis' answer once it is published, and not before. For task 1 the variables are another task's.
#[test]
fn an_answer_is_seen_once_it_is_published(rt: HostRuntime) {
    assert!(rt; is_shown(&rt, rt.alloc()));
}
