//! Views of the line by one task: rows worked out by hand.
ghost use Rattle.std.specs.Prelude.{OnOk};
ghost use Rattle.worked_views.specs.Lines.{LeadsTo};

use crate::lines::{DOCK, UNDOCK, append_answer, append_edit, first_seat, opened, publish};
use hc_plan::plan::Plan;
use hc_publish::publisher::Publisher;
use hc_publish::seat::Seat;
use hc_publish::view::View;
use hc_records::edit::Edit;
use hc_records::items::Items;
use hc_records::records::VarId;
use std::alloc::{AllocError, Global};
use std::sync::Wait;
use std::test::Fail;

/// A variable's number, and what task 0 gets for it: its first bit, if it has a place, and its value or the number of a fault.
type ShownValue = (u32, Option<u16>, Result<u64, u8>);

/// The contents of a view: the epoch, the bytes of the task's outputs and of its inputs, the data of its datagram, and the
/// places and values of variables.
struct Moment {
    epoch: u32,
    part: (u16, u16),
    data: Option<&'static [u8]>,
    values: &'static [ShownValue],
}

/// The axis has a byte of outputs and two of inputs. There is no variable 9, and variable 3 is of the feeder, which is not
/// docked.
const OPENED: Moment = Moment {
    epoch: 0,
    part: (1, 2),
    data: None,
    values: &[
        (9, None, Err(1)),
        (3, None, Err(1)),
        (1, Some(0), Err(2)),
        (2, Some(8), Err(4)),
    ],
};

/// The twelve bits from the second byte on are 0xa34.
const ANSWERED: Moment = Moment {
    epoch: 0,
    part: (1, 2),
    data: Some(b"\x02\x34\x0a"),
    values: &[
        (3, None, Err(1)),
        (1, Some(0), Err(2)),
        (2, Some(8), Ok(2612)),
    ],
};

/// The feeder's variable lies in task 1. In the new epoch there is no answer.
const DOCKED: Moment = Moment {
    epoch: 1,
    part: (1, 2),
    data: None,
    values: &[
        (3, Some(0), Err(3)),
        (1, Some(0), Err(2)),
        (2, Some(8), Err(4)),
    ],
};

/// Without its outputs the axis has its inputs from the first byte on.
const WITHOUT_OUTPUTS: Moment = Moment {
    epoch: 2,
    part: (0, 2),
    data: None,
    values: &[
        (3, Some(0), Err(3)),
        (1, None, Err(1)),
        (2, Some(0), Err(4)),
    ],
};

/// Undocked again, and answered: the axis' inputs are alone in the datagram.
const UNDOCKED: Moment = Moment {
    epoch: 3,
    part: (0, 2),
    data: Some(b"\x21\x03"),
    values: &[(3, None, Err(1)), (1, None, Err(1)), (2, Some(0), Ok(801))],
};

/// Docked once more after another answer, which was of the epoch before, and answered in the new one: 0x234.
const DOCKED_AGAIN: Moment = Moment {
    epoch: 4,
    part: (0, 2),
    data: Some(b"\x34\xf2"),
    values: &[(3, Some(0), Err(3)), (2, Some(0), Ok(564))],
};

/// A change that is appended.
#[derive(Clone, Copy)]
enum Given {
    /// A good answer with these data.
    Answer(&'static [u8]),
    /// The feeder joins the line.
    Docking,
    /// The feeder leaves the line.
    Undocking,
    /// The axis loses its outputs.
    LosingOutputs,
}

/// The changes that are appended before a publishing, and the moment that a view shows after it.
type Row = (&'static [Given], &'static Moment);

/// The publishings, one after another.
const ROWS: &[Row] = &[
    (&[Given::Answer(b"\x02\x34\x0a")], &ANSWERED),
    (&[Given::Docking], &DOCKED),
    (&[Given::LosingOutputs], &WITHOUT_OUTPUTS),
    (&[Given::Undocking, Given::Answer(b"\x21\x03")], &UNDOCKED),
    (
        &[
            Given::Answer(b"\x99\x09"),
            Given::Docking,
            Given::Answer(b"\x11\x01"),
            Given::Answer(b"\x34\xf2"),
        ],
        &DOCKED_AGAIN,
    ),
];

/// True if a view gives each of these variables its place, and its value or fault.
fn says_all(view: &View, rows: &[ShownValue]) -> bool {
    for (number, bit, value) in rows {
        let Some(variable) = VarId::new(*number) else {
            return false;
        };
        let is_placed = match view.place(variable) {
            Some(place) => *bit == Some(place.bit),
            None => bit.is_none(),
        };
        let is_valued = match view.value(variable) {
            Ok(own) => *value == Ok(own),
            Err(fault) => *value == Err(fault.number()),
        };
        if !is_placed || !is_valued {
            return false;
        }
    }
    true
}

/// True if a datagram has exactly these data, or none.
fn has(data: Option<&[u8]>, wanted: Option<&[u8]>) -> bool {
    match (data, wanted) {
        (Some(data), Some(wanted)) => data == wanted,
        (None, None) => true,
        _ => false,
    }
}

/// Takes a view and leaves it. True if it showed this moment.
fn sees(seat: Seat, moment: &Moment) -> (Seat, bool) {
    match seat.view() {
        Ok(view) => {
            let seen = view.epoch() == moment.epoch
                && view.part() == moment.part
                && has(view.inputs(0), moment.data)
                && says_all(&view, moment.values);
            (view.leave(), seen)
        }
        Err(seat) => (seat, false),
    }
}

/// Appends one change.
fn append(
    alloc: Global,
    plan: &mut Plan,
    publisher: &mut Publisher,
    given: Given,
) -> Result<(), AllocError>
    requires { LeadsTo publisher.old plan.old }
    ensures { OnOk result (LeadsTo publisher.new plan.new) }
{
    match given {
        Given::Answer(bytes) => append_answer(Vec::new(alloc), plan, publisher, 0, bytes),
        Given::Docking => append_edit(alloc, plan, publisher, &DOCK),
        Given::Undocking => append_edit(alloc, plan, publisher, &UNDOCK),
        Given::LosingOutputs => {
            let without_outputs = Edit::Remap {
                station: 1001,
                area: 0,
                pdos: Items::new(alloc),
            };
            append_edit(alloc, plan, publisher, &without_outputs)
        }
    }
}

/// Appends all of these changes, in order.
fn append_all(
    alloc: Global,
    plan: &mut Plan,
    publisher: &mut Publisher,
    given: &[Given],
) -> Result<(), AllocError>
    requires { LeadsTo publisher.old plan.old }
    ensures { OnOk result (LeadsTo publisher.new plan.new) }
{
    for one in given {
        append(alloc, plan, publisher, *one)?;
    }
    Ok(())
}

/// Publishes all pending changes. If an allocation fails, the publishing is tried once more, and the result is true if the seat
/// sees the moment before.
fn published<R: Wait>(
    rt: &R,
    plan: &Plan,
    publisher: &mut Publisher,
    seat: Seat,
    before: &Moment,
) -> Result<(Seat, bool), AllocError>
    requires { LeadsTo publisher.old plan.now }
    ensures { LeadsTo publisher.new plan.now }
{
    match publish(rt, plan, publisher) {
        Ok(()) => Ok((seat, true)),
        Err(_) => {
            let seen = sees(seat, before);
            publish(rt, plan, publisher)?;
            Ok(seen)
        }
    }
}

/// True if a seat sees the row's moment once its changes are published, and the moment before until then.
fn is_seen<R: Wait>(
    rt: &R,
    alloc: Global,
    plan: &mut Plan,
    publisher: &mut Publisher,
    seat: Seat,
    before: &Moment,
    row: &Row,
) -> Result<(Seat, bool), AllocError>
    requires { LeadsTo publisher.old plan.old }
    ensures { OnOk result (LeadsTo publisher.new plan.new) }
{
    append_all(alloc, plan, publisher, row.0)?;
    let (seat, waits) = sees(seat, before);
    let (seat, stays) = published(rt, plan, publisher, seat, before)?;
    let (seat, seen) = sees(seat, row.1);
    Ok((seat, waits && stays && seen))
}

/// The number of the first row whose moment the seat does not see. None if it sees all.
fn first_unseen<R: Wait>(
    rt: &R,
    alloc: Global,
    plan: &mut Plan,
    publisher: &mut Publisher,
    mut seat: Seat,
) -> Result<Option<usize>, AllocError>
    requires { LeadsTo publisher.old plan.old }
{
    let mut before = &OPENED;
    let mut number = 0_usize;
    for row in ROWS {
        let (back, seen) = is_seen(rt, alloc, plan, publisher, seat, before, row)?;
        if !seen {
            return Ok(Some(number));
        }
        seat = back;
        before = row.1;
        number = number.saturating_add(1);
    }
    Ok(None)
}

/// The number of the first row that the seat of task 0 does not see, from a line's opening on.
fn first_unseen_of<R: Wait>(rt: &R, alloc: Global) -> Result<Option<usize>, AllocError> {
    let Some((mut plan, mut publisher, seats)) = opened(rt, alloc) else {
        return Err(AllocError);
    };
    let unseen = match first_seat(seats) {
        Some(seat) => first_unseen(rt, alloc, &mut plan, &mut publisher, seat),
        None => Ok(Some(0)),
    };
    publisher.finish(rt);
    unseen
}

/// A view shows what was published last, until the next publishing.
#[test]
fn a_view_shows_what_was_published(rt: HostRuntime) -> Result<(), Fail> {
    assert_eq!(rt; first_unseen_of(&rt, rt.alloc())?, None);
    Ok(())
}
