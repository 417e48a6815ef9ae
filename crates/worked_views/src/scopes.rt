//! Two scopes of threads, with notes between them.
ghost use Rattle.std.specs.Prelude.{◌≡◌, IfSome};
ghost use mathlib.Core.List.{IsPrefix};
ghost use Rattle.hc_publish.specs.PublishedState.{origin_of};
ghost use Rattle.hc_publish.specs.Seats.{noted_changes, known, note_origin, seat_origin};
ghost use Rattle.worked_views.specs.Lines.{LeadsTo};

use crate::lines::{DOCK, UNDOCK, opened, publish_edit};
use hc_plan::plan::Plan;
use hc_publish::publisher::{Note, Publisher};
use hc_publish::seat::Seat;
use std::alloc::Global;
use std::sync::Wait;
use std::thread::{self, Threads, join};

/// Takes a view and leaves it. Returns the epoch that it showed.
pub fn looked(seat: Seat) -> (Seat, u32)
    ensures origin { seat_origin result.0 ≡ seat_origin seat }
    ensures begins { IsPrefix (known seat) (known result.0) }
{
    match seat.view() {
        Ok(view) => {
            let epoch = view.epoch();
            (view.leave(), epoch)
        }
        Err(seat) => (seat, 0),
    }
}

/// Takes two hundred views, one after another. True if their epochs never fell.
fn looked_often(mut seat: Seat) -> (Seat, bool)
    ensures { seat_origin result.0 ≡ seat_origin seat }
{
    let mut last = 0;
    let mut ascends = true;
    for _ in 0..200 {
        let (back, epoch) = looked(seat);
        ascends = ascends && last <= epoch;
        last = epoch;
        seat = back;
        thread::yield_now();
    }
    (seat, ascends)
}

/// A view after a note.
fn learned(mut seat: Seat, note: Note) -> (Seat, u32)
    requires { note_origin note ≡ seat_origin seat }
    ensures { IsPrefix (noted_changes note) (known result.0) }
{
    seat.learn(note);
    looked(seat)
}

/// Three edits, each published before the next, and two notes of the last publishing.
fn two_notes<R: Wait>(
    rt: &R,
    alloc: Global,
    plan: &mut Plan,
    publisher: &mut Publisher,
) -> Option<(Note, Note)>
    requires { LeadsTo publisher.old plan.old }
    ensures { IfSome result (λ notes. (note_origin notes.0 ≡ origin_of publisher.old) × (note_origin notes.1 ≡ origin_of publisher.old)) }
{
    publish_edit(rt, alloc, plan, publisher, &DOCK)?;
    publish_edit(rt, alloc, plan, publisher, &UNDOCK)?;
    let note = publish_edit(rt, alloc, plan, publisher, &DOCK)?;
    Some((note, publisher.note()))
}

/// A seat views in a thread of its own beside `work`.
fn beside<R: Threads, A, F: FnOnce() -> A>(rt: &R, seat: Seat, work: F) -> ((Seat, bool), A)
    requires { F.pre work }
    ensures seat { seat_origin result.0.0 ≡ seat_origin seat }
    ensures done { F.post work result.1 }
{
    join(
        rt,
        || -> (Seat, bool)
            ensures { seat_origin result.0 ≡ seat_origin seat }
        { looked_often(seat) },
        work,
    )
}

/// Two seats view, each in a thread of its own, beside `work`.
fn beside_two<R: Threads, A, F: FnOnce() -> A>(
    rt: &R,
    one: Seat,
    two: Seat,
    work: F,
) -> ((Seat, bool), ((Seat, bool), A))
    requires { F.pre work }
    ensures one { seat_origin result.0.0 ≡ seat_origin one }
    ensures two { seat_origin result.1.0.0 ≡ seat_origin two }
    ensures done { F.post work result.1.1 }
{
    beside(
        rt,
        one,
        || -> ((Seat, bool), A)
            requires { F.pre work }
            ensures { (seat_origin result.0.0 ≡ seat_origin two) × F.post work result.1 }
        { beside(rt, two, work) },
    )
}

/// Each seat learns a note in a thread and views there. Returns the epochs that they show.
fn both_learned<R: Threads>(rt: &R, one: Seat, two: Seat, first: Note, second: Note) -> (u32, u32)
    requires one { note_origin first ≡ seat_origin one }
    requires two { note_origin second ≡ seat_origin two }
{
    let ((_, at), (_, also)) = join(
        rt,
        || -> (Seat, u32)
            requires { note_origin first ≡ seat_origin one }
            ensures { IsPrefix (noted_changes first) (known result.0) }
        { learned(one, first) },
        || -> (Seat, u32)
            requires { note_origin second ≡ seat_origin two }
            ensures { IsPrefix (noted_changes second) (known result.0) }
        { learned(two, second) },
    );
    (at, also)
}

/// Both seats view while the edits are published. Afterwards each learns a note and views again.
fn two_scopes<R: Threads + Wait>(
    rt: &R,
    alloc: Global,
    plan: &mut Plan,
    publisher: &mut Publisher,
    one: Seat,
    two: Seat,
) -> Option<bool>
    requires one { seat_origin one ≡ origin_of publisher.old }
    requires two { seat_origin two ≡ origin_of publisher.old }
    requires leads { LeadsTo publisher.old plan.old }
{
    let ((one, rises), ((two, too), notes)) = beside_two(
        rt,
        one,
        two,
        || -> Option<(Note, Note)>
            requires { LeadsTo publisher.now plan.now }
            ensures { IfSome result (λ notes. (note_origin notes.0 ≡ origin_of publisher.entry.now) × (note_origin notes.1 ≡ origin_of publisher.entry.now)) }
        { two_notes(rt, alloc, plan, publisher) },
    );
    let (first, second) = notes?;
    let shown = both_learned(rt, one, two, first, second);
    Some(rises && too && shown == (3, 3))
}

/// Opens the line. True if both scopes of the last two seats have their results.
fn is_seen<R: Threads + Wait>(rt: &R, alloc: Global) -> bool {
    let Some((mut plan, mut publisher, mut seats)) = opened(rt, alloc) else {
        return false;
    };
    let seen = match (seats.pop(), seats.pop()) {
        (Some(one), Some(two)) => two_scopes(rt, alloc, &mut plan, &mut publisher, one, two),
        _ => None,
    };
    publisher.finish(rt);
    seen.unwrap_or(false)
}

/// Seats view in one scope of threads while edits are published, and see the last one in the next scope after they learn a
/// note.
#[test]
fn a_note_between_two_scopes(rt: HostRuntime) {
    assert!(rt; is_seen(&rt, rt.alloc()));
}
