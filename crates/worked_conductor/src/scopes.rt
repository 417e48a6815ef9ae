//! Two scopes of threads: tasks post in the first one, and see the answer after a note in the second one.
ghost use Rattle.std.specs.Prelude.{◌≡◌, IfSome};
ghost use Rattle.hc_conductor.specs.Conducting.{conductor_origin};
ghost use Rattle.hc_conductor.specs.Seats.{task_seat_origin};
ghost use Rattle.hc_publish.specs.Seats.{note_origin};

use crate::lines::{first_two, is_answered, is_programmed, opened};
use crate::posting::is_posted;
use crate::rows::{ANSWERED, ELSEWHERE, Moment, OPENED, sees};
use hc_conductor::conductor::Conductor;
use hc_conductor::seat::TaskSeat;
use hc_publish::publisher::Note;
use std::alloc::Global;
use std::sync::Wait;
use std::thread::{self, Threads, join};

/// The seat of the axis' task, or of the other one, sees the opening and posts. Returns the seat, and true if both succeed.
fn worked(seat: TaskSeat, is_own: bool) -> (TaskSeat, bool)
    ensures { task_seat_origin result.0 ≡ task_seat_origin seat }
{
    let moment = if is_own { &OPENED } else { &ELSEWHERE };
    let (mut seat, seen) = sees(seat, moment);
    let posted = is_posted(&mut seat, 2);
    (seat, seen && posted)
}

/// A task works in a thread of its own beside `work`.
fn beside<R: Threads, A, F: FnOnce() -> A>(
    rt: &R,
    seat: TaskSeat,
    is_own: bool,
    work: F,
) -> ((TaskSeat, bool), A)
    requires { F.pre work }
    ensures seat { task_seat_origin result.0.0 ≡ task_seat_origin seat }
    ensures done { F.post work result.1 }
{
    join(
        rt,
        || -> (TaskSeat, bool)
            ensures { task_seat_origin result.0 ≡ task_seat_origin seat }
        { worked(seat, is_own) },
        work,
    )
}

/// Two tasks work, each in a thread of its own, beside `work`.
fn beside_two<R: Threads, A, F: FnOnce() -> A>(
    rt: &R,
    one: TaskSeat,
    two: TaskSeat,
    work: F,
) -> ((TaskSeat, bool), ((TaskSeat, bool), A))
    requires { F.pre work }
    ensures one { task_seat_origin result.0.0 ≡ task_seat_origin one }
    ensures two { task_seat_origin result.1.0.0 ≡ task_seat_origin two }
    ensures done { F.post work result.1.1 }
{
    beside(
        rt,
        one,
        true,
        || -> ((TaskSeat, bool), A)
            requires { F.pre work }
            ensures { (task_seat_origin result.0.0 ≡ task_seat_origin two) × F.post work result.1 }
        { beside(rt, two, false, work) },
    )
}

/// Takes posts until two were accepted, for at most 1,000,000 calls, and yields after each.
fn takes_two(conductor: &mut Conductor) -> bool
    ensures { conductor_origin conductor.new ≡ conductor_origin conductor.old }
{
    let mut accepted = 0_u32;
    for _ in 0..1_000_000 {
        accepted = accepted.saturating_add(conductor.take_posts().accepted);
        if accepted == 2 {
            return true;
        }
        thread::yield_now();
    }
    false
}

/// Takes the posts of both tasks, exchanges task 0 and publishes the answer. Returns two notes of the publishing.
fn two_notes<R: Wait>(rt: &R, alloc: Global, conductor: &mut Conductor) -> Option<(Note, Note)>
    ensures { IfSome result (λ notes. (note_origin notes.0 ≡ conductor_origin conductor.old) × (note_origin notes.1 ≡ conductor_origin conductor.old)) }
{
    if !takes_two(conductor) || !is_answered(alloc, conductor) {
        return None;
    }
    conductor.publish(rt, alloc).ok()?;
    Some((conductor.note(), conductor.note()))
}

/// True if a view after a note shows this moment.
fn learned(mut seat: TaskSeat, note: Note, moment: &Moment) -> bool
    requires { note_origin note ≡ task_seat_origin seat }
{
    seat.learn(note);
    sees(seat, moment).1
}

/// True if each seat, in a thread of its own, learns a note and sees its moment.
fn both_learned<R: Threads>(rt: &R, one: TaskSeat, two: TaskSeat, first: Note, second: Note) -> bool
    requires one { note_origin first ≡ task_seat_origin one }
    requires two { note_origin second ≡ task_seat_origin two }
{
    let (shown, also) = join(
        rt,
        || -> bool
            requires { note_origin first ≡ task_seat_origin one }
        { learned(one, first, &ANSWERED) },
        || -> bool
            requires { note_origin second ≡ task_seat_origin two }
        { learned(two, second, &ELSEWHERE) },
    );
    shown && also
}

/// Both tasks work while their posts are taken and an answer comes. Afterwards each learns a note and views.
fn two_scopes<R: Threads + Wait>(
    rt: &R,
    alloc: Global,
    conductor: &mut Conductor,
    one: TaskSeat,
    two: TaskSeat,
) -> Option<bool>
    requires one { task_seat_origin one ≡ conductor_origin conductor.old }
    requires two { task_seat_origin two ≡ conductor_origin conductor.old }
{
    let ((one, worked), ((two, also), notes)) = beside_two(
        rt,
        one,
        two,
        || -> Option<(Note, Note)>
            ensures { IfSome result (λ notes. (note_origin notes.0 ≡ conductor_origin conductor.entry.now) × (note_origin notes.1 ≡ conductor_origin conductor.entry.now)) }
        { two_notes(rt, alloc, conductor) },
    );
    let (first, second) = notes?;
    let shown = both_learned(rt, one, two, first, second);
    Some(worked && also && shown)
}

/// Opens the line. True if both scopes have their results.
fn is_shown<R: Threads + Wait>(rt: &R, alloc: Global) -> bool {
    let Some((mut conductor, seats)) = opened(rt, alloc) else {
        return false;
    };
    let programmed = is_programmed(alloc, &mut conductor);
    let shown = match first_two(seats) {
        Some((one, two)) => two_scopes(rt, alloc, &mut conductor, one, two),
        None => None,
    };
    conductor.finish(rt);
    programmed && shown.unwrap_or(false)
}

/// Tasks post in one scope of threads, and see the published answer in the next one after they learn a note.
#[test]
fn a_note_between_two_scopes(rt: HostRuntime) {
    assert!(rt; is_shown(&rt, rt.alloc()));
}
