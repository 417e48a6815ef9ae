//! A machine to which a module is docked, with the publisher of its edits.
ghost use Rattle.std.specs.Prelude.{◌≡◌, [], ◌∷◌, ◌++◌, All, IfSome, List, OnOk};
ghost use Rattle.hc_publish.specs.ChangesSince.{IsOpening};
ghost use Rattle.hc_events.specs.Changes.{AreLegal};
ghost use Rattle.hc_publish.specs.PublishedState.{published, pending, origin_of};
ghost use Rattle.hc_publish.specs.Seats.{SeatIsAtOpening, noted_changes, note_origin};
ghost use Rattle.hc_publish.specs.declared.seat.Seat.{Seat};
ghost use Rattle.worked_views.specs.Lines.{LeadsTo};

use crate::projects::{AXIS, FEEDER, project_of};
use hc_events::change::{Change, GoodAnswer};
use hc_plan::plan::Plan;
use hc_publish::open;
use hc_publish::publisher::{Kept, Note, Publisher};
use hc_publish::seat::Seat;
use hc_records::edit::Edit;
use hc_records::items::Items;
use hc_records::limits::TASKS;
use std::alloc::{AllocError, Global};
use std::sync::Wait;

/// The feeder is connected.
pub const DOCK: Edit = Edit::Connect(200);

/// The feeder is disconnected.
pub const UNDOCK: Edit = Edit::Disconnect(200);

/// The plan of a line at its opening, from the texts of its groups. None if they are no project or an allocation fails.
fn plan_of_line(alloc: Global, texts: &[&str]) -> Option<Plan>
    ensures { IfSome result IsOpening }
{
    match Plan::new(alloc, project_of(alloc, texts)?) {
        Ok(plan) => Some(plan),
        Err(_) => None,
    }
}

/// The line at its opening, with its publisher and eight seats.
pub fn opened<R: Wait>(rt: &R, alloc: Global) -> Option<(Plan, Publisher, Vec<Seat>)>
    ensures leads { IfSome result (λ opened. LeadsTo opened.1 opened.0) }
    ensures seats { IfSome result (λ opened. All (SeatIsAtOpening (origin_of opened.1)) opened.2.items) }
{
    opened_line(rt, alloc, &[AXIS, FEEDER])
}

/// The line of these texts at its opening, with its publisher and eight seats.
pub fn opened_line<R: Wait>(
    rt: &R,
    alloc: Global,
    texts: &[&str],
) -> Option<(Plan, Publisher, Vec<Seat>)>
    ensures leads { IfSome result (λ opened. LeadsTo opened.1 opened.0) }
    ensures seats { IfSome result (λ opened. All (SeatIsAtOpening (origin_of opened.1)) opened.2.items) }
{
    let plan = plan_of_line(alloc, texts)?;
    match open(rt, alloc, &plan) {
        Ok((publisher, seats)) => Some((plan, publisher, seats)),
        Err(_) => None,
    }
}

/// The first seat, task 0's.
pub fn first_seat(seats: Vec<Seat>) -> Option<Seat>
    ensures { IfSome result (λ seat. (rest : List Seat) × (seats.items ≡ seat ∷ rest)) }
{
    seats.into_iter().next()
}

/// Appends a change. One that comes back is appended once more.
fn append(publisher: &mut Publisher, change: Change) -> Result<(), AllocError>
    requires { AreLegal (origin_of publisher.old).groups (published publisher.old ++ pending publisher.old ++ change ∷ []) }
    ensures published { published publisher.new ≡ published publisher.old }
    ensures pending { OnOk result (pending publisher.new ≡ pending publisher.old ++ change ∷ []) }
    ensures same { origin_of publisher.new ≡ origin_of publisher.old }
{
    if let Err(Kept(change)) = publisher.append(change) {
        if let Err(Kept(_)) = publisher.append(change) {
            return Err(AllocError);
        }
    }
    Ok(())
}

/// Carries an edit out, and appends its swap.
pub fn append_edit(
    alloc: Global,
    plan: &mut Plan,
    publisher: &mut Publisher,
    edit: &Edit,
) -> Result<(), AllocError>
    requires { LeadsTo publisher.old plan.old }
    ensures leads { OnOk result (LeadsTo publisher.new plan.new) }
    ensures same { origin_of publisher.new ≡ origin_of publisher.old }
{
    match plan.apply(alloc, edit) {
        Ok(report) => append(publisher, Change::Swapped(report.swap)),
        Err(_) => Err(AllocError),
    }
}

/// Appends a good answer of a task's first datagram, in this memory. Fails if there is no such datagram, or the answer has
/// another length.
pub fn append_answer(
    room: Vec<u8>,
    plan: &Plan,
    publisher: &mut Publisher,
    task: u8,
    bytes: &[u8],
) -> Result<(), AllocError>
    requires { LeadsTo publisher.old plan.now }
    ensures leads { OnOk result (LeadsTo publisher.new plan.now) }
    ensures same { origin_of publisher.new ≡ origin_of publisher.old }
{
    if task >= TASKS {
        return Err(AllocError);
    }
    let Some(datagram) = plan.places().datagram(task, 0) else {
        return Err(AllocError);
    };
    if bytes.len() != usize::from(datagram.length) {
        return Err(AllocError);
    }
    let mut data = room;
    data.clear();
    data.extend_from_slice(bytes)?;
    let good = GoodAnswer::of(task, 0, Items::of(data));
    append(publisher, Change::Good(good))
}

/// Publishes all pending changes. They stay pending if an allocation fails.
pub fn publish<R: Wait>(rt: &R, plan: &Plan, publisher: &mut Publisher) -> Result<(), AllocError>
    requires { LeadsTo publisher.old plan.now }
    ensures leads { LeadsTo publisher.new plan.now }
    ensures same { origin_of publisher.new ≡ origin_of publisher.old }
{
    let _ = plan;
    publisher.publish(rt)
}

/// Carries an edit out and publishes its swap.
pub fn publish_edit<R: Wait>(
    rt: &R,
    alloc: Global,
    plan: &mut Plan,
    publisher: &mut Publisher,
    edit: &Edit,
) -> Option<Note>
    requires { LeadsTo publisher.old plan.old }
    ensures leads { IfSome result (λ _. LeadsTo publisher.new plan.new) }
    ensures carried { IfSome result (λ note. noted_changes note ≡ published publisher.new) }
    ensures origin { IfSome result (λ note. note_origin note ≡ origin_of publisher.old) }
    ensures same { origin_of publisher.new ≡ origin_of publisher.old }
{
    append_edit(alloc, plan, publisher, edit).ok()?;
    publish(rt, plan, publisher).ok()?;
    Some(publisher.note())
}
