//! Opening of a publisher and its seats.
ghost use Rattle.std.specs.Prelude.{◌≡◌, ◌⊎◌, [], All, IfErr, IfOk, map};
ghost use Rattle.std.specs.List.{range_with_len};
ghost use Rattle.hc_records.specs.declared.limits.TheConstants.{TASKS};
ghost use Rattle.hc_records.specs.Line.{groups_of};
ghost use Rattle.hc_publish.specs.ChangesSince.{IsOpening};
ghost use Rattle.hc_publish.specs.declared.faults.OpenFault.TheVariants.{Memory, NoSeat};
ghost use Rattle.hc_publish.specs.PublishedState.{published, pending, origin_of};
ghost use Rattle.hc_publish.specs.Seats.{SeatIsAtOpening, task_of};

use crate::copies::Copy;
use crate::faults::OpenFault;
use crate::publication_log::LogPrefix;
use crate::publisher::{Copies, Publisher};
use crate::rule::Looks;
use crate::seat::Seat;
use crate::shown::Shown;
use hc_plan::plan::Plan;
use hc_records::limits::{MOST_DATAGRAMS, TASKS};
use left_right::writer::Writer;
use std::alloc::{AllocError, Global};
use std::sync::{Mutex, Wait};

// the number of applied good answers that each copy stores: one for each datagram that a line can have
const MOST_USED: usize = TASKS as usize * MOST_DATAGRAMS;

/// Returns the publisher of a plan at its opening, with nothing published and nothing pending. `AllocError` if an allocation
/// fails.
fn opened<R: Wait>(rt: &R, alloc: Global, plan: &Plan) -> Result<Publisher, AllocError>
    requires { IsOpening plan.now }
    ensures { IfOk result (λ publisher. (published publisher ≡ []) × (pending publisher ≡ []) × ((origin_of publisher).groups ≡ groups_of plan.now.groups)) }
{
    let first = Shown::of(alloc, plan)?;
    let second = Shown::of(alloc, plan)?;
    let Some((head, front)) = LogPrefix::opened(&first) else {
        return Err(AllocError);
    };
    let first = Copy {
        shown: first,
        front: front.again(),
        used: Mutex::new(Vec::with_capacity(alloc, MOST_USED)?),
    };
    let second = Copy {
        shown: second,
        front: front.again(),
        used: Mutex::new(Vec::with_capacity(alloc, MOST_USED)?),
    };
    let writer: Copies = Writer::new(alloc, first, second, usize::from(TASKS))?;
    let (writer, shown) = writer.publish_as::<Looks, R>(rt);
    if shown.is_err() {
        writer.take(rt);
        return Err(AllocError);
    }
    Ok(Publisher {
        writer,
        head,
        front,
        is_sealed: false,
    })
}

/// Returns a publisher of a plan at its opening, which has published nothing yet, and the seats of the eight tasks, task i's at
/// index i. It makes all allocations except those for later changes, before the copies are shared. Fails with one of these:
///
/// - `Memory`: an allocation failed.
/// - `NoSeat`: the published copies gave no seat.
/// - `TooManyDatagrams`: never, since the line of a plan is not over its limit.
pub fn open<R: Wait>(
    rt: &R,
    alloc: Global,
    plan: &Plan,
) -> Result<(Publisher, Vec<Seat>), OpenFault>
    requires { IsOpening plan.now }
    ensures published { IfOk result (λ opened. (published opened.0 ≡ []) × (pending opened.0 ≡ []) × ((origin_of opened.0).groups ≡ groups_of plan.now.groups)) }
    ensures tasks { IfOk result (λ opened. map task_of opened.1.items ≡ range_with_len 0 TASKS) }
    ensures at_opening { IfOk result (λ opened. All (SeatIsAtOpening (origin_of opened.0)) opened.1.items) }
    ensures refused { IfErr result (λ fault. (fault ≡ Memory) ⊎ (fault ≡ NoSeat)) }
{
    let mut seats = Vec::with_capacity(alloc, usize::from(TASKS))?;
    let mut publisher = opened(rt, alloc, plan)?;
    for task in 0..TASKS {
        let Ok(seat) = publisher.seat(task) else {
            publisher.finish(rt);
            return Err(OpenFault::NoSeat);
        };
        seats.push_reserved(seat);
    }
    Ok((publisher, seats))
}
