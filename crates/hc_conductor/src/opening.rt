//! Opening of a conductor and its seats.
ghost use Rattle.std.specs.Prelude.{◌≡◌, ◌≤◌, ℕ, [], All, IfErr, IfOk, OnOk, length, map, vec_len, vec_capacity};
ghost use Rattle.std.specs.List.{range_with_len};
ghost use Rattle.hc_records.specs.declared.limits.TheConstants.{TASKS};
ghost use Rattle.hc_records.specs.Line.{line, opened};
ghost use Rattle.hc_places.specs.Table.{table_of};
ghost use Rattle.hc_events.specs.Accepted.{just_opened};
ghost use Rattle.hc_publish.specs.Seats as inner;
ghost use Rattle.hc_publish.specs.Seats.{SeatIsAtOpening};
ghost use Rattle.hc_rings.specs.declared.post_buffer.TheConstants.{LARGEST_IMAGE};
ghost use Rattle.hc_conductor.specs.Conducting.{conductor_origin, conductor_pending, conductor_published};
ghost use Rattle.hc_conductor.specs.Openings.{AreEnds, IsOpenFault, IsOpenable, IsUnused, output_bytes};
ghost use Rattle.hc_conductor.specs.Seats.{seat_epoch, seat_of, sender, outputs_size};
ghost use Rattle.hc_conductor.specs.Together.{EachRing, LostNoBuffer};

use crate::conductor::Conductor;
use crate::seat::TaskSeat;
use crate::viewer::Viewer;
use hc_core::keeping::Core;
use hc_places::table::Places;
use hc_publish::faults::OpenFault;
use hc_publish::seat::Seat;
use hc_records::faults::EditFault;
use hc_records::limits::TASKS;
use hc_records::project::Project;
use hc_rings::{PostReceiver, PostSender, post_ring};
use std::alloc::{AllocError, Global};
use std::sync::Wait;

/// Returns the core of a project at its opening. Fails with `TooManyDatagrams` and the lowest task that needs more than 16
/// datagrams, or with `Memory` if an allocation fails.
fn core_of(alloc: Global, project: Project) -> Result<Core, OpenFault>
    ensures opened { IfOk result (λ core. core ≡ record { history = just_opened project; taken = just_opened project }) }
    ensures openable { OnOk result (IsOpenable project) }
    ensures refused { IfErr result (IsOpenFault project) }
{
    match Core::new(alloc, project) {
        Ok(core) => Ok(core),
        Err(EditFault::TooManyDatagrams(task)) => Err(OpenFault::TooManyDatagrams(task)),
        Err(_) => Err(OpenFault::Memory),
    }
}

/// Returns both ends of a ring of posts for each of the eight tasks. `AllocError` if an allocation fails.
fn rings(alloc: Global) -> Result<(Vec<PostSender>, Vec<PostReceiver>), AllocError>
    ensures count { IfOk result (λ ends. (length ends.0.items ≡ TASKS) × (length ends.1.items ≡ TASKS)) }
    ensures ends { IfOk result (λ ends. AreEnds ends.0.items ends.1.items) }
    ensures whole { IfOk result (λ ends. EachRing LostNoBuffer ends.0.items ends.1.items) }
    ensures unused { IfOk result (λ ends. All IsUnused ends.0.items) }
{
    let mut senders = Vec::with_capacity(alloc, usize::from(TASKS))?;
    let mut receivers = Vec::with_capacity(alloc, usize::from(TASKS))?;
    for _ in 0..TASKS {
        let (sender, receiver) = post_ring(alloc)?;
        senders.push_reserved(sender);
        receivers.push_reserved(receiver);
    }
    Ok((senders, receivers))
}

/// Returns the seat of each task, in order, with its end of the task's ring, epoch 0, and the size of its outputs in bytes.
fn task_seats(
    room: Vec<TaskSeat>,
    seats: Vec<Seat>,
    senders: Vec<PostSender>,
    places: &Places,
) -> Vec<TaskSeat>
    requires empty { room.items ≡ [] }
    requires room { vec_len seats ≤ vec_capacity room }
    requires senders { length senders.items ≡ length seats.items }
    requires few { length seats.items ≤ TASKS }
    requires openable { All (λ seat. IsOpenable (inner.seat_origin seat).groups) seats.items }
    requires fits { (task : ℕ) → output_bytes places.now task ≤ LARGEST_IMAGE }
    ensures seats { map seat_of result.items ≡ seats.items }
    ensures senders { map sender result.items ≡ senders.items }
    ensures epochs { All (λ seat. seat_epoch seat ≡ 0) result.items }
    ensures sizes { map outputs_size result.items ≡ map (output_bytes places.now) (range_with_len 0 (length seats.items)) }
{
    let mut all = room;
    let mut senders = senders.into_iter();
    for seat in seats {
        let Some(posts) = senders.next() else {
            unreachable!()
        };
        let (size, _) = places.part(all.len() as u8);
        let viewer = Viewer {
            seat,
            epoch: 0,
            size,
        };
        all.push_reserved(TaskSeat { viewer, posts });
    }
    all
}

/// Opens a project. Returns a conductor, whose core has opened it and which has published nothing yet, and the seats of the
/// eight tasks, task i's at index i. The posts of a seat come in at the conductor's ring of its task. A seat has the output
/// bytes of the opening, and has posted nothing yet. It makes all allocations except those for later events and changes. Fails
/// with one of these; then the project is dropped:
///
/// - `TooManyDatagrams`: a task of the opening line needs more than 16 datagrams. The lowest such task is returned.
/// - `Memory`: an allocation failed.
/// - `NoSeat`: the published copies gave no seat.
pub fn open<R: Wait>(
    rt: &R,
    alloc: Global,
    project: Project,
) -> Result<(Conductor, Vec<TaskSeat>), OpenFault>
    ensures core { IfOk result (λ opened. opened.0.core ≡ record { history = just_opened project; taken = just_opened project }) }
    ensures lists { IfOk result (λ opened. (conductor_published opened.0 ≡ []) × (conductor_pending opened.0 ≡ []) × (opened.0.waiting ≡ [])) }
    ensures groups { IfOk result (λ opened. (conductor_origin opened.0).groups ≡ project) }
    ensures tasks { IfOk result (λ opened. map inner.task_of (map seat_of opened.1.items) ≡ range_with_len 0 TASKS) }
    ensures fresh { IfOk result (λ opened. All (SeatIsAtOpening (conductor_origin opened.0)) (map seat_of opened.1.items)) }
    ensures rings { IfOk result (λ opened. AreEnds (map sender opened.1.items) opened.0.rings) }
    ensures unused { IfOk result (λ opened. All IsUnused (map sender opened.1.items)) }
    ensures whole { IfOk result (λ opened. EachRing LostNoBuffer (map sender opened.1.items) opened.0.rings) }
    ensures epochs { IfOk result (λ opened. All (λ seat. seat_epoch seat ≡ 0) opened.1.items) }
    ensures sizes { IfOk result (λ both. map outputs_size both.1.items ≡ map (output_bytes (table_of (line (opened project)))) (range_with_len 0 TASKS)) }
    ensures openable { OnOk result (IsOpenable project) }
    ensures refused { IfErr result (IsOpenFault project) }
{
    let core = core_of(alloc, project)?;
    let room = Vec::with_capacity(alloc, usize::from(TASKS))?;
    let (senders, rings) = rings(alloc)?;
    let (publisher, seats) = hc_publish::open(rt, alloc, core.plan())?;
    let seats = task_seats(room, seats, senders, core.plan().places());
    let conductor = Conductor {
        core,
        publisher,
        waiting: Vec::new(alloc),
        rings,
    };
    Ok((conductor, seats))
}
