//! Opening of seats that only look, for threads that read a task's images and post nothing.
ghost use Rattle.std.specs.Prelude.{◌≡◌, ◌≢◌, ◌<◌, IfOk, IfSome, IsSome, None, length};
ghost use Rattle.hc_records.specs.declared.limits.TheConstants.{TASKS};
ghost use Rattle.hc_c.specs.Handles.{HoldsAsBefore, IfServed, no_line_number};
ghost use Rattle.hc_c.specs.Seats.{AddsLooker, AnswersLooking, AreLookerEnds, SeatAsBefore};

use crate::embedded::Embedded;
use crate::handle::{Handle, with_line};
use crate::numbers::{DONE, MEMORY, MISUSED};
use crate::seat::ends::TaskEnd;
use crate::seat::handle::SeatHandle;
use crate::seat::lookers::LookerEnd;
use crate::seat::opening::open_images;
use crate::seat::showing::head_of;
use crate::states::first_serial;
use hc_core::keeping::Core;
use hc_events::faults::CoreFault;
use hc_mail::image::LineState;
use hc_records::limits::TASKS;
use std::alloc::{AllocError, Global};

/// Returns the two ends of a new seat that only looks at a task, whose last sending begins with the serial `first`.
/// `AllocError` if an allocation fails.
fn make_looker(
    alloc: Global,
    core: &Core,
    task: u8,
    first: u64,
) -> Result<(LookerEnd, Box<TaskEnd>), AllocError>
    requires { task < TASKS }
    ensures { IfOk result (λ ends. AreLookerEnds core.now.history task first ends.0 ends.1.value) }
{
    let head = head_of(core, task, first, 0, false, LineState::Open);
    let (sender, receiver) = open_images(alloc, core, task, head)?;
    let owner = LookerEnd {
        images: sender,
        task,
    };
    let end = TaskEnd {
        images: receiver,
        posts: None,
    };
    let own = Box::new(alloc, end)?;
    Ok((owner, own))
}

/// Opens a seat that only looks in a handle. Returns `DONE` or the number of the refusal.
fn open_looker(
    alloc: Global,
    own: &mut Embedded,
    number: u32,
    task: u8,
    seat: &mut SeatHandle,
) -> u8
    ensures answer { AnswersLooking seat.old.mark (length own.old.ends.lookers) number task result }
    ensures opened { result ≡ DONE → IfSome seat.new.holding.value (AddsLooker number task own.old own.new) }
    ensures open { result ≡ DONE → IsSome seat.new.holding.value }
    ensures unchanged { result ≢ DONE → (own.new ≡ own.old) × SeatAsBefore seat.old seat.new }
{
    let number = number as usize;
    if seat.mark != 0 || number >= own.ends.lookers.count() {
        return MISUSED;
    }
    if task >= TASKS {
        return CoreFault::NoSuchTask.number();
    }
    let first = first_serial(&own.sent_from, task);
    let Ok((owner, end)) = make_looker(alloc, &own.core, task, first) else {
        return MEMORY;
    };
    drop(
        own.ends
            .place_looker(&own.core, &own.sent_from, number, owner),
    );
    *seat = SeatHandle::of(end);
    DONE
}

/// Opens a seat that only looks at a task, 0 to 7, in a closed handle, and shows it a first image. `number` is below the number
/// of such seats in the line's options. It allocates all memory that the seat ever needs. If the number had a seat, that one is
/// shown a last image, which says that it is replaced. Returns `DONE`. Fails with one of these; then line and seat are
/// unchanged:
///
/// - `CLOSED` or `MISUSED`: no line is open, or its handle was never zeroed.
/// - `BUSY`: another call with the line's handle runs.
/// - `MISUSED`: the seat is open, its handle was never zeroed, or the line was opened for fewer such seats.
/// - `NoSuchTask`, 8: the task is over 7.
/// - `MEMORY`: an allocation failed.
#[unsafe(no_mangle)]
pub extern "C" fn zangjulf_look_open(
    alloc: Global,
    handle: &mut Handle,
    number: u32,
    task: u8,
    seat: &mut SeatHandle,
) -> u8
    ensures answer { IfServed handle.old result (λ old. AnswersLooking seat.old.mark (length old.ends.lookers) number task result) }
    ensures opened { result ≡ DONE → IfSome handle.old.holding.value (λ old. IfSome handle.new.holding.value (λ new. IfSome seat.new.holding.value (AddsLooker number task old new))) }
    ensures open { result ≡ DONE → IsSome handle.new.holding.value × IsSome seat.new.holding.value }
    ensures unchanged { result ≢ DONE → HoldsAsBefore handle.old handle.new × SeatAsBefore seat.old seat.new }
    ensures closed { handle.old.holding.value ≡ None → result ≡ no_line_number handle.old.mark }
{
    with_line!(handle, |own| open_looker(alloc, own, number, task, seat))
}
