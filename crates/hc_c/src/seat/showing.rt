//! Images that the owner shows to the seats.
ghost use Rattle.std.specs.Prelude.{◌≡◌, ◌≢◌, ◌+◌, ◌≤◌, ◌<◌, IfSome, None, false, length, take};
ghost use Rattle.std.specs.Option.{option_copied};
ghost use Rattle.hc_records.specs.declared.limits.TheConstants.{MOST_DATAGRAMS, TASKS};
ghost use Rattle.hc_records.specs.Image.{datagram_count, task_places};
ghost use Rattle.hc_events.specs.Points.{line_of};
ghost use Rattle.hc_mail.specs.Images.{with_outputs};
ghost use Rattle.hc_c.specs.Handles.{HoldsAsBefore, no_line_number};
ghost use Rattle.hc_c.specs.Pieces.{HaveLengths};
ghost use Rattle.hc_c.specs.Reads.{image_size};
ghost use Rattle.hc_c.specs.SeatEnds.{has_seat_from};
ghost use Rattle.hc_c.specs.SeatImages.{SendsImage, Shows, ShowsAll, ShowsEnds, ShowsLooker, ShowsLookers, head_shown, image_shown, sent_from, with_slot, with_slots};
ghost use Rattle.hc_c.specs.SeatRoom.{image_room};
ghost use Rattle.hc_c.specs.Seats.{ShowsLine};
ghost use Rattle.hc_c.specs.declared.numbers.TheConstants.{BUSY};

use crate::handle::{Handle, with_line};
use crate::looking::part_at;
use crate::numbers::DONE;
use crate::seat::ends::{OwnerEnd, OwnerEnds};
use crate::seat::lookers::{LookerEnd, Lookers};
use hc_core::keeping::Core;
use hc_mail::image::{ImageHead, LineState, TaskImage};
use hc_mail::sender::Sender;
use hc_places::table::Datagram;
use hc_records::limits::TASKS;

/// Adds a datagram of `size` bytes to the image, with its data and the serial that they answer, if it has some.
fn add_slot(images: &mut Sender<TaskImage>, slot: Option<&[u8]>, serial: Option<u64>, size: usize)
    requires fits { IfSome (option_copied slot) (λ bytes. length bytes ≡ size) }
    requires bytes { length images.old.own.bytes + size ≤ images.old.own.room.0 }
    requires datagrams { length images.old.own.serials < images.old.own.room.1 }
    ensures own { images.new.own ≡ with_slot size (option_copied slot.entry) serial images.old.own }
    ensures unsent { images.new.place ≡ images.old.place }
{
    match slot {
        Some(bytes) => images.add(bytes, serial.unwrap_or(0)),
        None => images.add_zeros(size),
    }
}

/// Adds the datagrams of a task from a number on to the image. A task has at most 16, which bounds the recursion.
fn add_slots(
    core: &Core,
    task: u8,
    number: u8,
    datagrams: &[Datagram],
    images: &mut Sender<TaskImage>,
)
    requires task { task < TASKS }
    requires few { number + length datagrams.now ≤ MOST_DATAGRAMS }
    requires lengths { HaveLengths (line_of core.now.history) task number datagrams.now }
    requires bytes { length images.old.own.bytes + image_size datagrams.now ≤ images.old.own.room.0 }
    requires room { length images.old.own.serials + length datagrams.now ≤ images.old.own.room.1 }
    ensures own { images.new.own ≡ with_slots core.now.history task number datagrams.now images.old.own }
    ensures unsent { images.new.place ≡ images.old.place }
{
    let Some((first, rest)) = datagrams.split_first() else {
        return;
    };
    let slot = core.steady_data(task, number);
    let serial = core.steady_serial(task, number);
    add_slot(images, slot, serial, usize::from(first.length));
    add_slots(core, task, number + 1, rest, images);
}

/// Returns the first bytes, at most `size`.
fn front(bytes: &[u8], size: usize) -> &[u8]
    ensures { result.now ≡ take size bytes.now }
{
    if bytes.len() <= size {
        bytes
    } else {
        &bytes[..size]
    }
}

/// Adds at most `size` of the bytes with which these datagrams of a task would be sent to the image's outputs. There are at
/// most 16, which bounds the recursion.
fn add_outputs(
    core: &Core,
    task: u8,
    number: u8,
    datagrams: &[Datagram],
    size: usize,
    images: &mut Sender<TaskImage>,
)
    requires count { number + length datagrams.now ≡ datagram_count (task_places task (line_of core.now.history)) }
    requires few { number + length datagrams.now ≤ MOST_DATAGRAMS }
    requires lengths { HaveLengths (line_of core.now.history) task number datagrams.now }
    requires room { length images.old.own.outputs + image_size datagrams.now ≤ images.old.own.room.0 }
    ensures own { images.new.own ≡ with_outputs (take size (sent_from core.now.history task number datagrams.now)) images.old.own }
    ensures unsent { images.new.place ≡ images.old.place }
{
    let Some((_, rest)) = datagrams.split_first() else {
        return;
    };
    let sent = core.outputs(task, number);
    images.add_outputs(front(sent, size));
    let left = size.saturating_sub(sent.len());
    add_outputs(core, task, number + 1, rest, left, images);
}

/// Returns the head of a task's image, which is all but its data. The task's last sending begins with the serial `first`, and
/// the post that was taken last has the number `taken`.
pub fn head_of(
    core: &Core,
    task: u8,
    first: u64,
    taken: u64,
    is_refused: bool,
    line: LineState,
) -> ImageHead
    requires { task < TASKS }
    ensures { result ≡ head_shown core.now.history task first taken is_refused line }
{
    let plan = core.plan();
    ImageHead {
        epoch: plan.epoch(),
        task_epoch: core.task_epoch(task),
        first_serial: first,
        taken,
        is_refused,
        line,
    }
}

/// Sends an image of a task with this head: its inputs and its outputs.
pub fn send_image(core: &Core, task: u8, head: ImageHead, images: &mut Sender<TaskImage>)
    requires task { task < TASKS }
    requires room { images.old.own.room ≡ image_room }
    ensures { SendsImage (image_shown core.now.history task head) images.old images.new }
{
    let plan = core.plan();
    let places = plan.places();
    let datagrams = places.datagrams(task);
    let (outputs, _) = part_at(core, task);
    images.begin(head);
    add_slots(core, task, 0, datagrams, images);
    add_outputs(core, task, 0, datagrams, usize::from(outputs), images);
    images.send();
}

/// Shows a task's seat an image. The task's last sending begins with the serial `first`.
pub fn show_end(core: &Core, task: u8, first: u64, line: LineState, end: &mut OwnerEnd)
    requires { task < TASKS }
    ensures { Shows core.now.history task first line end.old end.new }
{
    let head = head_of(core, task, first, end.posts.number(), end.is_refused, line);
    send_image(core, task, head, &mut end.images);
}

/// Shows an image to the seat of each task from a number on; tasks beyond the list have no seat. `sent_from` has the first
/// serial of each task's last sending. There are at most eight, which bounds the recursion.
fn show_all(
    core: &Core,
    sent_from: &[u64; 8],
    line: LineState,
    task: u8,
    count: u8,
    ends: &mut [Option<OwnerEnd>],
)
    requires tasks { task + length ends.old ≤ TASKS }
    requires none { has_seat_from count ends.old ≡ false }
    ensures shown { ShowsAll core.now.history sent_from.now line task ends.old ends.new }
    ensures none { has_seat_from count ends.new ≡ false }
{
    if count == 0 {
        return;
    }
    let Some((first, rest)) = ends.split_first_mut() else {
        return;
    };
    if let Some(end) = first {
        show_end(core, task, sent_from[usize::from(task)], line, end);
    }
    show_all(core, sent_from, line, task + 1, count - 1, rest);
}

/// Shows a seat that only looks an image of its task.
pub fn show_looker(core: &Core, sent_from: &[u64; 8], line: LineState, end: &mut LookerEnd)
    ensures { ShowsLooker core.now.history sent_from.now line end.old end.new }
{
    let first = sent_from[usize::from(end.task)];
    let head = head_of(core, end.task, first, 0, false, line);
    send_image(core, end.task, head, &mut end.images);
}

/// Shows each of these seats that only look an image of its task. There are at most 64, which bounds the recursion.
fn show_lookers_of(
    core: &Core,
    sent_from: &[u64; 8],
    line: LineState,
    ends: &mut [Option<LookerEnd>],
)
    ensures { ShowsLookers core.now.history sent_from.now line ends.old ends.new }
{
    let Some((first, rest)) = ends.split_first_mut() else {
        return;
    };
    if let Some(end) = first {
        show_looker(core, sent_from, line, end);
    }
    show_lookers_of(core, sent_from, line, rest);
}

/// Shows each seat that only looks an image of its task.
fn show_lookers(core: &Core, sent_from: &[u64; 8], line: LineState, lookers: &mut Lookers)
    ensures { ShowsLookers core.now.history sent_from.now line lookers.old lookers.new }
{
    show_lookers_of(core, sent_from, line, &mut lookers.ends);
}

/// Shows each seat of a line an image, which says what became of the line.
pub fn show_ends(core: &Core, sent_from: &[u64; 8], line: LineState, ends: &mut OwnerEnds)
    ensures { ShowsEnds core.now.history sent_from.now line ends.old ends.new }
{
    show_all(core, sent_from, line, 0, ends.used, &mut ends.by_task);
    show_lookers(core, sent_from, line, &mut ends.lookers);
}

/// Shows each seat of a line the present image of its task, as `zangjulf_read` gives it, and the task's outputs, as they would
/// be sent now. It allocates nothing and waits for nobody. Returns `DONE`. Fails with one of these; then nothing is shown:
///
/// - `CLOSED` or `MISUSED`: no line is open, or the handle was never zeroed.
/// - `BUSY`: another call with the handle runs.
#[unsafe(no_mangle)]
pub extern "C" fn zangjulf_show(handle: &mut Handle) -> u8
    ensures answer { IfSome handle.old.holding.value (λ _. result ≢ BUSY → result ≡ DONE) }
    ensures shown { result ≡ DONE → IfSome handle.old.holding.value (λ old. IfSome handle.new.holding.value (ShowsLine old)) }
    ensures unchanged { result ≢ DONE → HoldsAsBefore handle.old handle.new }
    ensures closed { handle.old.holding.value ≡ None → result ≡ no_line_number handle.old.mark }
{
    with_line!(handle, |own| {
        show_ends(&own.core, &own.sent_from, LineState::Open, &mut own.ends);
        DONE
    })
}
