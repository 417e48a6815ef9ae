//! Reads of a task's image.
ghost use Rattle.std.specs.Prelude.{◌≡◌, ◌≢◌, ◌+◌, ◌*◌, ◌^◌, ◌<◌, ◌≤◌, ◌++◌, All, IfSome, None, drop, is_some, length};
ghost use Rattle.std.specs.Option.{option_copied};
ghost use Rattle.hc_records.specs.declared.limits.TheConstants.{MOST_DATAGRAMS};
ghost use Rattle.hc_places.specs.Ranges.{IsDatagram};
ghost use Rattle.hc_events.specs.Points.{line_of};
ghost use Rattle.hc_c.specs.Lists.{put_first};
ghost use Rattle.hc_c.specs.Pieces.{HaveLengths};
ghost use Rattle.hc_c.specs.Reads.{HoldsImage, HoldsTask, ReadsTask, bit_mask, data_or_zeros, fit_number, have_data, image_from, image_out, image_size, read_number, serials_from, serials_read};
ghost use Rattle.hc_c.specs.States.{count_since};
ghost use Rattle.hc_c.specs.Handles.{HoldsAsBefore, IfAnswered, IfServedWith, no_line_number};

use crate::handle::{Handle, with_line};
use crate::numbers::{DONE, ROOM};
use crate::states::{first_serial, is_since, state_number};
use crate::widths::{in_16_bits, in_32_bits};
use hc_core::keeping::Core;
use hc_events::faults::CoreFault;
use hc_places::table::Datagram;
use hc_records::limits::TASKS;

/// The image of a task, in C.
#[repr(C)]
#[derive(Clone, Copy)]
pub struct Image {
    /// The first serial of the task's last sending, 0 before one.
    first_serial: u64,
    /// The present epoch.
    epoch: u32,
    /// The epoch of the last edit that changed the task, 0 if none did. The places of the data are those since then.
    task_epoch: u32,
    /// The size of the image in bytes, outputs and inputs, at most 23,776.
    size: u32,
    /// The number of the task's datagrams, at most 16.
    datagrams: u16,
    /// Bit d is 1 if datagram d has data.
    has: u16,
    /// `COMPLETE`, `INCOMPLETE` or `NO_DATA`: how far the data answer the task's last sending.
    state: u8,
    reserved: [u8; 7],
}

/// Returns the bytes of a task's datagrams. A task has at most 16, which bounds the recursion.
fn image_size(datagrams: &[Datagram]) -> usize
    requires few { length datagrams.now ≤ MOST_DATAGRAMS }
    requires ranges { All IsDatagram datagrams.now }
    ensures size { result ≡ image_size datagrams.now }
    ensures most { result ≤ 1486 * length datagrams.now }
{
    let Some((first, rest)) = datagrams.split_first() else {
        return 0;
    };
    usize::from(first.length) + image_size(rest)
}

/// Writes the data of a datagram, or zeros if it has none.
fn put_slot(slot: Option<&[u8]>, out: &mut [u8])
    requires { IfSome (option_copied slot) (λ bytes. length bytes ≡ length out.old) }
    ensures { out.new ≡ data_or_zeros (length out.old) (option_copied slot.entry) }
{
    match slot {
        Some(bytes) => out.copy_from_slice(bytes),
        None => out.fill(0),
    }
}

/// Writes the data of these datagrams of a task one after another. There are at most 16, which bounds the recursion.
fn put_data(core: &Core, task: u8, number: u8, datagrams: &[Datagram], out: &mut [u8])
    requires task { task < TASKS }
    requires few { number + length datagrams.now ≤ MOST_DATAGRAMS }
    requires lengths { HaveLengths (line_of core.now.history) task number datagrams.now }
    requires room { image_size datagrams.now ≤ length out.old }
    ensures { out.new ≡ image_from core.now.history task number datagrams.now ++ drop (image_size datagrams.now) out.old }
{
    let Some((first, rest)) = datagrams.split_first() else {
        return;
    };
    let (own, others) = out.split_at_mut(usize::from(first.length));
    put_slot(core.steady_data(task, number), own);
    put_data(core, task, number + 1, rest, others);
}

/// Returns a bit for each of these datagrams of a task, 1 if it has data; the first one's bit is the least significant. There
/// are at most 16, which bounds the recursion.
fn mask(core: &Core, task: u8, number: u8, datagrams: &[Datagram]) -> u16
    requires task { task < TASKS }
    requires few { number + length datagrams.now ≤ MOST_DATAGRAMS }
    ensures mask { result ≡ bit_mask (have_data core.now.history task number (length datagrams.now)) }
    ensures below { result < 2 ^ length datagrams.now }
{
    match datagrams {
        [] => 0,
        [_, rest @ ..] => {
            let own = u16::from(core.steady_data(task, number).is_some());
            own + 2 * mask(core, task, number + 1, rest)
        }
    }
}

/// Writes the serial of each of these datagrams of a task, as many as fit. There are at most 16, which bounds the recursion.
fn put_serials(core: &Core, task: u8, number: u8, datagrams: &[Datagram], serials: &mut [u64])
    requires task { task < TASKS }
    requires few { number + length datagrams.now ≤ MOST_DATAGRAMS }
    ensures { serials.new ≡ put_first (serials_from core.now.history task number (length datagrams.now)) serials.old }
{
    let Some((_, rest)) = datagrams.split_first() else {
        return;
    };
    let Some((first, others)) = serials.split_first_mut() else {
        return;
    };
    *first = core.steady_serial(task, number).unwrap_or(0);
    put_serials(core, task, number + 1, rest, others);
}

/// Counts these datagrams of a task whose data answer a serial or a later one. There are at most 16, which bounds the
/// recursion.
fn count_since(core: &Core, task: u8, number: u8, datagrams: &[Datagram], first: u64) -> u8
    requires task { task < TASKS }
    requires few { number + length datagrams.now ≤ MOST_DATAGRAMS }
    ensures count { result ≡ count_since first (serials_read core.now.history task number (length datagrams.now)) }
    ensures most { result ≤ length datagrams.now }
{
    match datagrams {
        [] => 0,
        [_, rest @ ..] => {
            let own = u8::from(is_since(first, core.steady_serial(task, number)));
            own + count_since(core, task, number + 1, rest, first)
        }
    }
}

/// Returns the C form of a task's image beside its data. The task's last sending begins with a serial.
fn image_out(core: &Core, task: u8, datagrams: &[Datagram], first: u64) -> Image
    requires task { task < TASKS }
    requires few { length datagrams.now ≤ MOST_DATAGRAMS }
    requires ranges { All IsDatagram datagrams.now }
    ensures { result ≡ image_out core.now.history task datagrams.now first }
{
    let since = count_since(core, task, 0, datagrams, first);
    Image {
        first_serial: first,
        epoch: core.plan().epoch(),
        task_epoch: core.task_epoch(task),
        size: in_32_bits(image_size(datagrams)),
        datagrams: in_16_bits(datagrams.len()),
        has: mask(core, task, 0, datagrams),
        state: state_number(usize::from(since), datagrams.len()),
        reserved: [0; 7],
    }
}

/// Writes the image of a task from its datagrams. Returns `DONE`, or `ROOM` if `out` is too short.
fn give_slots(
    core: &Core,
    task: u8,
    datagrams: &[Datagram],
    first: u64,
    out: &mut [u8],
    serials: &mut [u64],
    image: &mut Image,
) -> u8
    requires task { task < TASKS }
    requires few { length datagrams.now ≤ MOST_DATAGRAMS }
    requires ranges { All IsDatagram datagrams.now }
    requires lengths { HaveLengths (line_of core.now.history) task 0 datagrams.now }
    ensures number { result ≡ fit_number (image_size datagrams.now) (length out.old) }
    ensures image { result ≡ DONE → HoldsImage core.now.history task datagrams.now first image.new out.old out.new serials.old serials.new }
    ensures untouched { result ≢ DONE → out.new ≡ out.old }
    ensures unwritten { result ≢ DONE → (serials.new ≡ serials.old) × (image.new ≡ image.old) }
{
    let size = image_size(datagrams);
    if out.len() < size {
        return ROOM;
    }
    put_data(core, task, 0, datagrams, out);
    put_serials(core, task, 0, datagrams, serials);
    *image = image_out(core, task, datagrams, first);
    DONE
}

/// Writes an image. Returns `DONE`, `ROOM` if `out` is too short, or the number of its refusal.
fn give_image(
    core: &Core,
    task: u8,
    first: u64,
    out: &mut [u8],
    serials: &mut [u64],
    image: &mut Image,
) -> u8
    ensures number { result ≡ read_number core.now.history task (length out.old) }
    ensures image { result ≡ DONE → HoldsTask core.now.history task first image.new out.old out.new serials.old serials.new }
    ensures untouched { result ≢ DONE → out.new ≡ out.old }
    ensures unwritten { result ≢ DONE → (serials.new ≡ serials.old) × (image.new ≡ image.old) }
{
    if task >= TASKS {
        return CoreFault::NoSuchTask.number();
    }
    let datagrams = core.plan().places().datagrams(task);
    give_slots(core, task, datagrams, first, out, serials, image)
}

/// Reads the image of a task: for each datagram the data of its last good answer since the last edit that changed the task, or
/// none (this project's profile). Returns `DONE`. It allocates nothing and changes nothing.
///
/// `out` begins with the image, outputs and inputs: the data of each datagram at its offset, and zeros for one without data.
/// `serials` begins with a serial for each datagram, in their order and as many as fit: that of the frame which its data
/// answer, 0 if it has none. `image.has` has a bit for each datagram with data, and `image.state` says how far the data answer
/// the task's last sending.
///
/// Fails with the first of these; then `out`, `serials` and `image` are unchanged:
///
/// - `BUSY`, `CLOSED` or `MISUSED`.
/// - `NoSuchTask`, 8: the task is over 7.
/// - `ROOM`: `out` is shorter than the image. 23,776 bytes are always enough.
#[unsafe(no_mangle)]
pub extern "C" fn zangjulf_read(
    handle: &mut Handle,
    task: u8,
    out: &mut [u8],
    serials: &mut [u64],
    image: &mut Image,
) -> u8
    ensures answer { IfAnswered handle.old result (λ history. result ≡ read_number history task (length out.old)) }
    ensures unchanged { HoldsAsBefore handle.old handle.new }
    ensures image { IfServedWith DONE handle.old result (λ old. ReadsTask old task image.new out.old out.new serials.old serials.new) }
    ensures untouched { result ≢ DONE → out.new ≡ out.old }
    ensures unwritten { result ≢ DONE → (serials.new ≡ serials.old) × (image.new ≡ image.old) }
    ensures closed { handle.old.holding.value ≡ None → result ≡ no_line_number handle.old.mark }
{
    with_line!(handle, |own| {
        let first = first_serial(&own.sent_from, task);
        give_image(&own.core, task, first, out, serials, image)
    })
}
