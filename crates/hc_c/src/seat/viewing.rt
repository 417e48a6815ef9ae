//! Views of a task's thread: the newest image of its seat, and outputs to begin with.
ghost use Rattle.std.specs.Prelude.{◌≡◌, ◌≢◌, ◌+◌, ◌*◌, ◌^◌, ◌<◌, ◌≤◌, ◌++◌, if◌then◌else◌, IfSome, None, ℕ, Option, drop, is_some, length, map};
ghost use Rattle.hc_records.specs.declared.limits.TheConstants.{MOST_DATAGRAMS};
ghost use Rattle.hc_mail.specs.Contents.{counted};
ghost use Rattle.hc_c.specs.Handles.{no_line_number};
ghost use Rattle.hc_c.specs.Lists.{put_first};
ghost use Rattle.hc_c.specs.Reads.{fit_number, bit_mask};
ghost use Rattle.hc_c.specs.SeatRoom.{image_room};
ghost use Rattle.hc_c.specs.Seats.{GivesImage, GivesNewest, LooksOn, SeatAsBefore, at_hand, fits_image, line_number, mask_from, outputs_beside, outputs_begun, serials_answered, view_of};

use crate::numbers::{DONE, ROOM};
use crate::seat::ends::{TaskEnd, TaskPosts};
use crate::seat::handle::SeatHandle;
use crate::states::task_state;
use crate::widths::{in_16_bits, in_32_bits};
use hc_mail::image::LineState;
use hc_mail::post::TaskPost;
use hc_mail::viewed::ViewedImage;

/// The image that a seat views, in C.
#[repr(C)]
#[derive(Clone, Copy)]
pub struct SeatView {
    /// The number of images that the seat was shown, this one included.
    showing: u64,
    /// The first serial of the task's last sending, 0 before one.
    first_serial: u64,
    /// The number of the seat's post that was taken last when the image was shown, 0 before the first.
    taken: u64,
    /// The line's epoch when the image was shown.
    epoch: u32,
    /// The epoch of the last edit that had changed the task when the image was shown, 0 if none had.
    task_epoch: u32,
    /// The size of the task's image in bytes, at most 23,776.
    size: u32,
    /// The bytes of the task's outputs, which come first.
    outputs: u32,
    /// The number of the task's datagrams, at most 16.
    datagrams: u16,
    /// Bit d is 1 if datagram d has data.
    has: u16,
    /// `COMPLETE`, `INCOMPLETE` or `NO_DATA`: how far the data answer the task's last sending.
    state: u8,
    /// The state of the line and the seat when the image was shown.
    line: u8,
    /// 1 if the post that was taken last was refused.
    is_refused: u8,
    /// 0.
    reserved: u8,
}

/// Writes bytes to the front of a slice.
fn put_front(bytes: &[u8], out: &mut [u8])
    requires { length bytes.now ≤ length out.old }
    ensures { out.new ≡ bytes.now ++ drop (length bytes.now) out.old }
{
    out[..bytes.len()].copy_from_slice(bytes);
}

/// Returns the bits of some datagrams with one more bit, if that is set.
fn with_bit(has: u32, bit: u32, is_set: bool) -> u32
    requires { has + bit ≤ 65536 }
    ensures { result ≡ has + (if is_set then bit else 0) }
{
    if is_set { has + bit } else { has }
}

/// Writes the serial of each datagram, 0 for one without data, as many as fit, and adds the bits of those with data to those
/// before; `bit` is the first one's. A task has at most 16 datagrams, which bounds the recursion.
fn put_serials(serials: &[Option<u64>], out: &mut [u64], bit: u32, has: u32) -> u32
    requires few { bit * 2 ^ length serials.now ≤ 65536 }
    requires before { has < bit }
    ensures serials { out.new ≡ put_first (serials_answered serials.now) out.old }
    ensures has { result ≡ has + mask_from bit (map is_some serials.now) }
    ensures below { result < 65536 }
{
    let Some((serial, rest)) = serials.split_first() else {
        return has;
    };
    let more = with_bit(has, bit, serial.is_some());
    match out.split_first_mut() {
        Some((first, others)) => {
            *first = serial.unwrap_or(0);
            put_serials(rest, others, 2 * bit, more)
        }
        None => put_serials(rest, &mut [], 2 * bit, more),
    }
}

/// Writes the serial of each datagram, as many as fit, and returns a bit for each, 1 if it has data; the first one's bit is the
/// least significant.
pub fn give_serials(serials: &[Option<u64>], out: &mut [u64]) -> u16
    requires { length serials.now ≤ MOST_DATAGRAMS }
    ensures serials { out.new ≡ put_first (serials_answered serials.now) out.old }
    ensures mask { result ≡ bit_mask (map is_some serials.now) }
{
    put_serials(serials, out, 1, 0) as u16
}

/// Returns the state of a line, in C.
fn line_number(line: LineState) -> u8
    ensures { result ≡ line_number line }
{
    match line {
        LineState::Open => 1,
        LineState::Closed => 2,
        LineState::Replaced => 3,
    }
}

/// Returns the C form of an image; `showing` is its number, and `has` the bits of the datagrams with data.
pub fn view_of(showing: u64, has: u16, image: &ViewedImage) -> SeatView
    requires { image.now.image.room ≡ image_room }
    ensures { (shown : ℕ) → showing ≡ counted shown → has ≡ bit_mask (map is_some image.now.image.serials) → result ≡ view_of shown image.now.image }
{
    let head = image.head();
    let serials = image.serials();
    SeatView {
        showing,
        first_serial: head.first_serial,
        taken: head.taken,
        epoch: head.epoch,
        task_epoch: head.task_epoch,
        size: in_32_bits(image.bytes().len()),
        outputs: in_32_bits(image.outputs().len()),
        datagrams: in_16_bits(serials.len()),
        has,
        state: task_state(head.first_serial, serials),
        line: line_number(head.line),
        is_refused: u8::from(head.is_refused),
        reserved: 0,
    }
}

/// Writes an image with its number. Returns `DONE`, or `ROOM` if `out` is too short.
fn give_image(
    showing: u64,
    image: &ViewedImage,
    out: &mut [u8],
    serials: &mut [u64],
    view: &mut SeatView,
) -> u8
    requires { image.now.image.room ≡ image_room }
    ensures number { result ≡ fit_number (length image.now.image.bytes) (length out.old) }
    ensures image { result ≡ DONE → (shown : ℕ) → showing ≡ counted shown → GivesImage shown image.now.image view.new out.old out.new serials.old serials.new }
    ensures untouched { result ≢ DONE → out.new ≡ out.old }
    ensures unwritten { result ≢ DONE → (serials.new ≡ serials.old) × (view.new ≡ view.old) }
{
    let bytes = image.bytes();
    if out.len() < bytes.len() {
        return ROOM;
    }
    put_front(bytes, out);
    let has = give_serials(image.serials(), serials);
    *view = view_of(showing, has, image);
    DONE
}

/// Returns whether a post was made for an epoch from an image's task epoch on, with as many bytes as the image has outputs.
fn fits_image(image: &ViewedImage, post: &TaskPost) -> bool
    ensures { result ≡ fits_image image.now.image post.now }
{
    image.head().task_epoch <= post.epoch() && post.bytes().len() == image.outputs().len()
}

/// Writes outputs. Returns `DONE`, or `ROOM` if `out` is too short.
fn give_bytes(outputs: &[u8], out: &mut [u8]) -> u8
    ensures number { result ≡ fit_number (length outputs.now) (length out.old) }
    ensures bytes { result ≡ DONE → out.new ≡ outputs.now ++ drop (length outputs.now) out.old }
    ensures untouched { result ≢ DONE → out.new ≡ out.old }
{
    if out.len() < outputs.len() {
        return ROOM;
    }
    put_front(outputs, out);
    DONE
}

/// Returns the outputs to begin with: those of the seat's own last post if it fits the image, otherwise the image's.
fn outputs_beside<'a>(image: &'a ViewedImage, posts: &'a Option<TaskPosts>) -> &'a [u8]
    ensures { result.now ≡ outputs_beside image.now.image posts.now }
{
    match posts {
        Some(posts) if fits_image(image, &posts.last) => posts.last.bytes(),
        _ => image.outputs(),
    }
}

/// Writes the outputs to begin with. Returns `DONE`, or `ROOM` if `out` is too short.
fn give_begun(end: &TaskEnd, out: &mut [u8]) -> u8
    ensures number { result ≡ fit_number (length (outputs_begun end.now)) (length out.old) }
    ensures outputs { result ≡ DONE → out.new ≡ outputs_begun end.now ++ drop (length (outputs_begun end.now)) out.old }
    ensures untouched { result ≢ DONE → out.new ≡ out.old }
{
    give_bytes(outputs_beside(end.images.content(), &end.posts), out)
}

/// Takes the newest image that the seat was shown. If none is newer than the viewed one, that stays; an older one is never
/// taken. It allocates nothing and waits for nobody. Returns `DONE`.
///
/// `out` begins with the image: the data of each datagram at its offset, and zeros for one without data. `serials` begins with
/// a serial for each datagram, in their order and as many as fit: that of the frame which its data answer, 0 if it has none.
/// `view` has the rest.
///
/// Fails with one of these; then `out`, `serials` and `view` are unchanged:
///
/// - `CLOSED` or `MISUSED`: the seat is closed, or its handle was never zeroed.
/// - `ROOM`: `out` is shorter than the image. 23,776 bytes are always enough. The image counts as viewed nevertheless.
#[unsafe(no_mangle)]
pub extern "C" fn zangjulf_seat_view(
    seat: &mut SeatHandle,
    out: &mut [u8],
    serials: &mut [u64],
    view: &mut SeatView,
) -> u8
    ensures looked { IfSome seat.old.holding.value (λ old. IfSome seat.new.holding.value (LooksOn old)) }
    ensures answer { IfSome seat.new.holding.value (λ new. result ≡ fit_number (length (at_hand new).bytes) (length out.old)) }
    ensures image { result ≡ DONE → IfSome seat.new.holding.value (λ new. GivesNewest new view.new out.old out.new serials.old serials.new) }
    ensures untouched { result ≢ DONE → out.new ≡ out.old }
    ensures unwritten { result ≢ DONE → (serials.new ≡ serials.old) × (view.new ≡ view.old) }
    ensures held { (seat.new.mark ≡ seat.old.mark) × (is_some seat.new.holding.value ≡ is_some seat.old.holding.value) }
    ensures closed { seat.old.holding.value ≡ None → result ≡ no_line_number seat.old.mark }
{
    if !seat.is_open() {
        return seat.refusal();
    }
    let end = seat.holding.end_mut();
    end.images.look();
    give_image(
        end.images.number(),
        end.images.content(),
        out,
        serials,
        view,
    )
}

/// Reads the outputs to begin with. They are those of the seat's own last post, if it was made for an epoch from the viewed
/// image's task epoch on and has as many bytes as the image has outputs. Otherwise they are the image's, as they were to be
/// sent when it was shown. It allocates nothing. Returns `DONE`: the outputs are at the front of `out`. Fails with one of
/// these; then `out` is unchanged:
///
/// - `CLOSED` or `MISUSED`: the seat is closed, or its handle was never zeroed.
/// - `ROOM`: `out` is shorter.
#[unsafe(no_mangle)]
pub extern "C" fn zangjulf_seat_outputs(seat: &mut SeatHandle, out: &mut [u8]) -> u8
    ensures answer { IfSome seat.old.holding.value (λ old. result ≡ fit_number (length (outputs_begun old)) (length out.old)) }
    ensures outputs { result ≡ DONE → IfSome seat.old.holding.value (λ old. out.new ≡ outputs_begun old ++ drop (length (outputs_begun old)) out.old) }
    ensures untouched { result ≢ DONE → out.new ≡ out.old }
    ensures unchanged { SeatAsBefore seat.old seat.new }
    ensures closed { seat.old.holding.value ≡ None → result ≡ no_line_number seat.old.mark }
{
    if !seat.is_open() {
        return seat.refusal();
    }
    let end = seat.holding.end_mut();
    give_begun(end, out)
}
