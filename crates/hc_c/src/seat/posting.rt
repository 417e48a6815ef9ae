//! Posts of a task's thread at its seat.
ghost use Rattle.std.specs.Prelude.{◌≡◌, ◌≢◌, ◌≤◌, IfSome, None, is_some, length};
ghost use Rattle.hc_c.specs.Handles.{no_line_number};
ghost use Rattle.hc_c.specs.SeatRoom.{image_room, post_room};
ghost use Rattle.hc_c.specs.Seats.{Posts, PostsAt, SeatAsBefore, is_current_image, post_number, seat_fault};

use crate::numbers::{CLOSED, DONE, MISUSED};
use crate::seat::ends::{TaskEnd, TaskPosts};
use crate::seat::handle::SeatHandle;
use hc_events::faults::CoreFault;
use hc_mail::image::LineState;
use hc_mail::viewed::ViewedImage;

/// Returns why outputs cannot be posted for an epoch beside an image, or `None` if they can.
fn refusal(image: &ViewedImage, epoch: u32, bytes: &[u8]) -> Option<CoreFault>
    requires { image.now.image.room ≡ image_room }
    ensures fault { result ≡ seat_fault image.now.image epoch bytes.now }
    ensures most { result ≡ None → length bytes.now ≤ post_room.0 }
{
    let head = image.head();
    if epoch < head.task_epoch || head.epoch < epoch {
        return Some(CoreFault::StalePost);
    }
    if bytes.len() != image.outputs().len() {
        return Some(CoreFault::PostLength);
    }
    None
}

/// Posts outputs for an epoch, and returns the post's number.
fn post_bytes(posts: &mut TaskPosts, epoch: u32, bytes: &[u8]) -> u64
    requires { length bytes.now ≤ post_room.0 }
    ensures { PostsAt epoch bytes.now result posts.old posts.new }
{
    posts.last.write(epoch, bytes);
    posts.sender.write(epoch, bytes);
    posts.sender.send()
}

/// Returns whether an image says that the line is open and the seat not replaced.
fn is_current(image: &ViewedImage) -> bool
    ensures { result ≡ is_current_image image.now.image }
{
    match image.head().line {
        LineState::Open => true,
        LineState::Closed | LineState::Replaced => false,
    }
}

/// Returns the answer to a post at a seat: `DONE`, or why nothing is posted.
fn answer_of(end: &TaskEnd, epoch: u32, bytes: &[u8]) -> u8
    ensures answer { result ≡ post_number end.now epoch bytes.now }
    ensures most { result ≡ DONE → length bytes.now ≤ post_room.0 }
{
    if end.posts.is_none() {
        return MISUSED;
    }
    let image = end.images.content();
    if !is_current(image) {
        return CLOSED;
    }
    match refusal(image, epoch, bytes) {
        Some(fault) => fault.number(),
        None => DONE,
    }
}

/// Posts all outputs of the seat's task for an epoch, which may be any from the task's epoch to the viewed image's: as many
/// bytes as that image has outputs (this project's profile). The post replaces the one that waits, and waits until the owner
/// takes it. It allocates nothing and waits for nobody. Returns `DONE`, and `number` is the post's number; the posts of a seat
/// are numbered from 1. Fails with the first of these; then nothing is posted:
///
/// - `CLOSED` or `MISUSED`: the seat is closed, or its handle was never zeroed.
/// - `MISUSED`: the seat only looks.
/// - `CLOSED`: the viewed image says that the line is closed, or that the seat is replaced.
/// - `STALE_POST`, 15: the epoch is another one.
/// - `PostLength`, 16: the image has another number of output bytes.
#[unsafe(no_mangle)]
pub extern "C" fn zangjulf_seat_post(
    seat: &mut SeatHandle,
    epoch: u32,
    bytes: &[u8],
    number: &mut u64,
) -> u8
    ensures answer { IfSome seat.old.holding.value (λ old. result ≡ post_number old epoch bytes.now) }
    ensures posted { result ≡ DONE → IfSome seat.old.holding.value (λ old. IfSome seat.new.holding.value (Posts epoch bytes.now number.new old)) }
    ensures held { is_some seat.new.holding.value ≡ is_some seat.old.holding.value }
    ensures unchanged { result ≢ DONE → SeatAsBefore seat.old seat.new × (number.new ≡ number.old) }
    ensures closed { seat.old.holding.value ≡ None → result ≡ no_line_number seat.old.mark }
{
    if !seat.is_open() {
        return seat.refusal();
    }
    let end = seat.holding.end_mut();
    let answer = answer_of(end, epoch, bytes);
    if answer != DONE {
        return answer;
    }
    match &mut end.posts {
        Some(posts) => {
            *number = post_bytes(posts, epoch, bytes);
            DONE
        }
        None => MISUSED,
    }
}
