//! Posts of the axis' task, one byte of outputs, by its seat.
ghost use Rattle.std.specs.Prelude.{◌≡◌};
ghost use Rattle.hc_rings.specs.Ring.{SameSender};
ghost use Rattle.hc_conductor.specs.Seats.{SeatPostsEach, task_seat_origin, sender};

use hc_conductor::seat::TaskSeat;
use hc_conductor::taking::Taken;
use hc_rings::{NoSpare, PostFault};

/// The cause for which a byte is not posted.
#[derive(Clone, Copy, Debug, PartialEq, Eq)]
pub enum Unposted {
    /// No buffer is free.
    NoSpare,
    /// The held outputs are not one byte that is 0.
    NotBlank,
    /// The post is not made.
    Fault(PostFault),
}

/// Holds outputs, one byte that must be 0, and fills them with this byte.
pub fn lends(seat: &mut TaskSeat, byte: u8) -> Result<(), Unposted> {
    match seat.outputs() {
        Ok(outputs) => {
            let is_blank = &*outputs == [0].as_slice();
            outputs.fill(byte);
            if is_blank {
                Ok(())
            } else {
                Err(Unposted::NotBlank)
            }
        }
        Err(NoSpare) => Err(Unposted::NoSpare),
    }
}

/// Posts one byte.
pub fn post(seat: &mut TaskSeat, byte: u8) -> Result<(), Unposted> {
    lends(seat, byte)?;
    seat.post().map_err(Unposted::Fault)
}

/// Posts outputs, each byte as this one. True if the post is made.
pub fn is_posted(seat: &mut TaskSeat, byte: u8) -> bool
    ensures origin { task_seat_origin seat.new ≡ task_seat_origin seat.old }
    ensures ring { SameSender (sender seat.old) (sender seat.new) }
    ensures each { SeatPostsEach seat.old → SeatPostsEach seat.new }
{
    if seat.hold().is_err() {
        return false;
    }
    seat.held_mut().fill(byte);
    seat.post().is_ok()
}

/// Returns the count of `posts` accepted posts, none refused.
pub fn accepted(posts: u32) -> Taken {
    Taken {
        accepted: posts,
        refused: 0,
    }
}
