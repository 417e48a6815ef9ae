//! Frames in boxes of their own, and rings that carry them from one segment's thread to the next.
ghost use Rattle.std.specs.Prelude.{◌+◌, ◌^◌, ◌<◌, ◌≤◌, length};
ghost use Rattle.rtrb.specs.Ring.{sent, known_free, producer_capacity, consumer_capacity};

use rtrb::{Consumer, Producer};

mod frame_box;
mod opening;
mod receiving;
mod sending;

pub use frame_box::{FrameBox, LARGEST_FRAME};
pub use opening::frame_ring;

/// The end that sends. It may go to a thread of its own.
#[derive(Drop)]
pub struct FrameSender {
    ring: Producer<FrameBox>,
    // It is full only after as many frames were sent as its capacity.
    ghost places: { producer_capacity ring ≤ known_free ring + length (sent ring) },
}

/// The end that takes. It may go to a thread of its own.
#[derive(Drop)]
pub struct FrameReceiver {
    ring: Consumer<FrameBox>,
    ghost small: { consumer_capacity ring < 2 ^ 32 },
}
