//! Opening of a ring of frames.
ghost use Rattle.std.specs.Prelude.{◌≡◌, [], IfOk};
ghost use Rattle.hc_rings.specs.Frames.{frames_sent, frame_room, frames_taken, frames_left, AreFrameEnds};

use super::{FrameReceiver, FrameSender};
use rtrb::RingBuffer;
use std::alloc::{AllocError, Global};

/// Returns the two ends of a ring with a capacity of `room` frames. It allocates all the memory that the ring needs; no later
/// call of the two ends allocates. `AllocError` if an allocation fails, or if `rtrb` makes no such ring.
pub fn frame_ring(alloc: Global, room: u32) -> Result<(FrameSender, FrameReceiver), AllocError>
    ensures ends { IfOk result (λ r. AreFrameEnds r.0 r.1) }
    ensures sender { IfOk result (λ r. (frames_sent r.0 ≡ []) × (frame_room r.0 ≡ room)) }
    ensures receiver { IfOk result (λ r. (frames_taken r.1 ≡ []) × (frames_left r.1 ≡ [])) }
{
    let (frames_in, frames_out) = RingBuffer::new(alloc, room as usize)?;
    Ok((
        FrameSender { ring: frames_in },
        FrameReceiver { ring: frames_out },
    ))
}
