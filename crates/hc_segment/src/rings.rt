//! Frames between threads, each waited for.
ghost use Rattle.std.specs.Prelude.{◌≡◌, ◌+◌, [], ◌∷◌, ◌++◌, IfOk, vec_len};
ghost use Rattle.hc_rings.specs.Frames.{AreFrameEnds, SameFrameReceiver, SameFrameSender, frames_sent, frames_taken};

use hc_rings::{FrameBox, FrameReceiver, FrameSender, frame_ring};
use std::alloc::{AllocError, Global};
use std::sync::Wait;
use std::thread;

/// Waits for the next frame.
pub(crate) fn take_waiting<R: Wait>(rt: &R, from: &mut FrameReceiver) -> FrameBox
    ensures taken { frames_taken from.new ≡ frames_taken from.old ++ result ∷ [] }
    ensures ring { SameFrameReceiver from.old from.new }
{
    for _ in rt.forever() {
        if let Some(frame) = from.take() {
            return frame;
        }
        thread::yield_now();
    }
    unreachable!()
}

/// Waits until the frame is sent.
pub(crate) fn send_waiting<R: Wait>(rt: &R, to: &mut FrameSender, frame: FrameBox)
    ensures sent { frames_sent to.new ≡ frames_sent to.old ++ frame ∷ [] }
    ensures ring { SameFrameSender to.old to.new }
{
    let mut frame = frame;
    for _ in rt.forever() {
        match to.send(frame) {
            Ok(()) => return,
            Err(back) => frame = back,
        }
        thread::yield_now();
    }
    unreachable!()
}

/// Both ends of a ring through which nothing went yet.
#[derive(Drop)]
pub(crate) struct Seam {
    pub(crate) sender: FrameSender,
    pub(crate) receiver: FrameReceiver,
    ghost pair: { AreFrameEnds sender receiver },
    ghost unused: { (frames_sent sender ≡ []) × (frames_taken receiver ≡ []) },
}

impl Seam {
    /// A ring with room for `room` frames.
    pub(crate) fn new(alloc: Global, room: u32) -> Result<Seam, AllocError> {
        let (sender, receiver) = frame_ring(alloc, room)?;
        Ok(Seam { sender, receiver })
    }
}

/// Returns `count` seams.
pub(crate) fn seams_of(alloc: Global, count: usize, room: u32) -> Result<Vec<Seam>, AllocError>
    ensures { IfOk result (λ seams. vec_len seams ≡ count) }
{
    let mut seams = Vec::new(alloc);
    for _ in 0..count {
        seams.push(Seam::new(alloc, room)?)?;
    }
    Ok(seams)
}
