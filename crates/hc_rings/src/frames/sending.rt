//! The sending end of a ring of frames.
ghost use Rattle.std.specs.Prelude.{◌≡◌, ◌≤◌, [], ◌∷◌, ◌++◌, length, OnOk, OnErr, IfErr};
ghost use Rattle.hc_rings.specs.Frames.{frames_sent, frame_room, SameFrameSender};

use super::{FrameBox, FrameSender};
use rtrb::PushError;

impl FrameSender {
    /// Sends a frame, or returns it if no place is found. That occurs only after as many frames were sent as the ring's
    /// capacity.
    pub fn send(&mut self, frame: FrameBox) -> Result<(), FrameBox>
        ensures ring { SameFrameSender self.old self.new }
        ensures ok { OnOk result (frames_sent self.new ≡ frames_sent self.old ++ frame ∷ []) }
        ensures back { IfErr result (λ back. (back ≡ frame) × (frames_sent self.new ≡ frames_sent self.old)) }
        ensures back_only_after_room { OnErr result (frame_room self.old ≤ length (frames_sent self.old)) }
    {
        match self.ring.push(frame) {
            Ok(()) => Ok(()),
            Err(PushError::Full(frame)) => Err(frame),
        }
    }
}
