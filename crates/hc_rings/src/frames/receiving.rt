//! The taking end of a ring of frames.
ghost use Rattle.std.specs.Prelude.{◌≡◌, [], ◌∷◌, ◌++◌, length, IfSome, IfNone};
ghost use mathlib.Core.List.{IsPrefix};
ghost use Rattle.hc_rings.specs.Frames.{frames_sent, frames_taken, frames_left, AreFrameEnds, SameFrameSender, SameFrameReceiver};

use super::{FrameBox, FrameReceiver, FrameSender};

impl FrameReceiver {
    /// Takes the oldest frame, or returns `None` if none is found. The sender may send at any time.
    pub fn take(&mut self) -> Option<FrameBox>
        ensures ring { SameFrameReceiver self.old self.new }

        // The taken frame is the first that was known to be left; more may be known afterwards.
        ensures some { IfSome result (λ f. frames_taken self.new ≡ frames_taken self.old ++ f ∷ []) }
        ensures first { IfSome result (λ f. IsPrefix (frames_left self.old) (f ∷ frames_left self.new)) }

        // A frame that is known to be left is taken.
        ensures none { IfNone result (frames_taken self.new ≡ frames_taken self.old) }
        ensures none_left { IfNone result ((frames_left self.old ≡ []) × (frames_left self.new ≡ [])) }
    {
        self.ring.pop().ok()
    }

    /// Returns how many frames are left, for a thread that holds both ends: the taken frames and those that are left are all
    /// that were sent.
    pub fn beside(&mut self, sender: &mut FrameSender) -> u32
        requires { AreFrameEnds sender.old self.old }
        ensures ring { SameFrameReceiver self.old self.new × SameFrameSender sender.old sender.new }
        ensures taken { (frames_taken self.new ≡ frames_taken self.old) × IsPrefix (frames_left self.old) (frames_left self.new) }
        ensures sent { frames_sent sender.new ≡ frames_sent sender.old }
        ensures split { frames_taken self.new ++ frames_left self.new ≡ frames_sent sender.new }
        ensures count { result ≡ length (frames_left self.new) }
    {
        self.ring.slots_beside(&mut sender.ring) as u32
    }
}
