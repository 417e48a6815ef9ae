//! Memory that a line allocates at its opening and that calls use again, so that no cycle allocates.
use hc_events::answer::Outcome;
use hc_events::sending::Sending;
use hc_records::slots::SLOTS;
use hc_sendings::awaited::FRAME_DATAGRAMS;
use std::alloc::{AllocError, Global};
use std::marker::Model;

/// Two lists: one for the frames of a sending, with a capacity of one for each datagram of a line, and one for the outcomes of
/// an arriving frame, with a capacity of the most datagrams of a frame. Contracts see nothing of their contents.
pub struct Spare {
    /// Frames of a sending.
    pub frames: Vec<Sending>,
    /// Outcomes of an arriving frame.
    pub outcomes: Vec<Outcome>,
}

impl Drop for Spare {
    fn drop(self) {
        let Spare {
            frames: _,
            outcomes: _,
        } = self;
    }
}

impl Model for Spare {
    ghost use Rattle.std.specs.Prelude.{◌≤◌, vec_capacity};
    ghost use Rattle.hc_records.specs.declared.slots.TheConstants.{SLOTS};
    ghost use Rattle.hc_sendings.specs.declared.awaited.TheConstants.{FRAME_DATAGRAMS};

    ghost Value = { Unit {0} };

    ghost view = { λ _. tt };

    ghost invariant = { λ spare. (SLOTS ≤ vec_capacity spare.frames) × (FRAME_DATAGRAMS ≤ vec_capacity spare.outcomes) };
}

impl Spare {
    /// Returns empty lists. `AllocError` if an allocation fails.
    pub fn new(alloc: Global) -> Result<Spare, AllocError> {
        Ok(Spare {
            frames: Vec::with_capacity(alloc, SLOTS)?,
            outcomes: Vec::with_capacity(alloc, FRAME_DATAGRAMS)?,
        })
    }
}
