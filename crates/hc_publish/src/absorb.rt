//! Steps that a copy applies.
ghost use Rattle.std.specs.Prelude.{◌≡◌, MatchResult};
ghost use Rattle.hc_publish.specs.ChangesSince.{with_change};
ghost use Rattle.hc_publish.specs.Rule.{copy_after};

use crate::copies::Copy;
use crate::publication_log::LogPrefix;
use hc_events::change::Change;
use left_right::Absorb;
use std::alloc::AllocError;

/// The steps that the publisher sends to both copies.
#[derive(Drop)]
pub enum Step {
    Changed(Change),
    /// The prefix whose last entry is what a copy shows with all changes before.
    Sealed(LogPrefix),
}

impl Copy {
    /// Stores a good answer, whose buffer the publisher uses again, if there is a free place. Any other change is dropped.
    fn keep(&mut self, change: Change)
        ensures { self.new ≡ self.old }
    {
        if let Change::Good(good) = change {
            let used = self.used.get_mut();
            if used.len() < used.capacity() {
                used.push_reserved(good);
            }
        }
    }

    /// Applies a change that the other copy already has. If an allocation fails the change is returned, and the copy is
    /// unchanged.
    fn take_over(&mut self, change: Change) -> Result<(), Change>
        ensures { MatchResult result (λ _. self.new ≡ record self.old { shown = with_change self.old.shown change }) (λ back. (back ≡ change) × (self.new ≡ self.old)) }
    {
        match self.shown.take_in(&change) {
            Ok(()) => {
                self.keep(change);
                Ok(())
            }
            Err(_) => Err(change),
        }
    }
}

impl Absorb<Step> for Copy {
    type State = Copy;

    ghost state = { λ copy. copy };

    ghost applied = { copy_after };

    fn absorb_first(&mut self, operation: &Step, _other: &Copy) -> Result<(), AllocError> {
        match operation {
            Step::Changed(change) => self.shown.take_in(change),
            Step::Sealed(front) => {
                self.front = front.again();
                Ok(())
            }
        }
    }

    fn absorb_second(&mut self, operation: Step, _other: &Copy) -> Result<(), Step> {
        match operation {
            Step::Changed(change) => self.take_over(change).map_err(Step::Changed),
            Step::Sealed(front) => {
                self.front = front;
                Ok(())
            }
        }
    }
}
