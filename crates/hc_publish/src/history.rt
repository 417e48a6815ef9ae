//! The changes that a copy has applied, as contracts see them.
ghost use Rattle.std.specs.Prelude.{◌≡◌, [], ◌∷◌, ◌++◌};

use hc_events::change::GoodAnswer;
use hc_places::swap::Swap;
use std::snapshot::Snapshot;

/// The applied changes, the last one outermost. At run time it is a tag.
#[derive(Drop)]
pub(crate) enum History {
    /// No change since the opening.
    Opened,
    /// An edit was accepted.
    Swapped(Snapshot<History>, Snapshot<Swap>),
    /// A datagram had a good answer.
    Good(Snapshot<History>, Snapshot<GoodAnswer>),
}

impl History {
    ghost use Rattle.hc_events.specs.declared.change.Change.TheVariants as change;
    ghost use Rattle.hc_publish.specs.Histories.{changes_of};

    /// Returns the history with a swap after it.
    pub(crate) fn add_swap(&mut self, swap: &Swap)
        ensures { changes_of self.new ≡ changes_of self.old ++ change.Swapped swap.now ∷ [] }
    {
        let before = Snapshot::of(&*self);
        *self = History::Swapped(before, Snapshot::of(swap));
    }

    /// Returns the history with a good answer after it.
    pub(crate) fn add_good(&mut self, good: &GoodAnswer)
        ensures { changes_of self.new ≡ changes_of self.old ++ change.Good good.now ∷ [] }
    {
        let before = Snapshot::of(&*self);
        *self = History::Good(before, Snapshot::of(good));
    }
}
