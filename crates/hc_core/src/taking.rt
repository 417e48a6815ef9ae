//! The changes that were not taken yet: `take_changes` takes them, `untaken` counts them, `discard_changes` drops them.
ghost use Rattle.std.specs.Prelude.{◌≡◌};
ghost use Rattle.hc_events.specs.Changes.{SwapsLeadFrom};
ghost use Rattle.hc_events.specs.Points.{state_of};
ghost use Rattle.hc_core.specs.Update.{ShowUpdates, untaken};

use crate::keeping::Core;
use hc_events::change::Change;
use std::alloc::Global;
use std::mem;
use std::snapshot::Snapshot;

impl Core {
    /// Takes the changes since they were last taken, or since the opening, in order. Their swaps lead from the line as it was
    /// then to the present one, and each good answer fits the line of its time. Each swap carries only differences: the tasks
    /// whose table differs, and the variables whose place differs, as many as `Swap::places` returns. The core no longer stores
    /// the changes, and the record stays. It allocates nothing: `alloc` is for the empty list that the core stores from then on.
    pub fn take_changes(&mut self, alloc: Global) -> Vec<Change>
        ensures updates { ShowUpdates self.old.taken self.old.history result.items }
        ensures lead { SwapsLeadFrom (state_of self.old.taken) result.items }
        ensures taken { self.new ≡ record { history = self.old.history; taken = self.old.history } }
    {
        self.take_changes_into(Vec::new(alloc))
    }

    /// Takes the changes as `take_changes` does, and hands in a list for the changes to come: it is emptied, and its capacity
    /// stays. A caller that hands in the list of the taking before needs no new one. It allocates nothing.
    pub fn take_changes_into(&mut self, spare: Vec<Change>) -> Vec<Change>
        ensures updates { ShowUpdates self.old.taken self.old.history result.items }
        ensures lead { SwapsLeadFrom (state_of self.old.taken) result.items }
        ensures taken { self.new ≡ record { history = self.old.history; taken = self.old.history } }
    {
        let mut next = spare;
        next.clear();
        self.taken = Snapshot::of(&self.history);
        mem::replace(&mut self.changes, next)
    }

    /// Returns the number of changes since they were last taken, or since the opening.
    pub fn untaken(&self) -> usize
        ensures { result ≡ untaken self.now }
    {
        self.changes.len()
    }

    /// Drops the changes since they were last taken, or since the opening, as if they had been taken. It allocates nothing.
    pub fn discard_changes(&mut self)
        ensures { self.new ≡ record { history = self.old.history; taken = self.old.history } }
    {
        self.changes.clear();
        let now = Snapshot::of(&self.history);
        self.taken = now;
    }
}
