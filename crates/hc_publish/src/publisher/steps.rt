//! Steps of the publisher.
ghost use Rattle.std.specs.Prelude.{◌≡◌, [], ◌∷◌, ◌++◌, false, IfOk, MatchResult};
ghost use Rattle.hc_events.specs.Changes.{AreLegal};
ghost use Rattle.hc_publish.specs.PublishedState.{published, pending, origin_of};
ghost use Rattle.hc_publish.specs.Published.{IsReadyToShow, AreSame, ShowsPending, ShowsNoMore};
ghost use Rattle.hc_publish.specs.Rule.{AreFew};
ghost use Rattle.hc_publish.specs.Seats.{noted_changes, note_origin, known, seat_origin};

use super::{Copies, Kept, Note, Publisher};
use crate::absorb::Step;
use crate::publication_log::Add;
use crate::rule::{Binds, Looks};
use crate::seat::Seat;
use crate::shown::Shown;
use core::mem::replace_with;
use hc_events::change::{Change, GoodAnswer};
use logbook::Plain;
use std::alloc::AllocError;
use std::sync::Wait;

impl Plain<Copies, Shown, u64> for Add {
    ghost use Rattle.std.specs.Prelude.{None, drop, ◌++◌};
    ghost use Rattle.hc_publish.specs.Rule.{after_steps};

    ghost ask = { λ writer. after_steps writer.desk.shown.value.shown (drop writer.behind writer.log.items) };

    ghost state = { λ writer. None };
}

impl Publisher {
    /// Appends a change that views do not show yet. If the list's allocation fails, `Kept` returns the change.
    pub fn append(&mut self, change: Change) -> Result<(), Kept>
        requires { AreLegal (origin_of self.old).groups (published self.old ++ pending self.old ++ change ∷ []) }
        ensures published { published self.new ≡ published self.old }
        ensures pending { MatchResult result (λ _. pending self.new ≡ pending self.old ++ change ∷ []) (λ returned. (returned.0 ≡ change) × (pending self.new ≡ pending self.old)) }
        ensures origin { origin_of self.new ≡ origin_of self.old }
    {
        match self.writer.append(Step::Changed(change)) {
            Ok(()) => {
                self.is_sealed = false;
                Ok(())
            }
            Err(Step::Changed(change)) => Err(Kept(change)),
            Err(Step::Sealed(_)) => unreachable!(),
        }
    }

    /// Adds the list that is about to be shown to the publication log, and a seal after the pending changes. `AllocError` if an
    /// allocation fails; what is published and pending is unchanged.
    fn seal(&mut self) -> Result<(), AllocError>
        requires { AreFew false self.old.steps }
        ensures same { AreSame self.old self.new }
        ensures ready { IfOk result (λ _. IsReadyToShow self.new) }
    {
        let Some(next) = self.front.with::<Copies, Add>(&self.head, &self.writer) else {
            return Err(AllocError);
        };
        // the log has the entry from now on, even if the seal is refused
        let seal = next.again();
        self.front = next;
        self.is_sealed = false;
        match self.writer.append(Step::Sealed(seal)) {
            Ok(()) => {
                self.is_sealed = true;
                Ok(())
            }
            Err(_) => return Err(AllocError),
        }
    }

    /// Exchanges the copies, so that the pending changes are published, and returns the publisher. `AllocError` if an
    /// allocation fails; then they stay pending.
    fn exchanged<R: Wait>(self, rt: &R) -> (Publisher, Result<(), AllocError>)
        requires { IsReadyToShow self }
        ensures lists { MatchResult result.1 (λ _. ShowsPending self result.0) (λ _. ShowsNoMore self result.0) }
        ensures origin { origin_of result.0 ≡ origin_of self }
    {
        let Publisher {
            writer,
            head,
            front,
            is_sealed,
        } = self;
        match writer.publish_as::<Looks, R>(rt) {
            (writer, Ok(())) => {
                let publisher = Publisher {
                    writer,
                    head,
                    front,
                    is_sealed: false,
                };
                (publisher, Ok(()))
            }
            (writer, Err(_)) => {
                let publisher = Publisher {
                    writer,
                    head,
                    front,
                    is_sealed,
                };
                (publisher, Err(AllocError))
            }
        }
    }

    /// Adds a seal after the pending changes, unless they have one. Fails as `seal` does.
    fn be_sealed(&mut self) -> Result<(), AllocError>
        ensures same { AreSame self.old self.new }
        ensures ready { IfOk result (λ _. IsReadyToShow self.new) }
    {
        if self.is_sealed {
            return Ok(());
        }
        self.seal()
    }

    /// Publishes all pending changes at once; views that begin later show them. It waits while a view of the old copy lives.
    /// `AllocError` if an allocation fails; then nothing new is published, and everything stays pending.
    pub fn publish<R: Wait>(&mut self, rt: &R) -> Result<(), AllocError>
        ensures lists { MatchResult result (λ _. ShowsPending self.old self.new) (λ _. ShowsNoMore self.old self.new) }
        ensures origin { origin_of self.new ≡ origin_of self.old }
    {
        if !self.writer.has_pending_operations() {
            return Ok(());
        }
        self.be_sealed()?;
        replace_with(
            self,
            rt,
            |publisher: Publisher, rt: &R| -> (Publisher, Result<(), AllocError>)
                requires { IsReadyToShow publisher }
                ensures lists { MatchResult result.1 (λ _. ShowsPending publisher result.0) (λ _. ShowsNoMore publisher result.0) }
                ensures origin { origin_of result.0 ≡ origin_of publisher }
            { publisher.exchanged(rt) },
        )
    }

    /// Returns a note of what is published, which a seat of this publisher can learn.
    pub fn note(&self) -> Note
        ensures carried { noted_changes result ≡ published self.now }
        ensures origin { note_origin result ≡ origin_of self.now }
    {
        Note {
            front: self.writer.published().front.again(),
        }
    }

    /// Returns a good answer that both copies have applied, for its buffer, or `None` if no such answer is left. At most 128
    /// answers are stored, of those that the last publishing applied to the second copy. A caller that takes all of them after
    /// each publishing, and fills their buffers with the next answers, has cycles without an allocation. It waits for nobody.
    pub fn spare(&self) -> Option<GoodAnswer> {
        let mut used = self.writer.published().used.try_lock()?;
        used.pop()
    }

    /// Returns a new seat of a task, which knows what is published.
    pub(crate) fn seat(&mut self, task: u8) -> Result<Seat, AllocError>
        ensures same { AreSame self.old self.new }
        ensures knows { IfOk result (λ seat. (known seat ≡ published self.old) × (seat_origin seat ≡ origin_of self.old) × (seat.task ≡ task)) }
    {
        let mut reader = self.writer.factory().reader()?;
        reader.learn::<Binds>(self.writer.tell::<Binds>());
        let front = self.writer.published().front.again();
        Ok(Seat {
            task,
            reader,
            front,
        })
    }

    /// Waits for the views that live, and ends the publisher. It allocates nothing. Seats that remain have no entry: their
    /// `view` returns none.
    pub fn finish<R: Wait>(self, rt: &R) {
        let Publisher {
            writer,
            head: _,
            front: _,
            is_sealed: _,
        } = self;
        writer.take(rt);
    }
}
