//! Arrivals with the change log off: nothing is logged, and older entries are dropped.
ghost use Rattle.std.specs.Prelude.{◌≡◌, ◌≢◌, ◌<◌, ◌≤◌, ◌∷◌, [], IfOk, Ok, OnErr, OnOk, vec_capacity};
ghost use Rattle.hc_events.specs.declared.answer.Answer.TheVariants as answer;
ghost use Rattle.hc_events.specs.declared.answer.Arrived.TheVariants.{Answered, Written};
ghost use Rattle.hc_events.specs.Answering.{judged_by};
ghost use Rattle.hc_events.specs.Arrivals.{arrival_in};
ghost use Rattle.hc_events.specs.Entries.{Came};
ghost use Rattle.hc_events.specs.Outcomes.{arrived_answer};
ghost use Rattle.hc_events.specs.Steps.{Arrives, answer_to, entries_after, judged_answer};
ghost use Rattle.hc_sendings.specs.declared.awaited.TheConstants.{FRAME_DATAGRAMS};

use crate::good_answers::put_good_answers;
use crate::keeping::Core;
use hc_events::answer::{Arrived, Outcome};
use hc_frames::reading::Returned;
use std::alloc::AllocError;
use std::snapshot::Snapshot;

impl Core {
    /// Records the answer to a frame of tasks: from then on the tasks read the data of its good answers, with their serial. No
    /// change is left.
    fn discard_inputs(&mut self, bytes: &[u8], arrival: &Returned<'_>, outcomes: &[Outcome])
        requires read { arrival_in bytes.now ≡ Ok arrival.now }
        requires judged { judged_answer (judged_by self.old.history arrival.now) ≡ answer.Answered outcomes.now }
        ensures { self.new ≡ record { history = Came arrival.now ∷ self.old.history; taken = Came arrival.now ∷ self.old.history } }
    {
        // a look at the core gives its invariant: the data fit an image
        let _ = &self.history;
        let epoch = self.plan.epoch();
        put_good_answers(&mut self.inputs, &mut self.ages, epoch, outcomes, arrival);
        self.awaited.end(arrival.serial());
        let came = self.history.came(bytes);
        self.changes.clear();
        self.taken = Snapshot::of(&came);
        self.history = came;
    }

    /// Records an arrival and applies it by its kind. No change is left.
    fn take_discarding(
        &mut self,
        bytes: &[u8],
        arrival: &Returned<'_>,
        arrived: Arrived,
        outcomes: &[Outcome],
    )
        requires read { arrival_in bytes.now ≡ Ok arrival.now }
        requires judged { judged_answer (judged_by self.old.history arrival.now) ≡ arrived_answer arrived outcomes.now }
        ensures { self.new ≡ record { history = Came arrival.now ∷ self.old.history; taken = Came arrival.now ∷ self.old.history } }
    {
        match arrived {
            Arrived::Answered => return self.discard_inputs(bytes, arrival, outcomes),
            Arrived::WriteDone => self.take_writes(bytes, arrival, &[Outcome::Done]),
            Arrived::WriteMissed => self.take_writes(bytes, arrival, &[Outcome::Missed]),
            Arrived::Stale => self.take_stale(bytes, arrival),
            Arrived::Written => self.take_writes(bytes, arrival, outcomes),
        }
        self.discard_changes();
    }

    /// Serves an arrival that was read as a frame (`read_frame`) for a caller that takes no changes. The result, the outcomes
    /// and the data that tasks read afterwards are those of `arrive_into`. All changes that were not taken are dropped, and
    /// none is made for this arrival's good answers. It allocates only if the capacity of `outcomes` is less than the frame's
    /// datagrams, at most 115. Fails with `AllocError` if the allocation fails; then nothing has changed, and the list is
    /// empty. Its capacity never falls.
    pub fn arrive_discarding(
        &mut self,
        bytes: &[u8],
        arrival: &Returned<'_>,
        outcomes: &mut Vec<Outcome>,
    ) -> Result<Arrived, AllocError>
        requires { arrival_in bytes.now ≡ Ok arrival.now }
        ensures answer { IfOk result (λ arrived. arrived_answer arrived outcomes.new.items ≡ answer_to self.old.history (Arrives bytes.now)) }
        ensures entries { OnOk result (self.new ≡ record { history = entries_after self.old.history (Arrives bytes.now); taken = entries_after self.old.history (Arrives bytes.now) }) }
        ensures none { result ≢ Ok Answered → result ≢ Ok Written → outcomes.new.items ≡ [] }
        ensures room { OnErr result (vec_capacity outcomes.old < FRAME_DATAGRAMS) }
        ensures capacity { vec_capacity outcomes.old ≤ vec_capacity outcomes.new }
        ensures unchanged { OnErr result (self.new ≡ self.old) }
    {
        let arrived = self.judge(arrival, outcomes)?;
        self.take_discarding(bytes, arrival, arrived, outcomes.as_slice());
        Ok(arrived)
    }
}
