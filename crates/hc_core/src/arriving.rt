//! Arrivals: the judgement of an arrival, and the changes that it makes to the core.
ghost use Rattle.std.specs.Prelude.{◌≡◌, ◌≢◌, ◌<◌, ◌≤◌, [], ◌∷◌, Err, IfErr, IfOk, IfSome, Ok, OnErr, OnOk, Some, option_map, vec_capacity};
ghost use Rattle.hc_frames.specs.Arrived.{fault_in};
ghost use Rattle.hc_events.specs.declared.answer.Answer.TheVariants as answer;
ghost use Rattle.hc_events.specs.declared.answer.Arrived.TheVariants.{Answered, Written};
ghost use Rattle.hc_events.specs.declared.faults.CoreFault.TheVariants.{Memory};
ghost use Rattle.hc_events.specs.Answering.{judged_by};
ghost use Rattle.hc_events.specs.Arrivals.{arrival_in};
ghost use Rattle.hc_events.specs.Entries.{Came};
ghost use Rattle.hc_events.specs.Faults.{frame_refusal};
ghost use Rattle.hc_events.specs.Outcomes.{arrived_answer};
ghost use Rattle.hc_events.specs.Steps.{Arrives, answer_to, entries_after, judged_answer};
ghost use Rattle.hc_core.specs.Chosen.{AreWriteOutcomes};
ghost use Rattle.hc_sendings.specs.declared.awaited.TheConstants.{FRAME_DATAGRAMS};

use crate::areas::confirm_areas;
use crate::choosing::confirm;
use crate::good_answers::{put_changes, put_good_answers};
use crate::keeping::Core;
use hc_events::answer::{Answer, Arrived, Outcome};
use hc_events::faults::CoreFault;
use hc_frames::reading::{Returned, read_frame};
use hc_records::items::Items;
use std::alloc::{AllocError, Global};

/// Empties the list of an arrival that answers neither a frame of tasks nor one of several register writes.
fn empty_unless_answered(arrived: Arrived, outcomes: &mut Vec<Outcome>)
    ensures same_answer { arrived_answer arrived outcomes.new.items ≡ arrived_answer arrived outcomes.old.items }
    ensures none { arrived ≢ Answered → arrived ≢ Written → outcomes.new.items ≡ [] }
    ensures capacity { vec_capacity outcomes.new ≡ vec_capacity outcomes.old }
{
    match arrived {
        Arrived::Answered => {}
        Arrived::WriteDone => outcomes.clear(),
        Arrived::WriteMissed => outcomes.clear(),
        Arrived::Stale => outcomes.clear(),
        Arrived::Written => {}
    }
}

impl Core {
    /// Records a stale arrival. Nothing else changes.
    pub(crate) fn take_stale(&mut self, bytes: &[u8], arrival: &Returned<'_>)
        requires read { arrival_in bytes.now ≡ Ok arrival.now }
        requires judged { judged_answer (judged_by self.old.history arrival.now) ≡ answer.Stale }
        ensures { self.new ≡ record self.old { history = Came arrival.now ∷ self.old.history } }
    {
        let _ = arrival;
        self.history = self.history.came(bytes);
    }

    /// Records the answer to a frame of tasks: from then on the tasks read the data of its good answers. Fails with
    /// `AllocError` if an allocation fails; nothing has changed then.
    fn take_inputs(
        &mut self,
        alloc: Global,
        bytes: &[u8],
        arrival: &Returned<'_>,
        outcomes: &[Outcome],
    ) -> Result<(), AllocError>
        requires read { arrival_in bytes.now ≡ Ok arrival.now }
        requires judged { judged_answer (judged_by self.old.history arrival.now) ≡ answer.Answered outcomes.now }
        ensures taken { OnOk result (self.new ≡ record self.old { history = Came arrival.now ∷ self.old.history }) }
        ensures unchanged { OnErr result (self.new ≡ self.old) }
    {
        // a look at the core gives its invariant: the changes fit an image
        let _ = &self.history;
        self.new_answer.clear();
        put_changes(
            alloc,
            &mut self.buffers,
            &mut self.new_answer,
            outcomes,
            arrival,
        )?;
        self.changes.append(&mut self.new_answer)?;
        let epoch = self.plan.epoch();
        put_good_answers(&mut self.inputs, &mut self.ages, epoch, outcomes, arrival);
        self.awaited.end(arrival.serial());
        self.history = self.history.came(bytes);
        Ok(())
    }

    /// Records the answer to a frame of register writes. Each block whose write is done becomes known; the others stay as they
    /// are. `outcomes` has the outcome of each block, in the frame's order.
    #[inline(always)]
    pub(crate) fn take_writes(&mut self, bytes: &[u8], arrival: &Returned<'_>, outcomes: &[Outcome])
        requires read { arrival_in bytes.now ≡ Ok arrival.now }
        requires judged { AreWriteOutcomes (judged_by self.old.history arrival.now) outcomes.now }
        ensures { self.new ≡ record self.old { history = Came arrival.now ∷ self.old.history } }
    {
        let blocks = self.awaited.written(arrival.serial());
        confirm(&mut self.owed, &self.plan, blocks, outcomes);
        confirm_areas(&mut self.readiness, blocks, outcomes);
        self.awaited.end(arrival.serial());
        self.history = self.history.came(bytes);
    }

    /// Records an arrival that was read as a frame, and applies its good answers or its register writes. `arrived` and
    /// `outcomes` are the results of `judge` for this arrival. It allocates if the list of changes grows, and for the data of
    /// good answers; these go into returned buffers (`give_back`) as long as there are some. Fails with `AllocError` if an
    /// allocation fails; nothing has changed then.
    #[inline(always)]
    pub fn take_arrival(
        &mut self,
        alloc: Global,
        bytes: &[u8],
        arrival: &Returned<'_>,
        arrived: Arrived,
        outcomes: &[Outcome],
    ) -> Result<(), AllocError>
        requires read { arrival_in bytes.now ≡ Ok arrival.now }
        requires judged { judged_answer (judged_by self.old.history arrival.now) ≡ arrived_answer arrived outcomes.now }
        ensures taken { OnOk result (self.new ≡ record self.old { history = Came arrival.now ∷ self.old.history }) }
        ensures unchanged { OnErr result (self.new ≡ self.old) }
    {
        let _ = &self.history;
        match arrived {
            Arrived::Answered => self.take_inputs(alloc, bytes, arrival, outcomes)?,
            Arrived::WriteDone => self.take_writes(bytes, arrival, &[Outcome::Done]),
            Arrived::WriteMissed => self.take_writes(bytes, arrival, &[Outcome::Missed]),
            Arrived::Stale => self.take_stale(bytes, arrival),
            Arrived::Written => self.take_writes(bytes, arrival, outcomes),
        }
        Ok(())
    }

    /// Judges an arrival that was read as a frame; the core does not change. If the arrival answers a frame of tasks or one of
    /// several register writes, `outcomes` has the outcome of each datagram, in the frame's order; otherwise it is empty. Its
    /// earlier content is dropped, and its capacity never falls. It allocates only if that capacity is less than the frame's
    /// datagrams, at most 115. Fails with `AllocError` if the allocation fails.
    #[inline(always)]
    pub fn judge(
        &self,
        arrival: &Returned<'_>,
        outcomes: &mut Vec<Outcome>,
    ) -> Result<Arrived, AllocError>
        ensures answer { IfOk result (λ arrived. arrived_answer arrived outcomes.new.items ≡ judged_answer (judged_by self.now.history arrival.now)) }
        ensures none { result ≢ Ok Answered → result ≢ Ok Written → outcomes.new.items ≡ [] }
        ensures room { OnErr result (vec_capacity outcomes.old < FRAME_DATAGRAMS) }
        ensures capacity { vec_capacity outcomes.old ≤ vec_capacity outcomes.new }
    {
        outcomes.clear();
        let arrived = self.awaited.judge(&self.plan, arrival, outcomes)?;
        empty_unless_answered(arrived, outcomes);
        Ok(arrived)
    }

    /// Serves an arrival of any bytes. Bytes that cannot be read as a frame are refused, even if memory is short, and nothing
    /// changes. Otherwise the arrival is recorded. If it answers a frame of tasks or one of several register writes, the answer
    /// has the outcome of each datagram. Fails with `AllocError` if an allocation fails; nothing has changed then.
    pub(crate) fn arrive(&mut self, alloc: Global, bytes: &[u8]) -> Result<Answer, AllocError>
        ensures answer { IfOk result (λ returned. returned ≡ answer_to self.old.history (Arrives bytes.now)) }
        ensures early { IfSome (fault_in bytes.now) (λ fault. result ≡ Ok (answer.Refused (frame_refusal fault))) }
        ensures entries { OnOk result (self.new ≡ record self.old { history = entries_after self.old.history (Arrives bytes.now) }) }
        ensures unchanged { OnErr result (self.new ≡ self.old) }
    {
        let arrival = match read_frame(bytes) {
            Ok(arrival) => arrival,
            Err(fault) => return Ok(Answer::Refused(CoreFault::from(fault))),
        };
        let mut outcomes = Vec::new(alloc);
        let arrived = self.judge(&arrival, &mut outcomes)?;
        self.take_arrival(alloc, bytes, &arrival, arrived, outcomes.as_slice())?;
        Ok(arrived.answer(outcomes))
    }

    /// Serves an arrival of any bytes as `step` does, with a list of outcomes that is used again. If the arrival answers a
    /// frame of tasks or one of several register writes, the list has the outcome of each datagram, in the frame's order;
    /// otherwise it is empty. Its capacity never falls.
    ///
    /// It allocates if the list is too short for these outcomes, at most 115, and if the list of changes grows. It allocates
    /// for the data of good answers, which go into returned buffers (`give_back`) as long as there are some. A fault of the
    /// frame, 20 to 27, is reported even if memory is short; otherwise `Memory` if an allocation fails. After a failure nothing
    /// has changed, and the list is empty.
    pub fn arrive_into(
        &mut self,
        alloc: Global,
        bytes: &[u8],
        outcomes: &mut Vec<Outcome>,
    ) -> Result<Arrived, CoreFault>
        ensures answer { IfOk result (λ arrived. arrived_answer arrived outcomes.new.items ≡ answer_to self.old.history (Arrives bytes.now)) }
        ensures entries { OnOk result (self.new ≡ record self.old { history = entries_after self.old.history (Arrives bytes.now) }) }
        ensures refused { IfErr result (λ fault. fault ≢ Memory → option_map frame_refusal (fault_in bytes.now) ≡ Some fault) }
        ensures early { IfSome (fault_in bytes.now) (λ fault. result ≡ Err (frame_refusal fault)) }
        ensures none { result ≢ Ok Answered → result ≢ Ok Written → outcomes.new.items ≡ [] }
        ensures capacity { vec_capacity outcomes.old ≤ vec_capacity outcomes.new }
        ensures unchanged { OnErr result (self.new ≡ self.old) }
    {
        outcomes.clear();
        let arrival = read_frame(bytes)?;
        let arrived = self.judge(&arrival, outcomes)?;
        match self.take_arrival(alloc, bytes, &arrival, arrived, outcomes.as_slice()) {
            Ok(()) => Ok(arrived),
            Err(_) => {
                outcomes.clear();
                Err(CoreFault::Memory)
            }
        }
    }

    /// Takes back the memory of a good answer that nobody reads any more, for the data of later good answers. At most 128
    /// buffers are stored; others are dropped. Contracts see no change. It allocates if the list of buffers grows; if that
    /// fails, the buffer is dropped.
    pub fn give_back(&mut self, bytes: Items<u8>)
        ensures { self.new ≡ self.old }
    {
        self.buffers.put(bytes.into_vec());
    }
}
