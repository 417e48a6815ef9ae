//! The sending of frames of tasks: `propose`, `preview` and `commit`.
ghost use Rattle.std.specs.Prelude.{◌≡◌, ◌≢◌, ◌<◌, ◌≤◌, ◌*◌, [], All, Err, IfErr, IfOk, IfSome, None, OnErr, OnOk, Some, length, vec_capacity};
ghost use Rattle.hc_records.specs.declared.limits.TheConstants.{MOST_DATAGRAMS, TASKS};
ghost use Rattle.hc_records.specs.Lists.{lowest};
ghost use Rattle.hc_frames.specs.declared.limits.TheConstants.{SETUP_SERIAL};
ghost use Rattle.hc_events.specs.declared.faults.CoreFault.TheVariants.{Memory};
ghost use Rattle.hc_events.specs.Calls.{AreSentTogether, preview};
ghost use Rattle.hc_events.specs.Steps.{SendsTasks, answer_to, entries_after, proposal, task_faults, with_sent};
ghost use Rattle.hc_events.specs.Owed.{owed_blocks};
ghost use Rattle.hc_sendings.specs.Refusals.{early_faults};
ghost use Rattle.hc_core.specs.Filled.{CanBeFilled};
ghost use Rattle.hc_core.specs.Proposed.{IsProposal};

use crate::keeping::Core;
use hc_events::answer::Answer;
use hc_events::faults::CoreFault;
use hc_events::sending::Sending;
use hc_sendings::proposing::{preview, propose_into};
use std::alloc::Global;
use std::mem;

impl Core {
    /// Proposes the frames in which 1 to 8 distinct tasks would be sent next, in their order, with the next serials. There are
    /// none if the tasks have no datagram. It sends nothing. The frames can be filled (`fill`, `fill_part`), and committed as
    /// long as they are the present proposal (`commit`). It fails with the first of these that holds:
    ///
    /// - `NoSuchTask`: a number is over 7.
    /// - `Unprogrammed`: register blocks are owed; the fault has their number.
    /// - `SerialsSpent`: too few serials are left.
    ///
    /// It fails with `Memory` if an allocation fails, and only if neither of the first two holds.
    pub fn propose(&self, alloc: Global, tasks: &[u8]) -> Result<Vec<Sending>, CoreFault>
        requires { AreSentTogether tasks.now }
        ensures frames { IfOk result (λ frames. frames.items ≡ proposal self.now.history tasks.now) }
        ensures present { IfOk result (λ frames. IsProposal self.now.history frames.items) }
        ensures filled { IfOk result (λ frames. All (CanBeFilled self.now.history) frames.items) }
        ensures few { IfOk result (λ frames. length frames.items ≤ SETUP_SERIAL) }
        ensures accepted { OnOk result (lowest (task_faults self.now.history tasks.now) ≡ None) }
        ensures refused { IfErr result (λ fault. fault ≢ Memory → lowest (task_faults self.now.history tasks.now) ≡ Some fault) }
        ensures early { IfSome (lowest (early_faults (length (owed_blocks self.now.history)) tasks.now)) (λ fault. result ≡ Err fault) }
    {
        let mut frames = Vec::new(alloc);
        self.propose_into(tasks, &mut frames)?;
        Ok(frames)
    }

    /// Proposes the frames of tasks as `propose` does, and stores them in a list that is used again. The list is emptied first,
    /// stays empty after a failure, and its capacity never falls. With a capacity of 128 frames, 16 for each of the
    /// eight tasks, it needs no allocation, and the call never fails with `Memory` (this project's profile).
    pub fn propose_into(&self, tasks: &[u8], frames: &mut Vec<Sending>) -> Result<(), CoreFault>
        requires { AreSentTogether tasks.now }
        ensures frames { OnOk result (frames.new.items ≡ proposal self.now.history tasks.now) }
        ensures present { OnOk result (IsProposal self.now.history frames.new.items) }
        ensures filled { OnOk result (All (CanBeFilled self.now.history) frames.new.items) }
        ensures few { OnOk result (length frames.new.items ≤ SETUP_SERIAL) }
        ensures accepted { OnOk result (lowest (task_faults self.now.history tasks.now) ≡ None) }
        ensures refused { IfErr result (λ fault. fault ≢ Memory → lowest (task_faults self.now.history tasks.now) ≡ Some fault) }
        ensures early { IfSome (lowest (early_faults (length (owed_blocks self.now.history)) tasks.now)) (λ fault. result ≡ Err fault) }
        ensures room { IfErr result (λ fault. fault ≡ Memory → vec_capacity frames.old < MOST_DATAGRAMS * TASKS) }
        ensures capacity { vec_capacity frames.old ≤ vec_capacity frames.new }
        ensures none { OnErr result (frames.new.items ≡ []) }
    {
        let owed = self.owed.count();
        propose_into(&self.plan, self.serial, owed, tasks, frames)
    }

    /// Returns the frame of one datagram of a task alone, as it would be sent next, even if blocks are owed. None if the task
    /// has no such datagram, if there is no such task, or if no serial is left. The frame can be filled. It sends nothing, and
    /// it allocates nothing.
    pub fn preview(&self, task: u8, number: u8) -> Option<Sending>
        ensures frame { result ≡ preview self.now.history task number }
        ensures filled { IfSome result (CanBeFilled self.now.history) }
    {
        preview(&self.plan, self.serial, task, number)
    }

    /// Sends all frames of the present proposal, in their order: each is recorded, and is awaited from then on. It allocates
    /// nothing.
    #[inline(always)]
    pub fn commit(&mut self, frames: &[Sending])
        requires { IsProposal self.old.history frames.now }
        ensures { self.new ≡ record self.old { history = with_sent self.old.history frames.now } }
    {
        self.awaited.send(frames);
        self.serial += frames.len() as u64;
        self.history.sent_all(frames);
    }

    /// Sends tasks: proposes their frames into a list, commits them, and returns their texts.
    fn send_by(
        &mut self,
        alloc: Global,
        tasks: &[u8],
        frames: &mut Vec<Sending>,
    ) -> Result<Answer, CoreFault>
        requires { AreSentTogether tasks.now }
        ensures answer { IfOk result (λ returned. returned ≡ answer_to self.old.history (SendsTasks tasks.now)) }
        ensures entries { OnOk result (self.new ≡ record self.old { history = entries_after self.old.history (SendsTasks tasks.now) }) }
        ensures refused { IfErr result (λ fault. fault ≢ Memory → lowest (task_faults self.old.history tasks.now) ≡ Some fault) }
        ensures early { IfSome (lowest (early_faults (length (owed_blocks self.old.history)) tasks.now)) (λ fault. result ≡ Err fault) }
        ensures unchanged { OnErr result (self.new ≡ self.old) }
    {
        self.propose_into(tasks, frames)?;
        let texts = self.texts(alloc, frames.as_slice())?;
        self.commit(frames.as_slice());
        Ok(Answer::Sent(texts))
    }

    /// Sends tasks for `step`, with a list of frames that is used again.
    pub(crate) fn send(&mut self, alloc: Global, tasks: &[u8]) -> Result<Answer, CoreFault>
        requires { AreSentTogether tasks.now }
        ensures answer { IfOk result (λ returned. returned ≡ answer_to self.old.history (SendsTasks tasks.now)) }
        ensures entries { OnOk result (self.new ≡ record self.old { history = entries_after self.old.history (SendsTasks tasks.now) }) }
        ensures refused { IfErr result (λ fault. fault ≢ Memory → lowest (task_faults self.old.history tasks.now) ≡ Some fault) }
        ensures early { IfSome (lowest (early_faults (length (owed_blocks self.old.history)) tasks.now)) (λ fault. result ≡ Err fault) }
        ensures unchanged { OnErr result (self.new ≡ self.old) }
    {
        let mut frames = mem::replace(&mut self.frames, Vec::new(alloc));
        let returned = self.send_by(alloc, tasks, &mut frames);
        self.frames = frames;
        returned
    }
}
