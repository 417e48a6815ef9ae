//! Ready tasks: the check of each task, and the proposal and the sending of their frames.
ghost use Rattle.std.specs.Prelude.{◌≡◌, ◌≢◌, ◌+◌, ◌<◌, ◌≤◌, ◌*◌, [], All, ◌++◌, Err, IfErr, IfOk, IfSome, None, OnErr, OnOk, Option, Some, drop, length, sum_by, vec_capacity};
ghost use Rattle.std.specs.List.{flat_map, list_any};
ghost use Rattle.hc_records.specs.declared.limits.TheConstants.{MOST_DATAGRAMS, TASKS};
ghost use Rattle.hc_records.specs.Lists.{lowest};
ghost use Rattle.hc_frames.specs.declared.limits.TheConstants.{SETUP_SERIAL};
ghost use Rattle.hc_events.specs.declared.faults.CoreFault.TheVariants.{Memory};
ghost use Rattle.hc_events.specs.Calls.{AreSentTogether, frames_size, ready_into_faults};
ghost use Rattle.hc_events.specs.Ready.{waited_for, waited_for_outside};
ghost use Rattle.hc_events.specs.Sendings.{sent_frame_size};
ghost use Rattle.hc_events.specs.Steps.{SendsReady, answer_to, entries_after, is_no_task, proposal, ready_faults, sent_text};
ghost use Rattle.hc_core.specs.declared.arena.TheConstants.{LARGEST_FRAME};
ghost use Rattle.hc_core.specs.Early.{early_ready_faults};
ghost use Rattle.hc_core.specs.Filled.{CanBeFilled};
ghost use Rattle.hc_core.specs.Proposed.{IsProposal};
ghost use Rattle.hc_core.specs.Ready.{first_unready, is_unready};

use crate::arena::{fill_front, size_of_all};
use crate::keeping::Core;
use hc_events::answer::Answer;
use hc_events::faults::CoreFault;
use hc_events::sending::Sending;
use hc_records::limits::TASKS;
use hc_sendings::proposing::propose_into;
use std::alloc::Global;
use std::mem;

/// True if one of these numbers is over 7, so that no task has it.
fn names_no_task(tasks: &[u8]) -> bool
    ensures { result ≡ list_any is_no_task tasks.now }
{
    tasks.iter().any(|task| !(*task < TASKS))
}

impl Core {
    /// Returns two numbers for a task, 0 to 7: the owed register blocks of the line that concern it, and the registers of
    /// slaves outside the line that hold it up.
    fn waiting_for(&self, task: u8) -> (u32, u32)
        requires { task < TASKS }
        ensures blocks { result.0 ≡ length (waited_for self.now.history task) }
        ensures outside { result.1 ≡ length (waited_for_outside self.now.history task) }
    {
        (self.readiness.waiting(task), self.readiness.outside(task))
    }

    /// True if a number is over 7, or if the task with this number waits.
    fn is_unready(&self, task: u8) -> bool
        ensures { result ≡ is_unready self.now.history task }
    {
        if task >= TASKS {
            return true;
        }
        !self.readiness.is_ready(task)
    }

    /// The first of these numbers that is no task's or whose task waits, or `None` if each task is ready.
    fn first_unready(&self, tasks: &[u8]) -> Option<u8>
        ensures { result ≡ first_unready self.now.history tasks.now }
    {
        for task in tasks {
            if self.is_unready(*task) {
                return Some(*task);
            }
        }
        None
    }

    /// Checks tasks before any frame is planned. Fails with `NoSuchTask` if a number is over 7, otherwise with `Waits` of the
    /// first task that waits.
    fn refuse_unready(&self, tasks: &[u8]) -> Result<(), CoreFault>
        ensures passed { OnOk result (lowest (early_ready_faults self.now.history tasks.now) ≡ None) }
        ensures refused { IfErr result (λ fault. lowest (early_ready_faults self.now.history tasks.now) ≡ Some fault) }
        ensures other { IfErr result (λ fault. fault ≢ Memory) }
    {
        let Some(task) = self.first_unready(tasks) else {
            return Ok(());
        };
        if names_no_task(tasks) {
            return Err(CoreFault::NoSuchTask);
        }
        let (blocks, outside) = self.waiting_for(task);
        Err(CoreFault::Waits {
            task,
            blocks,
            outside,
        })
    }

    /// Proposes the frames in which 1 to 8 distinct ready tasks would be sent next, in their order, with the next serials, and
    /// puts them into a list that is used again. A task is ready if no owed register block of the line concerns it, and no
    /// register of a declared slave outside the line may name it. Exception: a slave that was reported off the wire
    /// (`unplugged`) does not count (this project's profile). It sends nothing. The frames can be filled (`fill`, `fill_part`),
    /// and committed as long as they are the present proposal (`commit`).
    ///
    /// The earlier content of the list is dropped, the list is empty after a failure, and its capacity never falls. A list with
    /// a capacity of 128 frames, 16 for each of the eight tasks, needs no allocation. It fails with the first of these that
    /// holds:
    ///
    /// - `NoSuchTask`: a number is over 7.
    /// - `Waits`: a task waits; the fault has the first such task.
    /// - `SerialsSpent`: too few serials are left.
    ///
    /// It fails with `Memory` if an allocation fails, and only if neither of the first two holds.
    pub fn propose_ready_into(
        &self,
        tasks: &[u8],
        frames: &mut Vec<Sending>,
    ) -> Result<(), CoreFault>
        requires { AreSentTogether tasks.now }
        ensures frames { OnOk result (frames.new.items ≡ proposal self.now.history tasks.now) }
        ensures present { OnOk result (IsProposal self.now.history frames.new.items) }
        ensures filled { OnOk result (All (CanBeFilled self.now.history) frames.new.items) }
        ensures few { OnOk result (length frames.new.items ≤ SETUP_SERIAL) }
        ensures accepted { OnOk result (lowest (ready_faults self.now.history tasks.now) ≡ None) }
        ensures refused { IfErr result (λ fault. fault ≢ Memory → lowest (ready_faults self.now.history tasks.now) ≡ Some fault) }
        ensures early { IfSome (lowest (early_ready_faults self.now.history tasks.now)) (λ fault. result ≡ Err fault) }
        ensures room { IfErr result (λ fault. fault ≡ Memory → vec_capacity frames.old < MOST_DATAGRAMS * TASKS) }
        ensures capacity { vec_capacity frames.old ≤ vec_capacity frames.new }
        ensures none { OnErr result (frames.new.items ≡ []) }
    {
        frames.clear();
        self.refuse_unready(tasks)?;
        propose_into(&self.plan, self.serial, 0, tasks, frames)
    }

    /// Proposes the frames of ready tasks as `propose_ready_into` does, in a list of their own. Fails as it does.
    pub fn propose_ready(&self, alloc: Global, tasks: &[u8]) -> Result<Vec<Sending>, CoreFault>
        requires { AreSentTogether tasks.now }
        ensures frames { IfOk result (λ frames. frames.items ≡ proposal self.now.history tasks.now) }
        ensures present { IfOk result (λ frames. IsProposal self.now.history frames.items) }
        ensures filled { IfOk result (λ frames. All (CanBeFilled self.now.history) frames.items) }
        ensures few { IfOk result (λ frames. length frames.items ≤ SETUP_SERIAL) }
        ensures accepted { OnOk result (lowest (ready_faults self.now.history tasks.now) ≡ None) }
        ensures refused { IfErr result (λ fault. fault ≢ Memory → lowest (ready_faults self.now.history tasks.now) ≡ Some fault) }
        ensures early { IfSome (lowest (early_ready_faults self.now.history tasks.now)) (λ fault. result ≡ Err fault) }
    {
        let mut frames = Vec::new(alloc);
        self.propose_ready_into(tasks, &mut frames)?;
        Ok(frames)
    }

    /// Proposes the frames of ready tasks if an arena of `room` bytes holds all of them, and returns their bytes. Fails with the
    /// first of these: `NoSuchTask`, `Waits` and `SerialsSpent` as `propose_ready_into` does; `Room` with the bytes needed if
    /// the arena is shorter. Fails with `Memory` if an allocation fails, and only after the first two. After a failure the list
    /// is empty.
    fn propose_ready_within(
        &self,
        tasks: &[u8],
        room: usize,
        frames: &mut Vec<Sending>,
    ) -> Result<usize, CoreFault>
        requires { AreSentTogether tasks.now }
        ensures frames { OnOk result (frames.new.items ≡ proposal self.now.history tasks.now) }
        ensures present { OnOk result (IsProposal self.now.history frames.new.items) }
        ensures filled { OnOk result (All (CanBeFilled self.now.history) frames.new.items) }
        ensures size { IfOk result (λ size. size ≡ sum_by sent_frame_size frames.new.items) }
        ensures fits { IfOk result (λ size. size ≤ room) }
        ensures accepted { OnOk result (lowest (ready_faults self.now.history tasks.now) ≡ None) }
        ensures refused { IfErr result (λ fault. fault ≢ Memory → lowest (ready_into_faults self.now.history tasks.now room) ≡ Some fault) }
        ensures early { IfSome (lowest (early_ready_faults self.now.history tasks.now)) (λ fault. result ≡ Err fault) }
        ensures room { IfErr result (λ fault. fault ≡ Memory → vec_capacity frames.old < MOST_DATAGRAMS * TASKS) }
        ensures capacity { vec_capacity frames.old ≤ vec_capacity frames.new }
        ensures none { OnErr result (frames.new.items ≡ []) }
    {
        self.propose_ready_into(tasks, frames)?;
        let needed = size_of_all(frames.as_slice());
        if room < needed {
            frames.clear();
            return Err(CoreFault::Room(needed));
        }
        Ok(needed)
    }

    /// Sends 1 to 8 distinct ready tasks, while register blocks of other tasks may be owed. Their frames are at the start of
    /// the arena one after another, each of its own size, and in the list in that order. Returns the bytes of all frames; after
    /// them the arena is as it was. It fails with the first of these that holds:
    ///
    /// - `NoSuchTask`: a number is over 7.
    /// - `Waits`: a task waits. The fault has the first such task, the number of owed blocks that concern it, and the number of
    ///   registers outside the line that hold it up.
    /// - `SerialsSpent`: too few serials are left.
    /// - `Room`: the arena is too short; the fault has the bytes needed.
    ///
    /// It fails with `Memory` if an allocation fails, and only if neither of the first two holds. After a failure nothing is
    /// sent, nothing has changed, the arena is as it was, and the list is empty. A list with a capacity of 128 frames, 16 for
    /// each of the eight tasks, needs no allocation; its capacity never falls (this project's profile).
    pub fn send_ready_into(
        &mut self,
        tasks: &[u8],
        arena: &mut [u8],
        frames: &mut Vec<Sending>,
    ) -> Result<usize, CoreFault>
        requires { AreSentTogether tasks.now }
        ensures size { IfOk result (λ size. size ≡ frames_size self.old.history tasks.now) }
        ensures frames { OnOk result (frames.new.items ≡ proposal self.old.history tasks.now) }
        ensures sent { OnOk result (arena.new ≡ flat_map (sent_text self.old.history) (proposal self.old.history tasks.now) ++ drop (frames_size self.old.history tasks.now) arena.old) }
        ensures accepted { OnOk result (lowest (ready_into_faults self.old.history tasks.now (length arena.old)) ≡ None) }
        ensures entries { OnOk result (self.new ≡ record self.old { history = entries_after self.old.history (SendsReady tasks.now) }) }
        ensures refused { IfErr result (λ fault. fault ≢ Memory → lowest (ready_into_faults self.old.history tasks.now (length arena.old)) ≡ Some fault) }
        ensures early { IfSome (lowest (early_ready_faults self.old.history tasks.now)) (λ fault. result ≡ Err fault) }
        ensures room { IfErr result (λ fault. fault ≡ Memory → vec_capacity frames.old < MOST_DATAGRAMS * TASKS) }
        ensures capacity { vec_capacity frames.old ≤ vec_capacity frames.new }
        ensures unchanged { OnErr result (self.new ≡ self.old) }
        ensures untouched { OnErr result (arena.new ≡ arena.old) }
        ensures none { OnErr result (frames.new.items ≡ []) }
    {
        let size = self.propose_ready_within(tasks, arena.len(), frames)?;
        fill_front(self, frames.as_slice(), size, arena);
        self.commit(frames.as_slice());
        Ok(size)
    }

    /// Sends ready tasks: proposes their frames into a list, commits them, and returns their texts.
    fn send_ready_by(
        &mut self,
        alloc: Global,
        tasks: &[u8],
        frames: &mut Vec<Sending>,
    ) -> Result<Answer, CoreFault>
        requires { AreSentTogether tasks.now }
        ensures answer { IfOk result (λ returned. returned ≡ answer_to self.old.history (SendsReady tasks.now)) }
        ensures entries { OnOk result (self.new ≡ record self.old { history = entries_after self.old.history (SendsReady tasks.now) }) }
        ensures refused { IfErr result (λ fault. fault ≢ Memory → lowest (ready_faults self.old.history tasks.now) ≡ Some fault) }
        ensures early { IfSome (lowest (early_ready_faults self.old.history tasks.now)) (λ fault. result ≡ Err fault) }
        ensures unchanged { OnErr result (self.new ≡ self.old) }
    {
        self.propose_ready_into(tasks, frames)?;
        let texts = self.texts(alloc, frames.as_slice())?;
        self.commit(frames.as_slice());
        Ok(Answer::Sent(texts))
    }

    /// Sends ready tasks for `step`, with a list of frames that is used again.
    pub(crate) fn send_ready(&mut self, alloc: Global, tasks: &[u8]) -> Result<Answer, CoreFault>
        requires { AreSentTogether tasks.now }
        ensures answer { IfOk result (λ returned. returned ≡ answer_to self.old.history (SendsReady tasks.now)) }
        ensures entries { OnOk result (self.new ≡ record self.old { history = entries_after self.old.history (SendsReady tasks.now) }) }
        ensures refused { IfErr result (λ fault. fault ≢ Memory → lowest (ready_faults self.old.history tasks.now) ≡ Some fault) }
        ensures early { IfSome (lowest (early_ready_faults self.old.history tasks.now)) (λ fault. result ≡ Err fault) }
        ensures unchanged { OnErr result (self.new ≡ self.old) }
    {
        let mut frames = mem::replace(&mut self.frames, Vec::new(alloc));
        let returned = self.send_ready_by(alloc, tasks, &mut frames);
        self.frames = frames;
        returned
    }
}
