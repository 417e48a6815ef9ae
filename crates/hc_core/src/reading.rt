//! Reads of a core: its plan, its next serial, its owed blocks, and the data of its tasks.
ghost use Rattle.std.specs.Prelude.{◌≡◌, ◌<◌, ◌≤◌, ◌⊎◌, IfOk, IfSome, None, Ok, is_some, length, map};
ghost use Rattle.std.specs.List.{range_with_len};
ghost use Rattle.std.specs.Option.{option_copied};
ghost use Rattle.hc_records.specs.declared.limits.TheConstants.{MOST_DATAGRAMS, TASKS};
ghost use Rattle.hc_records.specs.Lists.{lowest};
ghost use Rattle.hc_events.specs.declared.answer.Answer.TheVariants as answer;
ghost use Rattle.hc_events.specs.Owed.{owed_blocks};
ghost use Rattle.hc_events.specs.Accepted.{IsReachable, IsInLine};
ghost use Rattle.hc_events.specs.Ages.{data_serial};
ghost use Rattle.hc_events.specs.Images.{slot_of};
ghost use Rattle.hc_events.specs.Outputs.{sent_data};
ghost use Rattle.hc_events.specs.Points.{epoch_of, line_of, next_serial, state_of};
ghost use Rattle.hc_events.specs.Steps.{Reads, answer_to, read_faults};
ghost use Rattle.hc_core.specs.LastData.{ShowsLastData};

use crate::keeping::Core;
use hc_events::answer::Answer;
use hc_events::faults::CoreFault;
use hc_plan::plan::Plan;
use hc_records::items::Items;
use hc_records::limits::{MOST_DATAGRAMS, TASKS};
use hc_records::task::Task;
use std::alloc::{AllocError, Global};

impl Core {
    /// Returns the plan of the present line. Its epoch is the number of accepted edits. The record is one that events lead to
    /// (`reachable`), as the laws of such records require.
    pub fn plan(&self) -> &Plan
        ensures state { result.now ≡ state_of self.now.history }
        ensures reachable { IsReachable self.now.history }
        ensures epoch { (state_of self.now.history).epoch ≡ epoch_of self.now.history }
    {
        &self.plan
    }

    /// Returns the serial of the next frame. It is the number of frames of tasks and of register writes that were sent before.
    pub fn next_serial(&self) -> u64
        ensures { result ≡ next_serial self.now.history }
    {
        self.serial
    }

    /// Returns the number of owed register blocks of the present line. The number is stored: the call takes constant time, and
    /// allocates nothing.
    pub fn owed(&self) -> u32
        ensures { result ≡ length (owed_blocks self.now.history) }
    {
        self.owed.count()
    }

    /// True if a task, 0 to 7, reads data of one of its datagrams, 0 to 15: the answer that brought its steady data came in the
    /// present epoch.
    fn is_present(&self, task: u8, number: u8) -> bool
        requires task { task < TASKS }
        requires number { number < MOST_DATAGRAMS }
        ensures { result ≡ is_some (slot_of self.now.history task number) }
    {
        // a look at the plan gives the core's invariant: the ages are the history's
        let _ = &self.plan;
        match self.ages.get(Task(task), number) {
            Some(age) => age.epoch == self.plan.epoch(),
            None => false,
        }
    }

    /// Returns the data that a task reads of one of its datagrams, lent: those of the last good answer in the present epoch.
    /// None if there was none, if the task is over 7, or if the number is over 15. It allocates nothing.
    pub fn data(&self, task: u8, number: u8) -> Option<&[u8]>
        ensures slot { task < TASKS → number < MOST_DATAGRAMS → option_copied result ≡ slot_of self.now.history task number }
        ensures none { TASKS ≤ task ⊎ MOST_DATAGRAMS ≤ number → option_copied result ≡ None }
    {
        // a look at the plan gives the core's invariant: the image shows the history's data
        let _ = &self.plan;
        if task >= TASKS || usize::from(number) >= MOST_DATAGRAMS {
            return None;
        }
        if !self.is_present(task, number) {
            return None;
        }
        self.inputs.data(Task(task), number)
    }

    /// Returns the serial of the sending that a datagram's data answer. Beside `next_serial` it tells how old the data are.
    /// None if `data` returns none. It allocates nothing.
    pub fn data_serial(&self, task: u8, number: u8) -> Option<u64>
        ensures serial { task < TASKS → number < MOST_DATAGRAMS → result ≡ data_serial self.now.history task number }
        ensures none { TASKS ≤ task ⊎ MOST_DATAGRAMS ≤ number → result ≡ None }
    {
        // a look at the plan gives the core's invariant: the ages are the history's
        let _ = &self.plan;
        if task >= TASKS || usize::from(number) >= MOST_DATAGRAMS {
            return None;
        }
        if !self.is_present(task, number) {
            return None;
        }
        self.steady_serial(task, number)
    }

    /// Returns the output values of a datagram of the present line, lent, as they are sent now: the bits of each output
    /// variable's value at its place, and 0 at every other bit. They are as many bytes as the datagram has. It allocates
    /// nothing.
    pub fn outputs(&self, task: u8, number: u8) -> &[u8]
        requires { IsInLine (line_of self.now.history) (task, number) }
        ensures { result.now ≡ sent_data self.now.history task number }
    {
        // a look at the plan gives the core's invariant, by which the outputs have the record's values
        let _ = &self.plan;
        self.outputs.bytes(task, number)
    }

    /// Returns a copy of the data that a task, 0 to 7, reads of one of its datagrams, 0 to 15, or none. Fails with `AllocError`
    /// if an allocation fails.
    fn slot(&self, alloc: Global, task: u8, number: u8) -> Result<Option<Items<u8>>, AllocError>
        requires task { task < TASKS }
        requires number { number < MOST_DATAGRAMS }
        ensures { IfOk result (λ slot. slot ≡ slot_of self.now.history task number) }
    {
        let Some(bytes) = self.data(task, number) else {
            return Ok(None);
        };
        Ok(Some(Items::of(Vec::from_slice(alloc, bytes)?)))
    }

    /// Returns copies of the data that a task, 0 to 7, reads of its first `count` datagrams, at most 16. Fails with
    /// `AllocError` if an allocation fails.
    fn slots(
        &self,
        alloc: Global,
        task: u8,
        count: u8,
    ) -> Result<Items<Option<Items<u8>>>, AllocError>
        requires task { task < TASKS }
        requires count { count ≤ MOST_DATAGRAMS }
        ensures { IfOk result (λ slots. slots ≡ map (slot_of self.now.history task) (range_with_len 0 count)) }
    {
        let mut slots = Vec::with_capacity(alloc, usize::from(count))?;
        for number in 0..count {
            slots.push(self.slot(alloc, task, number)?)?;
        }
        Ok(Items::of(slots))
    }

    /// Returns the image of a task in the present epoch, or the refusal `NoSuchTask` for a task over 7. Fails with `AllocError`
    /// if an allocation fails.
    fn image(&self, alloc: Global, task: u8) -> Result<Answer, AllocError>
        ensures answer { IfOk result (λ returned. returned ≡ answer_to self.now.history (Reads task)) }
        ensures early { IfSome (lowest (read_faults task)) (λ fault. result ≡ Ok (answer.Refused fault)) }
    {
        if task >= TASKS {
            return Ok(Answer::Refused(CoreFault::NoSuchTask));
        }
        let count = self.plan.places().datagrams(task).len() as u8;
        let slots = self.slots(alloc, task, count)?;
        let epoch = self.plan.epoch();
        Ok(Answer::Image { epoch, slots })
    }

    /// Returns the image that a task reads: the present epoch, and data or none for each datagram that the task has in the
    /// present line. The data are those of the datagram's last good answer in this epoch. A task over 7 is refused with
    /// `NoSuchTask`, even if memory is short. Fails with `AllocError` if an allocation fails.
    pub fn read(&self, alloc: Global, task: u8) -> Result<Answer, AllocError>
        ensures answer { IfOk result (λ returned. returned ≡ answer_to self.now.history (Reads task)) }
        ensures early { IfSome (lowest (read_faults task)) (λ fault. result ≡ Ok (answer.Refused fault)) }
        ensures shows { IfOk result (λ returned. task < TASKS → ShowsLastData self.now.history task returned) }
    {
        self.image(alloc, task)
    }
}
