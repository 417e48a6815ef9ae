//! Reads that outlast edits: the epoch and the steady data of a task, as long as no edit changes the task.
ghost use Rattle.std.specs.Prelude.{◌≡◌, ◌<◌, ◌≤◌, ◌⊎◌, IfOk, IfSome, None, Ok};
ghost use Rattle.std.specs.Option.{option_copied};
ghost use Rattle.hc_records.specs.declared.limits.TheConstants.{MOST_DATAGRAMS, TASKS};
ghost use Rattle.hc_records.specs.Lists.{lowest};
ghost use Rattle.hc_events.specs.declared.answer.Answer.TheVariants as answer;
ghost use Rattle.hc_events.specs.Steady.{steady_serial, steady_slot, task_epoch};
ghost use Rattle.hc_events.specs.Steps.{read_faults};
ghost use Rattle.hc_core.specs.Steady.{steady_answer};

use crate::keeping::Core;
use hc_events::answer::Answer;
use hc_events::faults::CoreFault;
use hc_records::limits::{MOST_DATAGRAMS, TASKS};
use hc_records::task::Task;
use std::alloc::{AllocError, Global};

impl Core {
    /// The epoch of the last accepted edit that changed a task: a datagram of the task, the place of one of its variables, or a
    /// register block of one of its areas. 0 if no edit changed the task, and 0 for a task over 7. It allocates nothing (this
    /// project's profile).
    pub fn task_epoch(&self, task: u8) -> u32
        ensures epoch { task < TASKS → result ≡ task_epoch self.now.history task }
        ensures none { TASKS ≤ task → result ≡ 0 }
    {
        // a look at the plan gives the core's invariant: the epochs are the history's
        let _ = &self.plan;
        if task >= TASKS {
            return 0;
        }
        self.epochs[usize::from(task)]
    }

    /// The steady data of one of a task's datagrams, lent: the data of the last good answer since the last accepted edit that
    /// changed the task, or none if there was none since. None for a task over 7 or a number over 15. It allocates nothing
    /// (this project's profile).
    pub fn steady_data(&self, task: u8, number: u8) -> Option<&[u8]>
        ensures slot { task < TASKS → number < MOST_DATAGRAMS → option_copied result ≡ steady_slot self.now.history task number }
        ensures none { TASKS ≤ task ⊎ MOST_DATAGRAMS ≤ number → option_copied result ≡ None }
    {
        // a look at the plan gives the core's invariant: the image shows the history's data
        let _ = &self.plan;
        if task >= TASKS || usize::from(number) >= MOST_DATAGRAMS {
            return None;
        }
        self.inputs.data(Task(task), number)
    }

    /// The serial of the sending that the steady data of a datagram answer. Beside `next_serial` it tells how old the data are.
    /// None if `steady_data` returns none. It allocates nothing (this project's profile).
    pub fn steady_serial(&self, task: u8, number: u8) -> Option<u64>
        ensures serial { task < TASKS → number < MOST_DATAGRAMS → result ≡ steady_serial self.now.history task number }
        ensures none { TASKS ≤ task ⊎ MOST_DATAGRAMS ≤ number → result ≡ None }
    {
        // a look at the plan gives the core's invariant: the ages are the history's
        let _ = &self.plan;
        if task >= TASKS || usize::from(number) >= MOST_DATAGRAMS {
            return None;
        }
        match self.ages.get(Task(task), number) {
            Some(age) => Some(age.serial),
            None => None,
        }
    }

    /// Returns the steady data of a task: the present epoch, and data or none for each datagram that the task has in the
    /// present line. The data are those of the datagram's last good answer since the last accepted edit that changed the task.
    /// A task over 7 is refused with `NoSuchTask`, even if memory is short. Fails with `AllocError` if an allocation fails
    /// (this project's profile).
    pub fn steady_read(&self, alloc: Global, task: u8) -> Result<Answer, AllocError>
        ensures answer { IfOk result (λ returned. returned ≡ steady_answer self.now.history task) }
        ensures early { IfSome (lowest (read_faults task)) (λ fault. result ≡ Ok (answer.Refused fault)) }
    {
        if task >= TASKS {
            return Ok(Answer::Refused(CoreFault::NoSuchTask));
        }
        let count = self.plan.places().datagrams(task).len() as u8;
        let slots = self.inputs.read(alloc, Task(task), count)?;
        let epoch = self.plan.epoch();
        Ok(Answer::Image { epoch, slots })
    }
}
