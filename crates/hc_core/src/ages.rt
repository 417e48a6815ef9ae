//! `Ages`: the ages of the data that tasks read. An arrival's good answers set them, and an edit clears those of the tasks that
//! it changes.
ghost use Rattle.std.specs.Prelude.{◌≡◌, ◌+◌, ◌<◌, ◌≤◌, ℕ, None, length, slice_index_or};

use hc_records::limits::MOST_DATAGRAMS;
use hc_records::slots::{SLOTS, slot_number};
use hc_records::task::Task;
use std::alloc::{AllocError, Global};
use std::marker::Model;

/// The age of a datagram's data.
#[derive(Clone, Copy, Debug)]
pub(crate) struct DataAge {
    /// The serial of the sending that the data answer.
    pub(crate) serial: u64,
    /// The epoch in which the answer came.
    pub(crate) epoch: u32,
}

/// Clears the ages of `count` datagrams in a row, from index `from` on.
fn clear_ages(ages: &mut [Option<DataAge>], from: usize, count: usize)
    requires { from + count ≤ length ages.old }
    ensures size { length ages.new ≡ length ages.old }
    ensures cleared { (n : ℕ) → from ≤ n → n < from + count → slice_index_or ages.new n None ≡ None }
    ensures before { (n : ℕ) → n < from → slice_index_or ages.new n None ≡ slice_index_or ages.old n None }
    ensures after_it { (n : ℕ) → from + count ≤ n → slice_index_or ages.new n None ≡ slice_index_or ages.old n None }
{
    for i in from..from + count {
        ages[i] = None;
    }
}

/// The age of each datagram's steady data, or none, for all datagrams that a line can have. All of them are allocated from the
/// start.
#[derive(Debug)]
pub(crate) struct Ages {
    ages: Vec<Option<DataAge>>,
}

impl Drop for Ages {
    fn drop(self) {
        let Ages { ages: _ } = self;
    }
}

impl Model for Ages {
    ghost use Rattle.hc_core.specs.Ages.{Ages, AreWhole};

    ghost Value = { Ages };

    ghost view = { λ ages. ages.ages.items };

    ghost invariant = { λ ages. AreWhole ages.ages.items };
}

impl Ages {
    ghost use Rattle.std.specs.Prelude.{◌≡◌, ◌<◌, IfOk};
    ghost use Rattle.hc_records.specs.declared.limits.TheConstants.{MOST_DATAGRAMS};
    ghost use Rattle.hc_core.specs.Ages.{Dates, HaveNone, Undates, age_of};

    /// Returns ages of which each is none. Fails with `AllocError` if the allocation fails; no other call allocates.
    pub(crate) fn new(alloc: Global) -> Result<Ages, AllocError>
        ensures { IfOk result (λ ages. HaveNone ages) }
    {
        let mut ages = Vec::with_capacity(alloc, SLOTS)?;
        for _ in 0..SLOTS {
            ages.push(None)?;
        }
        Ok(Ages { ages })
    }

    /// Clears the ages of a task's datagrams. Those of every other task stay.
    pub(crate) fn clear_task(&mut self, task: Task)
        ensures { Undates self.old self.new task }
    {
        let at = task.as_index();
        clear_ages(
            self.ages.as_mut_slice(),
            MOST_DATAGRAMS * at,
            MOST_DATAGRAMS,
        );
    }

    /// Sets the age of a datagram. Its number in the task is 0 to 15.
    pub(crate) fn put(&mut self, task: Task, number: u8, age: DataAge)
        requires { number < MOST_DATAGRAMS }
        ensures { Dates self.old self.new task number age }
    {
        self.ages[slot_number(task.number(), number)] = Some(age);
    }

    /// Returns the age of a datagram's data, or none. Its number in the task is 0 to 15.
    pub(crate) fn get(&self, task: Task, number: u8) -> Option<DataAge>
        requires { number < MOST_DATAGRAMS }
        ensures { result ≡ age_of self.now task number }
    {
        let slot = slot_number(task.number(), number);
        self.ages[slot]
    }
}
