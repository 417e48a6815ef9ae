//! The tasks whose tables differ between two tables of a line.
use crate::swap::ChangedTask;
use crate::table::{Places, TaskTable};
use hc_records::limits::TASKS;
use hc_records::task::Task;
use std::alloc::{AllocError, Global};

impl Places {
    ghost use Rattle.std.specs.Prelude.{◌≡◌, IfOk, length};
    ghost use Rattle.hc_records.specs.declared.limits.TheConstants.{TASKS};
    ghost use Rattle.hc_places.specs.Swap.{ChangesAscend, AreDifferences};

    /// Returns the tasks whose tables differ from these eight new ones, with their new ones, in the order of their numbers.
    /// Fails with `AllocError` if an allocation fails.
    pub fn changed_tasks(
        &self,
        alloc: Global,
        new: &[TaskTable],
    ) -> Result<Vec<ChangedTask>, AllocError>
        requires { length new.now ≡ TASKS }
        ensures says { IfOk result (λ tasks. AreDifferences self.now.tasks new.now tasks.items) }
        ensures ascends { IfOk result (λ tasks. ChangesAscend tasks.items) }
    {
        let old = self.tasks.as_slice();
        let mut tasks = Vec::new(alloc);
        for number in 0..TASKS {
            let before = &old[usize::from(number)];
            let after = &new[usize::from(number)];
            if !before.is_same(after) {
                tasks.push((Task(number), after.duplicate()))?;
            }
        }
        Ok(tasks)
    }
}
