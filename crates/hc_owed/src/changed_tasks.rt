//! The tasks of the slaves that leave the line with an edit.

use crate::readiness::Readiness;
use crate::task_set::TaskSet;
use hc_registers::ranked::Gone;

impl Readiness {
    ghost use Rattle.std.specs.Prelude.{◌≡◌, ℕ, ◌<◌, ◌≤◌};
    ghost use Rattle.hc_records.specs.declared.limits.TheConstants.{TASKS};
    ghost use Rattle.hc_owed.specs.ChangedTasks.{leaves_task, own_at};
    ghost use Rattle.hc_owed.specs.TaskSets.{has_task};

    /// The task that the line's block of an area's FMMU names, by the area's index. No task if there is no such area.
    fn own(&self, n: usize) -> TaskSet
        ensures { result ≡ own_at self.now n }
    {
        match self.areas.get(n) {
            Some(area) => area.own,
            None => TaskSet::none(),
        }
    }

    /// The tasks of the areas of the slaves that leave.
    pub(crate) fn tasks_left(&self, gone: Gone) -> TaskSet
        requires { 1 ≤ gone.rank }
        ensures { (task : ℕ) → task < TASKS → has_task task result ≡ leaves_task self.now gone task }
    {
        let mut set = TaskSet::none();
        let from = gone.first_place() / 2;
        for n in from..from + 8 * usize::from(gone.slaves) {
            set = set.with(self.own(n));
        }
        set
    }
}
