//! `TaskSet`: some of the eight tasks.

/// A set of tasks, each by its number, 0 to 7.
#[derive(Clone, Copy, Debug, PartialEq, Eq)]
pub struct TaskSet {
    // bit t is 1 if task t is in the set
    bits: u8,
}

impl TaskSet {
    ghost use Rattle.std.specs.Prelude.{◌≡◌, ◌==◌, ◌&&◌, ◌||◌, ◌<◌, IfSome, not};
    ghost use Rattle.hc_records.specs.declared.limits.TheConstants.{TASKS};
    ghost use Rattle.hc_owed.specs.TaskSets.{either_set, every_task, has_task, no_task, only_task, some_task, tasks_where};

    /// No task.
    pub fn none() -> TaskSet
        ensures { result ≡ no_task }
    {
        TaskSet { bits: 0 }
    }

    /// All eight tasks.
    pub fn all() -> TaskSet
        ensures { result ≡ every_task }
    {
        TaskSet { bits: 0xff }
    }

    /// Returns one task alone, or no task for `None`.
    pub fn of(own: Option<u8>) -> TaskSet
        requires { IfSome own (λ task. task < TASKS) }
        ensures { result ≡ only_task own }
    {
        match own {
            Some(task) => TaskSet { bits: 1 << task },
            None => TaskSet::none(),
        }
    }

    /// The tasks of either set.
    pub fn with(self, other: TaskSet) -> TaskSet
        ensures { result ≡ either_set self other }
    {
        TaskSet {
            bits: self.bits | other.bits,
        }
    }

    /// Returns the set with a task, 0 to 7, if `added` is true, otherwise the set as it is.
    pub fn with_task(self, task: u8, added: bool) -> TaskSet
        requires { task < TASKS }
        ensures { result ≡ tasks_where (λ other. has_task other self || (added && task == other)) }
    {
        if added {
            self.with(TaskSet::of(Some(task)))
        } else {
            self.with(TaskSet::none())
        }
    }

    /// True if a task, 0 to 7, is in the set.
    pub fn has(self, task: u8) -> bool
        requires { task < TASKS }
        ensures { result ≡ has_task task self }
    {
        self.bits >> task & 1 == 1
    }

    /// True if no task is in the set.
    pub fn is_empty(self) -> bool
        ensures { result ≡ not (some_task self) }
    {
        self.bits == 0
    }

    /// The tasks that are not in the set.
    pub(crate) fn others(self) -> TaskSet
        ensures { result ≡ tasks_where (λ task. not (has_task task self)) }
    {
        TaskSet {
            bits: self.bits ^ 0xff,
        }
    }

    /// Returns the set as a number: bit t is 1 if task t is in the set.
    pub fn bits(self) -> u8
        ensures { result ≡ self.bits }
    {
        self.bits
    }
}
