//! Copies of the boundaries of the eight tasks of a line.
use crate::cuts::Cuts;
use arrayvec::ArrayVec;
use hc_records::keys::Key;
use hc_records::task::Task;
use std::marker::Model;

/// The boundaries of a task, without `Key::END`.
#[derive(Default, Drop)]
pub(crate) struct TaskStarts {
    keys: ArrayVec<Key, 16>,
}

impl Model for TaskStarts {
    ghost use Rattle.std.specs.Prelude.{List};
    ghost use Rattle.hc_records.specs.declared.keys.Key.{Key};

    ghost Value = { List Key };

    ghost view = { λ starts. starts.keys.items };
}

impl TaskStarts {
    ghost use Rattle.std.specs.Prelude.{◌≡◌};

    /// Returns the keys.
    fn as_slice(&self) -> &[Key]
        ensures { result.now ≡ self.now }
    {
        self.keys.as_slice()
    }

    /// Returns a copy of the keys.
    fn copied(&self) -> ArrayVec<Key, 16>
        ensures { result.items ≡ self.now }
    {
        let Ok(keys) = ArrayVec::try_from(self.keys.as_slice()) else {
            unreachable!()
        };
        keys
    }
}

/// The boundaries of the eight tasks of a line, without `Key::END`, at the time of the copy.
#[derive(Drop)]
pub struct LineStarts {
    tasks: ArrayVec<TaskStarts, 8>,
}

impl Model for LineStarts {
    ghost use Rattle.std.specs.Prelude.{◌≡◌, List, length};
    ghost use Rattle.hc_records.specs.declared.keys.Key.{Key};

    ghost Value = { List (List Key) };

    ghost view = { λ starts. starts.tasks.items };

    ghost invariant = { λ starts. length starts.tasks.items ≡ 8 };
}

impl LineStarts {
    ghost use Rattle.std.specs.Prelude.{◌≡◌, [], length, map, slice_index_or};

    /// Returns a copy of the boundaries of eight tasks. It allocates nothing.
    pub(crate) fn of(tasks: &[Cuts]) -> LineStarts
        requires { length tasks.now ≡ 8 }
        ensures { result ≡ map (λ cuts. cuts.starts) tasks.now }
    {
        let mut starts = ArrayVec::new();
        for cuts in tasks {
            starts.push(TaskStarts {
                keys: cuts.copied_starts(),
            });
        }
        LineStarts { tasks: starts }
    }

    /// Returns the boundaries of a task.
    pub fn of_task(&self, task: Task) -> &[Key]
        ensures { result.now ≡ slice_index_or self.now task [] }
    {
        self.tasks[task.as_index()].as_slice()
    }

    /// Returns a copy of the boundaries of a task.
    pub(crate) fn copied(&self, task: Task) -> ArrayVec<Key, 16>
        ensures { result.items ≡ slice_index_or self.now task [] }
    {
        self.tasks[task.as_index()].copied()
    }
}
