//! The cyclic tasks of a project, by their numbers. The crates above use this type if the number is known to be below 8; a
//! number from project text or from a user is a plain number until it was compared with `TASKS`.
ghost use Rattle.std.specs.Prelude.{◌≡◌, ◌<◌};
ghost use Rattle.hc_records.specs.declared.limits.TheConstants.{TASKS};

use std::marker::Model;

/// A cyclic task: its number, 0 to 7. Code that writes `Task(number)` proves that the number is below 8.
#[derive(Clone, Copy, Debug, PartialEq, Eq)]
pub struct Task(pub u8);

impl Model for Task {
    ghost use Rattle.std.specs.Prelude.{ℕ, ◌<◌};
    ghost use Rattle.hc_records.specs.declared.limits.TheConstants.{TASKS};

    ghost Value = { ℕ };

    ghost view = { λ task. task.0 };

    ghost invariant = { λ task. task.0 < TASKS };

    ghost inverse = { λ n. record { 0 = n } };
}

impl Task {
    /// Returns the task's number, 0 to 7.
    pub fn number(self) -> u8
        ensures value { result ≡ self }
        ensures below { self < TASKS }
    {
        self.0
    }

    /// Returns the task's index in a list of the eight tasks: its number.
    pub fn as_index(self) -> usize
        ensures value { result ≡ self }
        ensures below { self < TASKS }
    {
        usize::from(self.0)
    }
}
