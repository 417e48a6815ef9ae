//! Reasons for which nothing is viewed or posted.
use std::alloc::AllocError;
use thiserror::Error;

/// The seat got no view of what is published: there is no entry. It never occurs in practice.
#[derive(Clone, Copy, Debug, PartialEq, Eq, Error)]
#[error("the seat was given no view")]
pub struct NoEntry;

/// The reason for which a task's values are not posted.
#[derive(Clone, Copy, Debug, PartialEq, Eq, Error)]
pub enum PostRefusal {
    /// A variable has no place in the line that is shown.
    #[error("the variable has no place in the line")]
    NoSuchVariable,
    /// A variable is an input.
    #[error("the variable is an input")]
    IsInput,
    /// A variable lies in another task.
    #[error("the variable lies in another task")]
    OtherTask,
    /// A variable has too few bits for its value.
    #[error("the variable has too few bits for the value")]
    TooWide,
    /// Four posts of the task wait.
    #[error("four posts of the task wait")]
    NoSpare,
    /// The seat got no view of what is published. It never occurs in practice.
    #[error("the seat was given no view")]
    NoEntry,
    /// An allocation failed.
    #[error("out of memory")]
    Memory,
}

impl From<AllocError> for PostRefusal {
    ghost use Rattle.std.specs.Prelude.{◌≡◌};
    ghost use Rattle.hc_conductor.specs.declared.one_thread.refusals.PostRefusal.TheVariants.{Memory};

    ghost from_gives = { λ _ refusal. refusal ≡ Memory };

    fn from(_error: AllocError) -> PostRefusal {
        PostRefusal::Memory
    }
}
