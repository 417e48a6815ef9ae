//! Faults of reading a variable's value. A fault's number is part of the program's printed words and never changes.
ghost use Rattle.std.specs.Prelude.{◌≡◌};
ghost use Rattle.hc_publish.specs.ViewFaults.{view_fault_number};

use thiserror::Error;

/// The reason for which a task gets no value of a variable.
#[derive(Clone, Copy, Debug, PartialEq, Eq, Error)]
pub enum ViewFault {
    /// The variable has no place in the line.
    #[error("the variable has no place in the line")]
    NoSuchVariable,
    /// The variable is an output.
    #[error("the variable is an output")]
    IsOutput,
    /// The variable lies in another task.
    #[error("the variable lies in another task")]
    OtherTask,
    /// The variable's datagram has no good answer in the epoch.
    #[error("the variable's datagram has no good answer in this epoch")]
    NotAnswered,
}

impl ViewFault {
    /// Returns the fault's number, 1 to 4.
    pub fn number(self) -> u8
        ensures { result ≡ view_fault_number self }
    {
        match self {
            ViewFault::NoSuchVariable => 1,
            ViewFault::IsOutput => 2,
            ViewFault::OtherTask => 3,
            ViewFault::NotAnswered => 4,
        }
    }
}
