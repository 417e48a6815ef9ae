//! Faults of an opening.
ghost use Rattle.std.specs.Prelude.{◌≡◌};
ghost use Rattle.hc_publish.specs.Faults.{open_fault_number};

use std::alloc::AllocError;
use thiserror::Error;

/// The reason for which nothing is opened. A fault's number is part of the program's printed words and never changes.
#[derive(Clone, Copy, Debug, PartialEq, Eq, Error)]
pub enum OpenFault {
    /// A task of the opening line, 0 to 7, needs more than 16 datagrams; it is the lowest such task. The opening of a plan
    /// never fails with it, since there is no such plan.
    #[error("task {0} needs more than 16 datagrams")]
    TooManyDatagrams(u8),
    /// An allocation failed.
    #[error("out of memory")]
    Memory,
    /// The published copies gave no seat.
    #[error("a seat was refused")]
    NoSeat,
}

impl OpenFault {
    /// Returns the fault's number, 1 to 3.
    pub fn number(self) -> u8
        ensures { result ≡ open_fault_number self }
    {
        match self {
            OpenFault::TooManyDatagrams(_) => 1,
            OpenFault::Memory => 2,
            OpenFault::NoSeat => 3,
        }
    }
}

impl From<AllocError> for OpenFault {
    ghost use Rattle.std.specs.Prelude.{◌≡◌};
    ghost use Rattle.hc_publish.specs.declared.faults.OpenFault.TheVariants.{Memory};

    ghost from_gives = { λ _ fault. fault ≡ Memory };

    fn from(_error: AllocError) -> OpenFault {
        OpenFault::Memory
    }
}
