//! Faults of a chain.
ghost use Rattle.std.specs.Prelude.{◌≡◌};

use std::alloc::AllocError;
use thiserror::Error;

/// The fault of a chain. Its number is part of the program's printed words and never changes.
#[derive(Clone, Copy, Debug, PartialEq, Eq, Error)]
pub enum ChainFault {
    /// An allocation failed.
    #[error("out of memory")]
    Memory,
}

impl ChainFault {
    /// The fault's number: 1.
    pub fn number(self) -> u8
        ensures { result ≡ 1 }
    {
        match self {
            ChainFault::Memory => 1,
        }
    }
}

impl From<AllocError> for ChainFault {
    ghost use Rattle.std.specs.Prelude.{◌≡◌};
    ghost use Rattle.hc_segment.specs.declared.faults.ChainFault.TheVariants.{Memory};

    ghost from_gives = { λ _ fault. fault ≡ Memory };

    fn from(_error: AllocError) -> ChainFault {
        ChainFault::Memory
    }
}
