//! Why a record has no expansion, and why records give no certificate with lemmas.
ghost use Rattle.cofactor_trace.specs.Faults.{IsMemory, IsOverflow};
ghost use Rattle.cofactor_trace.specs.GatherFaults as gathering;

use coef_int::Overflow;
use std::alloc::{AllocError, AllocFailed};
use thiserror::Error;

/// Why a record has no expansion.
#[derive(Debug, Drop, Error)]
pub enum ExpandFault {
    /// The first product or sum that is no coefficient.
    #[error(transparent)]
    Overflow(Overflow),
    /// There are more than 200,000 rows, or else more than 1,000,000 letters in all their words.
    #[error("{}", if *letters {"the rows have more than 1,000,000 letters"} else {"there are more than 200,000 rows"})]
    Rows { letters: bool },
    /// A word of a row has more than 500 letters.
    #[error("a word has more than 500 letters")]
    Size,
    /// Memory is short.
    #[error(transparent)]
    Memory(AllocError),
}

impl From<Overflow> for ExpandFault {
    ghost from_gives = { IsOverflow };

    fn from(overflow: Overflow) -> ExpandFault {
        ExpandFault::Overflow(overflow)
    }
}

impl<T: Drop> From<AllocFailed<T>> for ExpandFault {
    ghost from_gives = { λ _ e. IsMemory e };

    fn from(_failed: AllocFailed<T>) -> ExpandFault {
        ExpandFault::Memory(AllocError)
    }
}

impl From<AllocError> for ExpandFault {
    ghost from_gives = { λ _ e. IsMemory e };

    fn from(failed: AllocError) -> ExpandFault {
        ExpandFault::Memory(failed)
    }
}

/// Why records give no certificate with lemmas.
#[derive(Debug, Drop, Error)]
pub enum GatherFault {
    /// The first product of the common denominator that is no coefficient.
    #[error(transparent)]
    Overflow(Overflow),
    /// Lemmas and goal have more than 200,000 rows, or else more than 1,000,000 letters in all their words.
    #[error("{}", if *letters {"the rows have more than 1,000,000 letters"} else {"there are more than 200,000 rows"})]
    Rows { letters: bool },
    /// Memory is short.
    #[error(transparent)]
    Memory(AllocError),
}

impl From<Overflow> for GatherFault {
    ghost from_gives = { gathering.IsOverflow };

    fn from(overflow: Overflow) -> GatherFault {
        GatherFault::Overflow(overflow)
    }
}

impl<T: Drop> From<AllocFailed<T>> for GatherFault {
    ghost from_gives = { λ _ e. gathering.IsMemory e };

    fn from(_failed: AllocFailed<T>) -> GatherFault {
        GatherFault::Memory(AllocError)
    }
}

impl From<AllocError> for GatherFault {
    ghost from_gives = { λ _ e. gathering.IsMemory e };

    fn from(failed: AllocError) -> GatherFault {
        GatherFault::Memory(failed)
    }
}
