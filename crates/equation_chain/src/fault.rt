//! Why a certificate has no chain.
ghost use Rattle.equation_chain.specs.Faults.{IsMemory};
ghost use Rattle.equation_chain.specs.declared.fault.ChainFault.TheVariants as fault;

use coef_int::Overflow;
use cofactor_checker::Refusal;
use std::alloc::{AllocError, AllocFailed};
use thiserror::Error;

/// The first fault. Rows are numbered from 1 as in the certificate, those that are no steps too.
#[derive(Debug, Drop, Error)]
pub enum ChainFault {
    /// The certificate is not accepted.
    #[error(transparent)]
    Refused(Refusal),
    /// A product or a sum of the step in this row overflows.
    #[error("row {row}: {overflow}")]
    Overflow { row: u32, overflow: Overflow },
    /// A word of the step in this row has more than 500 letters, or the line after it more than 20,000 terms.
    #[error("the step in row {row} is too large")]
    Size { row: u32 },
    /// The lines up to the one after the step in this row have more than 10,000,000 letters together.
    #[error("the lines up to row {row} have more than 10,000,000 letters")]
    Long { row: u32 },
    /// Memory is short.
    #[error(transparent)]
    Memory(AllocError),
}

impl From<AllocError> for ChainFault {
    ghost from_gives = { λ _ e. IsMemory e };

    fn from(failed: AllocError) -> ChainFault {
        ChainFault::Memory(failed)
    }
}

impl<T: Drop> From<AllocFailed<T>> for ChainFault {
    ghost from_gives = { λ _ e. IsMemory e };

    fn from(_failed: AllocFailed<T>) -> ChainFault {
        ChainFault::Memory(AllocError)
    }
}

impl From<Refusal> for ChainFault {
    ghost use Rattle.std.specs.Prelude.{◌≡◌};

    ghost from_gives = { λ refusal e. e ≡ fault.Refused refusal };

    fn from(refusal: Refusal) -> ChainFault {
        ChainFault::Refused(refusal)
    }
}
