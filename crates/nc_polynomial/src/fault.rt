//! What can go wrong in the arithmetic of polynomials.
ghost use Rattle.std.specs.Prelude.{◌≡◌};
ghost use Rattle.nc_polynomial.specs.Faults.{IsMemory};
ghost use Rattle.nc_polynomial.specs.Stops.{IsSameFault};
ghost use Rattle.nc_polynomial.specs.declared.fault.PolyFault.TheVariants as fault;

use coef_int::Overflow;
use lists::Stop;
use std::alloc::{AllocError, AllocFailed};
use thiserror::Error;

/// A limit on the size of a polynomial that is exceeded.
#[derive(Clone, Copy, Debug, PartialEq, Eq, Error)]
#[error("{}", if *letters {"a word has more than 500 letters"} else {"there are more than 20,000 terms"})]
pub struct SizeFault {
    /// Whether a word has more than 500 letters, and not the polynomial more than 20,000 terms.
    pub letters: bool,
}

/// What can go wrong in the arithmetic of polynomials. An overflow comes before a size.
#[derive(Debug, Drop, Error)]
pub enum PolyFault {
    /// The first product or sum that is no coefficient.
    #[error(transparent)]
    Overflow(Overflow),
    /// A word of the result is too long, or the result has too many terms.
    #[error(transparent)]
    Size(SizeFault),
    /// Memory is short.
    #[error(transparent)]
    Memory(AllocError),
}

impl<T: Drop> From<AllocFailed<T>> for PolyFault {
    ghost from_gives = { λ _ e. IsMemory e };

    fn from(_failed: AllocFailed<T>) -> PolyFault {
        PolyFault::Memory(AllocError)
    }
}

impl From<AllocError> for PolyFault {
    ghost from_gives = { λ _ e. IsMemory e };

    fn from(failed: AllocError) -> PolyFault {
        PolyFault::Memory(failed)
    }
}

impl From<Overflow> for PolyFault {
    ghost from_gives = { λ overflow e. e ≡ fault.Overflow overflow };

    fn from(overflow: Overflow) -> PolyFault {
        PolyFault::Overflow(overflow)
    }
}

impl From<SizeFault> for PolyFault {
    ghost from_gives = { λ size e. e ≡ fault.Size size };

    fn from(size: SizeFault) -> PolyFault {
        PolyFault::Size(size)
    }
}

impl From<Stop<Overflow>> for PolyFault {
    ghost from_gives = { λ stopped e. IsSameFault stopped e };

    fn from(stopped: Stop<Overflow>) -> PolyFault {
        match stopped {
            Stop::Fault(overflow) => PolyFault::Overflow(overflow),
            Stop::Memory(failed) => PolyFault::Memory(failed),
        }
    }
}
