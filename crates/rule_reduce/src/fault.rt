//! Why a polynomial gets no normal form.

ghost use Rattle.std.specs.Prelude.{◌≡◌};
ghost use Rattle.rule_reduce.specs.NormalForms.{IsMemory, halt_of};

use coef_int::Overflow;
use nc_polynomial::{PolyFault, SizeFault};
use std::alloc::{AllocError, AllocFailed};
use thiserror::Error;

/// Why there is no normal form.
#[derive(Debug, Drop, Error)]
pub enum ReduceFault {
    /// As many steps as `limit` says were made, and a word can still be reduced.
    #[error("a word can still be reduced after {limit} steps")]
    Steps { limit: u32 },
    /// The first product or sum of a step that is no coefficient.
    #[error("{} and {} have a product or a sum that is no coefficient", .0.left, .0.right)]
    Overflow(Overflow),
    /// The polynomial after a step, in which no operation overflows, is too large.
    #[error("the polynomial is too large")]
    Size(SizeFault),
    /// Memory is short.
    #[error(transparent)]
    Memory(AllocError),
}

impl<T: Drop> From<AllocFailed<T>> for ReduceFault {
    ghost from_gives = { λ _ e. IsMemory e };

    fn from(_failed: AllocFailed<T>) -> ReduceFault {
        ReduceFault::Memory(AllocError)
    }
}

impl From<AllocError> for ReduceFault {
    ghost from_gives = { λ _ e. IsMemory e };

    fn from(failed: AllocError) -> ReduceFault {
        ReduceFault::Memory(failed)
    }
}

// The fault of a step as that of a reduction.
pub(crate) fn halt(fault: PolyFault) -> ReduceFault
    ensures { result ≡ halt_of fault }
{
    match fault {
        PolyFault::Overflow(overflow) => ReduceFault::Overflow(overflow),
        PolyFault::Size(size) => ReduceFault::Size(size),
        PolyFault::Memory(failed) => ReduceFault::Memory(failed),
    }
}
