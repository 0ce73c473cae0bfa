//! What a basis is refused for.
ghost use Rattle.closed_checker.specs.Closed.{IsMemory};

use crate::Part;
use ambiguities::Ambiguity;
use cofactor_trace::Cause;
use nc_polynomial::Poly;
use std::alloc::{AllocError, AllocFailed};

/// The first test that a basis fails. Claims, rules and generators are numbered from 1.
#[derive(Drop)]
pub enum ClosedRefusal {
    /// The basis names no claim.
    NoSuchClaim,
    /// The polynomial with this number is no rule: it is zero, its coefficients have a common divisor above 1, its leading
    /// coefficient is negative, or it has the empty word.
    NotRule { rule: u32 },
    /// The rules leave this of the generator with this number.
    GeneratorLeft { generator: u32, rest: Poly },
    /// They leave this of the S-polynomial of this ambiguity.
    AmbiguityLeft { ambiguity: Ambiguity, rest: Poly },
    /// They leave this of the claim, and not what the basis says.
    OtherRest { got: Poly },
    /// They leave nothing of the claim, as the basis says.
    ZeroRest,
    /// The S-polynomial of the part or its reduction has a fault.
    Stopped { part: Part, cause: Cause },
    /// Memory is short.
    Memory(AllocError),
}

impl From<AllocError> for ClosedRefusal {
    ghost from_gives = { λ _ e. IsMemory e };

    fn from(failed: AllocError) -> ClosedRefusal {
        ClosedRefusal::Memory(failed)
    }
}

impl<T: Drop> From<AllocFailed<T>> for ClosedRefusal {
    ghost from_gives = { λ _ e. IsMemory e };

    fn from(_failed: AllocFailed<T>) -> ClosedRefusal {
        ClosedRefusal::Memory(AllocError)
    }
}
