//! Faults of signatures.

ghost use Rattle.std.specs.Prelude.{◌≡◌};
ghost use Rattle.expressions.specs.Signatures.{not_composable, sum_mismatch, open_zero};

use quiver::Sig;
use statement_tokens::{Fault, Spot};
use thiserror::Error;

/// The first fault of the signatures in an equation, its place, and the two signatures that do not fit, where there are two.
#[derive(Clone, Copy, Debug, Error)]
#[error("{fault}")]
pub struct SignatureFault {
    /// What is wrong.
    pub fault: Fault,
    /// The place of the factor, the term or the side.
    pub at: Spot,
    /// The signature so far, or the left one, and the other.
    pub sides: Option<(Sig, Sig)>,
}

/// The left part of a product doesn't fit the right one, which is at this place.
pub(crate) fn not_composable(at: Spot, left: Sig, right: Sig) -> SignatureFault
    ensures { result ≡ not_composable at left right }
{
    SignatureFault {
        fault: Fault::NotComposable,
        at,
        sides: Some((left, right)),
    }
}

/// Two terms or sides have different signatures, of which the right one is at this place.
pub(crate) fn sum_mismatch(at: Spot, left: Sig, right: Sig) -> SignatureFault
    ensures { result ≡ sum_mismatch at left right }
{
    SignatureFault {
        fault: Fault::SumMismatch,
        at,
        sides: Some((left, right)),
    }
}

/// What is at this place is open.
pub(crate) fn open_zero(at: Spot) -> SignatureFault
    ensures { result ≡ open_zero at }
{
    SignatureFault {
        fault: Fault::OpenZero,
        at,
        sides: None,
    }
}
