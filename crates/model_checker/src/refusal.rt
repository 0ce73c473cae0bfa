//! Why a model doesn't refute its claim.
ghost use Rattle.model_checker.specs.Memory.{IsMemory};

use std::alloc::AllocError;
use thiserror::Error;
use word_core::Letter;

/// The first test that a model fails. The tests come in this order: the claim; then each declared map, ascending, with
/// its matrix, its sides and its symmetry; then the assumptions; then the claim's value.
#[derive(Debug, Drop, Error)]
pub enum ModelRefusal {
    /// The model names no claim.
    #[error("the model names no claim")]
    NoSuchClaim,
    /// The declared map has no matrix.
    #[error("a map has no matrix")]
    MissingMap { letter: Letter },
    /// The matrix of the map has another modulus than the model, or other numbers of rows and columns than the sides of
    /// its target and its source.
    #[error("the matrix of a map has another modulus or other sides")]
    BadShape { letter: Letter },
    /// The map is declared as its own adjoint, and its matrix isn't its own transpose.
    #[error("the matrix of a map that is its own adjoint is not its own transpose")]
    NotSymmetric { letter: Letter },
    /// The assumption with this number, counted from 1, is the first whose value isn't zero.
    #[error("assumption {assumption} is not zero")]
    NotZero { assumption: u32 },
    /// The value of the claim is zero.
    #[error("the claim is zero")]
    ClaimZero,
    /// Memory is short.
    #[error(transparent)]
    Memory(AllocError),
}

impl From<AllocError> for ModelRefusal {
    ghost from_gives = { λ _ e. IsMemory e };

    fn from(failed: AllocError) -> ModelRefusal {
        ModelRefusal::Memory(failed)
    }
}
