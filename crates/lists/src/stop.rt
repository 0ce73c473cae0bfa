//! Why a call gives no answer.

ghost use Rattle.lists.specs.Stop.{IsMemory};

use std::alloc::{AllocError, AllocFailed};

/// Why a call gives no answer: what is wrong with its input, or want of memory.
#[derive(Debug, Drop)]
pub enum Stop<E> {
    /// What is wrong.
    Fault(E),
    /// Memory is short.
    Memory(AllocError),
}

impl<E: Drop> From<AllocError> for Stop<E> {
    ghost from_gives = { λ _ stop. IsMemory stop };

    fn from(error: AllocError) -> Stop<E> {
        Stop::Memory(error)
    }
}

impl<T: Drop, E: Drop> From<AllocFailed<T>> for Stop<E> {
    ghost from_gives = { λ _ stop. IsMemory stop };

    fn from(_error: AllocFailed<T>) -> Stop<E> {
        Stop::Memory(AllocError)
    }
}
