//! The faults of the list of an order.

ghost use Rattle.word_orders.specs.Faults.{IsMemory};

use std::alloc::{AllocError, AllocFailed};
use thiserror::Error;
use word_core::Letter;

/// The fault of the list of an order.
#[derive(Debug, Drop, Error)]
pub enum OrderFault {
    /// The weight of a letter is 0 or above 1,000.
    #[error("the weight of letter {} is not from 1 to 1,000", letter.0)]
    BadWeight { letter: Letter },
    /// A letter is listed for the second time.
    #[error("letter {} is listed twice", letter.0)]
    RepeatedLetter { letter: Letter },
    /// The number of a letter is not below the number of letters.
    #[error("there is no letter {}", letter.0)]
    NoSuchLetter { letter: Letter },
    /// Memory ran out.
    #[error(transparent)]
    Memory(AllocError),
}

impl<T: Drop> From<AllocFailed<T>> for OrderFault {
    ghost from_gives = { λ _ e. IsMemory e };

    fn from(_failed: AllocFailed<T>) -> OrderFault {
        OrderFault::Memory(AllocError)
    }
}

impl From<AllocError> for OrderFault {
    ghost from_gives = { λ _ e. IsMemory e };

    fn from(failed: AllocError) -> OrderFault {
        OrderFault::Memory(failed)
    }
}
