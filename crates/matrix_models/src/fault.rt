//! Why numbers are no matrix.

use std::alloc::AllocError;
use thiserror::Error;

/// Why numbers are no matrix.
#[derive(Debug, Drop, Error)]
pub enum MatrixFault {
    /// A side isn't from 1 to 64, or the number of entries isn't the number of rows times that of columns.
    #[error("the sides of a matrix are from 1 to 64, and it has rows times columns entries")]
    BadShape,
    /// The shape is right, and this is the first entry that isn't below the modulus, counted from 0.
    #[error("the entry at place {place} isn't below the modulus")]
    EntryTooLarge { place: usize },
    /// Memory was short.
    #[error(transparent)]
    Memory(AllocError),
}
