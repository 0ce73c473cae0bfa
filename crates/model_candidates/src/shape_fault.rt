//! What is wrong with a shape.

use thiserror::Error;
use word_core::Object;

/// Why matrices of a shape aren't tried.
#[derive(Debug, Drop, Error)]
pub enum ShapeFault {
    /// The modulus isn't one of 2, 3, 5, 7, 101, 32003 and 65537.
    #[error("the modulus is not one of 2, 3, 5, 7, 101, 32003 and 65537")]
    BadModulus,
    /// The object is the first whose side isn't from 1 to 6.
    #[error("the side of an object is not from 1 to 6")]
    BadSide { object: Object },
}
