//! What a reader has made of the lines before one.

use block_lines::LinePlace;
use lists::{Listing, Text};
use matrix_models::Matrix;
use word_core::{Letter, Object};

/// What a line of a model says.
#[derive(Drop)]
pub enum Entry {
    /// The side of an object.
    Side { object: Object, side: u32 },
    /// The matrix of a declared map.
    Map { letter: Letter, matrix: Matrix },
}

/// The names in the lines `side` and `map`, and what these say.
pub type Entries = (Listing<Text>, Listing<Entry>);

/// How far a model was read after its claim: its modulus, and the lines after it.
pub type Behind = LinePlace<u32, Entries>;
