//! An ambiguity with its overlap word.
use crate::Ambiguity;
use word_core::Word;

/// An ambiguity that was not treated, with its overlap word.
#[derive(Drop)]
pub struct Waiting {
    /// The ambiguity.
    pub which: Ambiguity,
    /// The word in which both leading words occur.
    pub word: Word,
}
