//! What a name stands for, and signatures: a source and a target.

use word_core::{Letter, Object};

/// The source and the target of a letter, a word or a polynomial.
#[derive(Clone, Copy, Debug, PartialEq, Eq)]
pub struct Sig {
    pub source: Object,
    pub target: Object,
}

/// What a name stands for: an object, or a map by its letter.
#[derive(Clone, Copy, Debug, PartialEq, Eq)]
pub enum Named {
    Object(Object),
    Map(Letter),
}
