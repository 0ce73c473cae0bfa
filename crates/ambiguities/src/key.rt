//! The keys by which ambiguities are sorted.
use crate::Waiting;

// An ambiguity, with the number of its overlap word that is compared first, and the number of the word's first letters.
#[derive(Drop)]
pub(crate) struct Key {
    pub measure: u32,
    pub front: u64,
    pub waiting: Waiting,
}
