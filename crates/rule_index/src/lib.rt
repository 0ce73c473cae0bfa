//! Numbered words, and which of them occurs in a word.
#![tactic(auto)]

mod chains;
mod cutting;
mod index;
mod insertion;
mod tree;

pub use index::Index;
