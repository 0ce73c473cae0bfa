//! Letters, and words of letters, which contracts see as lists of numbers.
#![tactic(auto)]

mod letter;
mod overlap;
mod word;

pub use letter::{Letter, Object};
pub use word::Word;
