//! A certificate of rows over generators as a chain of equations: from its denominator times its claim to zero, each line the one before less a step.
#![tactic(auto)]

mod block;
mod chain;
mod fault;
mod laws;
mod line;
mod step;
mod text;

pub use block::put_chain;
pub use chain::{Chain, explain};
pub use fault::ChainFault;
pub use laws::{
    chains_are_read_back, chains_are_unique, each_certificate_is_explained, explained_has_no_fault,
    explained_is_readable, first_fault_is_unique, lines_are_a_chain, lines_are_typed, lines_vanish,
    steps_add_up, steps_are_typed, texts_tell_chains,
};
pub use line::{LETTER_LIMIT, Line, first_line, next_line};
pub use step::count_steps;
pub use text::{LetterTexts, letter_texts, put_line, put_opening, put_use};
