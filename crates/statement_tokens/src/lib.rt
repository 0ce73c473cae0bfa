//! The tokens of the statement language: characters to tokens, with their places, and the laws of them.
#![tactic(auto)]

mod fault;
mod language;
mod laws;
mod next;
mod place;
mod scan;
mod scanner;
mod token;

pub use fault::{Fault, Placed};
pub use language::{Language, language_of};
pub use laws::{each_text_has_tokens_or_a_fault, tokens_and_faults_are_unique};
pub use place::Spot;
pub use scan::{NAME_LIMIT, characters};
pub use scanner::Scanner;
pub use token::{Token, TokenKind};
