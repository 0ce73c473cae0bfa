//! Blocks of evidence text whose lines are data: what a line may be, and in which order; and bases, which are read and written by their lines.
#![tactic(auto)]

mod block;
mod laws;
mod line_kind;
mod read;
mod section;
mod write;

pub use block::Blocks;
pub use laws::{
    bases_are_read_back, bases_are_unique, bases_have_no_fault, each_text_is_read,
    first_fault_is_unique, parts_are_read_back,
};
pub use line_kind::{LetterLine, LineKind, NumberLine, PolynomialLine};
pub use read::read_bases;
pub use section::{LinePlace, LineThen, LinesPlace, LinesThen, NoLines, Section};
pub use write::{put_basis, put_letter_line};
