//! Proofs that cancel letters in evidence text: read from bytes and written back.
#![tactic(auto)]

mod laws;
mod line;
mod place;
mod read;
mod step;
mod write;

pub use laws::{cancellations_are_read_back, each_text_is_told, parts_are_read_back};
pub use read::read_cancellations;
pub use write::{WrittenText, write_cancellation};
