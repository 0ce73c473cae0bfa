//! Expressions over a quiver: their signatures and their polynomials.
#![tactic(auto)]

mod added;
mod fault;
mod laws;
mod polynomial;
mod powers;
mod signature;

pub use fault::SignatureFault;
pub use laws::{equations_are_typed, letters_are_written};
pub use polynomial::equation_poly;
pub use signature::equation_signature;
