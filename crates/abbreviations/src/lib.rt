//! The equations that `pinv`, `inverse`, `inner` and `projection` stand for; what the names in an expression stand for, and whether an adjoint is taken in it.
#![tactic(auto)]

mod names;
mod occurrence;
mod written;

pub use names::{letter_of, object_of};
pub use occurrence::has_quote;
pub use written::{Equation, abbreviation};
