//! Preadditive and involutive categories as traits of laws, with three ways to make one.
#![tactic(auto)]

mod category;
mod opposite;
mod pair;
mod parity;

pub use category::{Category, Involutive, Preadditive};
pub use opposite::Opposite;
pub use pair::Pair;
pub use parity::Parity;
