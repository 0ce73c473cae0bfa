//! Orders of words: the canonical order, by weights and by a block of letters, with the laws of an admissible order.
#![tactic(auto)]

mod any;
mod block;
mod degree;
mod fault;
mod order;
mod weight;

pub use any::{AnyOrder, OrderSpec};
pub use block::BlockLex;
pub use degree::DegLex;
pub use fault::OrderFault;
pub use order::{MEASURED_LETTERS, WordOrder};
pub use weight::{WEIGHT_LIMIT, WeightLex};
