//! Rules that are made of the rests of reductions, with the records of how each was made, and the rows of these records.
#![tactic(auto)]

mod making;
mod rows;

pub use making::push_rule;
pub use rows::{join_rows, negate_rows};
pub use rule_reduce::multiply_rows;
