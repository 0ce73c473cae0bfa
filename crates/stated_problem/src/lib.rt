//! The problem of a statement, or how a run ends whose statement has none.
#![tactic(auto)]

mod statement;

pub use statement::read_statement;
