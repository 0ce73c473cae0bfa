//! The command `refute`: models that break the claims of a statement.
#![tactic(auto)]

mod refute;

pub use refute::report_search;
