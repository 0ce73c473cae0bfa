//! From the tree of a statement to its problem, or its first fault.
#![tactic(auto)]

mod fault;
mod laws;
mod polynomials;
mod signatures;
mod stage;
mod stages;

pub use fault::TypeFault;
pub use laws::{each_statement_has_a_problem_or_a_fault, problem_is_unique};
pub use stages::elaborate;
