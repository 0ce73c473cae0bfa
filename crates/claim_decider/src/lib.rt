//! The outcome of each claim of a problem: it is derived with evidence, it is closed with a rest, or it halts.
#![tactic(auto)]

mod case;
mod causes;
mod claims;
mod laws;
mod outcome;
mod proof;

pub use claims::{decide, decide_all};
pub use laws::{last_rules_are_unique, outcomes_are_unique};
pub use outcome::{Decided, Outcome};
