//! Closed bases, checked by themselves: whether all is reduced to zero that has to be, and a claim to the rest that the basis says.
#![tactic(auto)]

mod check;
mod finding;
mod laws;
mod limit;
mod list;
mod part;
mod refusal;
mod rest;
mod rules;
mod table;

pub use check::confirm_closed;
pub use laws::{
    ambiguities_can_be_listed, basis_refusal_is_unique, closed_bases_mean_outside,
    closed_basis_is_not_refused, each_basis_is_judged, lists_are_unique,
};
pub use limit::STEP_LIMIT;
pub use list::all_ambiguities;
pub use part::Part;
pub use refusal::ClosedRefusal;
