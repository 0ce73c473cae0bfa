//! Checks proofs that cancel monic and epic maps: lemmas, and letters that are taken off earlier items, lead one after another to a goal.
#![tactic(auto)]

mod cancellation;
mod check;
mod items;
mod laws;
mod marks;
mod refusal;
mod scales;
mod strip;

pub use cancellation::{Cancellation, Item, Side};
pub use check::check_cancellation;
pub use laws::{
    accepted_cancellation_is_not_refused, accepted_cancellation_leads, cancellation_is_judged,
    cancellation_refusal_is_unique, cancellation_sound, cancellation_star_sound,
};
pub use refusal::CancelRefusal;
