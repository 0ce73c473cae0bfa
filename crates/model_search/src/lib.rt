//! The search for a model: the first candidate that breaks a claim.
#![tactic(auto)]

mod candidate_search;
mod found;
mod laws;

pub use candidate_search::{search, search_each};
pub use found::Found;
pub use laws::{
    breaking_candidates_refute, each_search_has_an_answer, least_breaking_is_unique,
    none_breaks_leaves_no_least,
};
