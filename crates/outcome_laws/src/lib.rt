//! What holds of the states of a run, what the outcomes of claims mean, their limits, that there are outcomes, and how many pairs are enough.
#![tactic(auto)]

mod existence_laws;
mod limit_laws;
mod meaning_laws;
mod pair_laws;
mod run_laws;

pub use existence_laws::{
    each_claim_has_an_outcome, each_problem_has_outcomes, each_state_has_a_round,
};
pub use limit_laws::{evidence_fits, last_rules_have_letters, outcomes_have_letters};
pub use meaning_laws::{
    closed_claims_are_outside, derived_claims_add_up, halted_certificates_are_inside,
    least_words_bound_derivations, outcomes_mean_what_they_say,
};
pub use pair_laws::{open_runs_treat_few, pairs_are_enough, pairs_are_enough_for_each};
pub use run_laws::{
    closed_is_nothing_pending, each_generator_has_its_turn, first_is_least_pending, runs_are_kept,
    states_of_problems_are_kept,
};
