//! Completion of the generators of a problem in rounds: rules, and records of how each was made.
#![tactic(auto)]

mod budget;
mod causes;
mod completion;
mod first_reductions;
mod generators;
mod laws;
mod passes;
mod pending;
mod reduction;
mod rounds;
mod second_reduction;

pub use budget::Budget;
pub use causes::reduction_cause;
pub use completion::{Completion, Step};
pub use laws::{rounds_are_unique, states_are_bounded, states_are_unique, states_have_rules};
pub use pending::{
    Pending, ambiguities_stay, least_words_are_least, nothing_is_pending_at_first,
    pending_words_are_over, stores_are_unique, taken_ones_are_ambiguities,
};
