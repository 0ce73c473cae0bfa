//! The candidates of a shape: which matrices are tried as models of a statement, and in which order.
#![tactic(auto)]

mod candidate_count;
mod conditions;
mod constants;
mod drawn_values;
mod entries;
mod equations;
mod factor_rows;
mod given_values;
mod laws;
mod letter_numbers;
mod letter_tables;
mod one_candidate;
mod plan;
mod shape_fault;
mod shape_matrices;
mod shapes;
mod solved_terms;
mod tables;
mod tested_values;
mod unknowns;
mod value_matrices;
mod value_rows;
mod word_rows;

pub use candidate_count::{all_candidates, candidates};
pub use laws::{candidates_are_unique, each_number_has_a_candidate};
pub use letter_tables::LetterTable;
pub use one_candidate::{candidate, candidate_by, candidate_values};
pub use plan::{LinearAssumption, LinearAssumptions, Plan, plan_of};
pub use shape_fault::ShapeFault;
pub use shapes::check_shape;
pub use tables::Tables;
pub use tested_values::{is_claim_zero, is_model};
