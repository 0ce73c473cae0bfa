//! What the equations of a statement mean in a category, and that their polynomials say it; and that a file has one tree.
#![tactic(auto)]

mod laws;

pub use laws::{
    equations_are_read, files_have_one_tree, proved_claims_hold, refuted_claims_fail,
    says_equations, statements_are_read,
};
