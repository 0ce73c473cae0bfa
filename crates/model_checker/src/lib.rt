//! Whether a model refutes a claim: matrices for the maps of a statement in which its assumptions are zero and the claim isn't.
#![tactic(auto)]

mod confirm;
mod laws;
mod maps;
mod refusal;
mod representation;
mod value;

pub use confirm::{confirm_model, refutes};
pub use laws::{
    each_model_is_judged, model_refusal_is_unique, refuted_claims_do_not_follow,
    refuting_model_is_not_refused, refuting_models_are_counterexamples,
};
pub use refusal::ModelRefusal;
pub use representation::representation_of;
