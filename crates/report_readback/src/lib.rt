//! Reports are read back as the evidence and the models that they have, because what a statement declares has names of the language;
//! and the evidence is accepted unless a limit is exceeded.
#![tactic(auto)]

mod laws;
mod name_laws;

pub use laws::{
    breaking_candidates_are_writable, derived_evidence_is_answered, outcome_reports_are_read_back,
    reported_evidence_is_answered, reports_are_read_back, reports_are_read_back_as_models,
    statement_reports_are_read_back, statement_reports_are_read_back_as_models,
};
pub use name_laws::{declared_names_are_names, names_are_name_tokens};
