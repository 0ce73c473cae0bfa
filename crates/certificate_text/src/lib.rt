//! Certificates in evidence text: read from bytes and written back.
#![tactic(auto)]

mod evidence;
mod laws;
mod line;
mod place;
mod read;
mod row;
mod step;
mod write;

pub use evidence::{put_evidence, put_goal, put_lemma, write_evidence};
pub use laws::{
    certificates_are_read_back, each_text_is_read, evidence_has_no_fault, evidence_is_unique,
    first_fault_is_unique, parts_are_read_back,
};
pub use line::{denominator_of, goal_scale_of, is_value, lemma_scale_of};
pub use place::{NO_ROWS, Size};
pub use read::{read_certificates, read_evidence};
pub use step::push_lemma_row;
pub use write::{put_certificate, put_opening, write_certificate};
