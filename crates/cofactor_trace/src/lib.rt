//! Rows over generators that add up to a multiple of a polynomial, and how they are made from records.
#![tactic(auto)]

mod divisor;
mod expansion;
mod extent;
mod fault;
mod halt;
mod laws;
mod lemmas;
mod naming;
mod record;
mod replacement;
mod size;
mod table;

pub use expansion::expand;
pub use fault::{ExpandFault, GatherFault};
pub use halt::{Cause, Halt, Place};
pub use laws::{
    expansions_balance, expansions_fit, gatherings_add_up, gatherings_are_ranged, gatherings_fit,
    generators_are_named, lemmas_are_named, lemmas_have_rows, multiples_are_least, words_are_kept,
};
pub use lemmas::gather;
pub use size::{LETTER_LIMIT, ROW_LIMIT};
pub use traced_rows::{
    CertFrom, CertRow, Certificate, Cofactors, Evidence, Format, Lemma, LemmaCertificate, LemmaRow,
    Made, Origin, Row,
};
