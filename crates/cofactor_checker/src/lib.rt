//! Checks evidence of both formats. A certificate of rows over generators alone is added up, and the sum is compared with the denominator times the claim.
//! Of a certificate with lemmas the lemmas are added up first, one after another, and each is divided by its scale.
#![tactic(auto)]

mod accepted;
mod certificate;
mod compare;
mod evidence;
mod goal;
mod laws;
mod lemma_certificate;
mod lemmas;
mod polynomial;
mod refusal;
mod rows;
mod scales;
mod start;
mod sum;
mod table;

pub use accepted::Accepted;
pub use certificate::{check, check_over};
pub use compare::overflow_of_multiple;
pub use evidence::check_evidence;
pub use goal::check_goal;
pub use laws::{
    accepted_evidence_adds_up, accepted_evidence_is_not_refused, each_certificate_is_judged,
    evidence_is_judged, evidence_refusal_is_unique, refusal_is_unique,
};
pub use lemmas::KEPT_LIMIT;
pub use polynomial::make_polynomial;
pub use refusal::Refusal;
pub use rows::{SUM_LIMIT, numbered};
pub use scales::{Scaled, divides};
pub use start::posed_claim;
