//! The verdict on a claim.

use cofactor_trace::{Evidence, Halt};
use matrix_models::Model;
use nc_polynomial::Poly;

/// The verdict on a claim.
#[derive(Drop)]
pub enum Verdict {
    /// It follows from the generators, by this evidence.
    Proved(Evidence),
    /// No positive multiple of it is a combination of the generators; this is its rest by the rules.
    NotDerivable { rest: Poly },
    /// It fails in these matrices.
    Refuted(Model),
    /// It is not known, because the run stopped.
    Undecided(Halt),
    /// It fails in none of this many candidates for a model.
    NotRefuted { candidates: u64 },
}
