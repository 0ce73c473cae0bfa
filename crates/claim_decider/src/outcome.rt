//! The outcomes of claims.

use cofactor_trace::{Evidence, Halt};
use lists::Listing;
use nc_polynomial::Poly;

/// The outcome of a claim.
#[derive(Drop)]
pub enum Outcome {
    /// It follows from the generators, as the evidence shows.
    Derived(Evidence),
    /// The completion is closed, and this is the claim's rest, which isn't zero.
    Closed { rest: Poly },
    /// Nothing is decided.
    Halted(Halt),
}

/// The outcomes of claims, in order, and rules.
#[derive(Drop)]
pub struct Decided {
    /// An outcome for each claim.
    pub outcomes: Listing<Outcome>,
    /// The rules of the last round that was completed before the last of the claims had its outcome.
    pub rules: Listing<Poly>,
}
