//! Bases: rules and the rest of a claim by them, which say nothing by themselves.

use lists::Listing;
use nc_polynomial::Poly;

/// Rules, given as a basis by which a claim has a rest. Plain data: nothing is known of it.
#[derive(Drop)]
pub struct Basis {
    /// The number of the claim, from 1.
    pub claim: u32,
    /// The rules in order, each as a polynomial.
    pub rules: Listing<Poly>,
    /// The rest of the claim by them.
    pub rest: Poly,
}
