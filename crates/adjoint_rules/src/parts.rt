//! What a statement says, before its generators are made.

use lists::Listing;
use nc_polynomial::Poly;
use quiver::{Quiver, Sig};
use word_core::{Letter, Object};
use word_orders::OrderSpec;

/// The shape of the models that are tried: matrices over the integers modulo the modulus, whose sizes are the sides of the objects.
#[derive(Drop)]
pub struct Shape {
    /// One of 2, 3, 5, 7, 101, 32003 and 65537.
    pub modulus: u32,
    /// The side of each object, from 1 to 6, in the order of the objects' numbers.
    pub sides: Listing<u32>,
}

/// What a statement says.
#[derive(Drop)]
pub struct Parts {
    /// The objects and maps.
    pub quiver: Quiver,
    /// The order of words.
    pub order: OrderSpec,
    /// Whether the statement has adjoints.
    pub starred: bool,
    /// The objects whose identities the statement writes, ascending.
    pub marked: Listing<Object>,
    /// What is assumed to be zero, with abbreviations written out.
    pub assumptions: Listing<Poly>,
    /// The signature of each assumption.
    pub sigs: Listing<Sig>,
    /// What is claimed to be zero.
    pub claims: Listing<Poly>,
    /// The signature of each claim.
    pub claim_sigs: Listing<Sig>,
    /// The shapes of the models that are searched.
    pub shapes: Listing<Shape>,
    /// The maps that the search for models solves for, ascending.
    pub solved: Listing<Letter>,
}
