//! Models: matrices for the maps of a statement, which say nothing by themselves.

use crate::Matrix;
use lists::Listing;

/// Matrices for the maps of a statement, offered as a model in which a claim fails. Plain data: nothing is known of it.
#[derive(Drop)]
pub struct Model {
    /// The number of the claim, from 1.
    pub claim: u32,
    pub modulus: u32,
    /// The side of each object, in the order of their numbers.
    pub sides: Listing<u32>,
    /// One place for each letter, in the order of their numbers: only declared maps have a matrix.
    pub maps: Listing<Option<Matrix>>,
}
