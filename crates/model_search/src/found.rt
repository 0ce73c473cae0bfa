//! What a search for a breaking candidate finds.

use matrix_models::Model;

/// A candidate that breaks a claim.
#[derive(Drop)]
pub struct Found {
    /// The number of its shape, from 1.
    pub shape: u32,
    /// Its own number, from 0.
    pub candidate: u32,
    /// Its model, with the number of the claim.
    pub model: Model,
}
