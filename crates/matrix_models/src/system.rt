//! Linear equations over the integers modulo a prime.

use lists::Listing;

/// Linear equations over the integers modulo a prime. What `solve` asks of them is a condition of its own.
#[derive(Drop)]
pub struct System {
    /// One of 2, 3, 5, 7, 101, 32003 and 65537.
    pub modulus: u32,
    /// The number of unknowns.
    pub unknowns: u32,
    /// The equations.
    pub rows: Listing<LinearRow>,
}

/// An equation: the sum of the factors times the unknowns is the right side.
#[derive(Drop)]
pub struct LinearRow {
    /// The factor of each unknown, below the modulus.
    pub factors: Listing<u32>,
    /// The right side, below the modulus.
    pub right: u32,
}
