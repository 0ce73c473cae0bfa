//! What an accepted certificate says.

/// What accepted evidence says: the denominator times the claim follows from its rows.
#[derive(Clone, Copy)]
pub struct Accepted {
    /// The number of the claim, counted from 1.
    pub claim: u32,
    /// A positive integer.
    pub denominator: i128,
}
