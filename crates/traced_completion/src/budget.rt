//! The budget of a completion.

/// How many ambiguities are treated at most, and how many steps a reduction makes at most.
#[derive(Clone, Copy)]
pub struct Budget {
    /// From 1 to 1,000,000.
    pub pairs: u32,
    /// From 1 to 1,000,000.
    pub steps: u32,
}
