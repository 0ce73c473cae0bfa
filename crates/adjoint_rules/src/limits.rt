//! The limits of a statement and of bases.

/// The greatest number of assumptions.
pub const ASSUMPTION_LIMIT: u32 = 500;

/// The greatest number of claims.
pub const CLAIM_LIMIT: u32 = 100;

/// The greatest number of shapes.
pub const SHAPE_LIMIT: u32 = 16;

/// The greatest side of an object of a shape.
pub const SHAPE_SIDE_LIMIT: u32 = 6;

/// The greatest number of rules of a basis in evidence text.
pub const RULE_LIMIT: u32 = 100_000;
