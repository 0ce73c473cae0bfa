//! The parts of the check of a basis.

use ambiguities::Ambiguity;

/// What is reduced in a part of the check.
#[derive(Clone, Copy)]
pub enum Part {
    /// The generator with this number, counted from 1.
    Generator(u32),
    /// The S-polynomial of this ambiguity of the rules.
    Ambiguity(Ambiguity),
    /// The claim.
    Claim,
}
