//! What a certificate is refused for.
ghost use Rattle.cofactor_checker.specs.Acceptance.{IsMemory};

use coef_int::Overflow;
use std::alloc::{AllocError, AllocFailed};
use thiserror::Error;
use word_core::Word;

/// The first test that a certificate fails, with lemmas or without. Rows are numbered from 1, through the lemmas and
/// the goal. Of a certificate without lemmas all rows are the goal's, and the denominator is the goal's scale.
#[derive(Debug, Drop, Error)]
pub enum Refusal {
    /// The certificate names no claim.
    #[error("the certificate names no claim")]
    NoSuchClaim,
    /// The row with this number names no generator.
    #[error("row {row} names no generator")]
    NoSuchGenerator { row: u32 },
    /// The denominator or a scale is below 1.
    #[error("the denominator or a scale is below 1")]
    ZeroDenominator,
    /// A product or a sum leaves the range of coefficients: in the row with this number, or, for the number 0,
    /// in the goal's scale times the claim.
    #[error("row {row}: {overflow}")]
    Overflow { row: u32, overflow: Overflow },
    /// The sum of the lemma's or the goal's rows up to this one has more than 200,000 terms.
    #[error("the sum has more than 200,000 terms at row {row}")]
    Size { row: u32 },
    /// The least word, in the canonical order, at which the sum isn't the goal's scale times the claim, with the
    /// coefficient of the multiple and that of the sum.
    #[error("the sum has the coefficient {got} where {want} is wanted")]
    Differs { word: Word, want: i128, got: i128 },
    /// The row with this number names no lemma that stands before.
    #[error("row {row} names no earlier lemma")]
    NoSuchLemma { row: u32 },
    /// The least word, in the canonical order, whose coefficient in the sum of the lemma's rows its scale doesn't
    /// divide.
    #[error("the scale of lemma {lemma} does not divide the coefficient {got}")]
    NotDivisible { lemma: u32, word: Word, got: i128 },
    /// The lemma's polynomial has more than 20,000 terms or a word of more than 500 letters.
    #[error("the polynomial of lemma {lemma} is too large")]
    LemmaSize { lemma: u32 },
    /// The scale of the lemma with this number, counted from 1, or, for the number 0, that of the goal, doesn't
    /// divide the denominator.
    #[error("the scale of lemma {lemma} does not divide the denominator")]
    LooseScale { lemma: u32 },
    /// The polynomials of the lemmas so far have more than 1,000,000 terms together. The row is the last that was
    /// read, and 0 where none was.
    #[error("the lemmas up to row {row} have more than 1,000,000 terms")]
    Kept { row: u32 },
    /// Memory is short.
    #[error(transparent)]
    Memory(AllocError),
}

impl From<AllocError> for Refusal {
    ghost from_gives = { λ _ e. IsMemory e };

    fn from(failed: AllocError) -> Refusal {
        Refusal::Memory(failed)
    }
}

impl<T: Drop> From<AllocFailed<T>> for Refusal {
    ghost from_gives = { λ _ e. IsMemory e };

    fn from(_failed: AllocFailed<T>) -> Refusal {
        Refusal::Memory(AllocError)
    }
}
