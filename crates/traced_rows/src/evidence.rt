//! Evidence in two formats: rows over generators alone, and rows over generators and lemmas.

use crate::Certificate;
use lists::Listing;
use word_core::Word;

/// What a row of a lemma certificate is over: a generator or a lemma, with its number counted from 1.
#[derive(Clone, Copy)]
pub enum CertFrom {
    /// The generator with this number.
    Generator(u32),
    /// The lemma with this number.
    Lemma(u32),
}

/// The row c l G r of a lemma or of the goal: a coefficient, a word, a generator or a lemma, and a word.
#[derive(Drop)]
pub struct LemmaRow {
    /// The coefficient, from -(2^127 - 1) to 2^127 - 1 where a certificate is read or made.
    pub coef: i128,
    /// The word before the generator or lemma.
    pub left: Word,
    /// The generator or the lemma.
    pub from: CertFrom,
    /// The word after it.
    pub right: Word,
}

/// A polynomial by its rows: the rows add up to the scale times the polynomial.
#[derive(Drop)]
pub struct Lemma {
    /// The positive integer by which the polynomial is multiplied.
    pub scale: i128,
    /// The rows over generators and earlier lemmas, in the order in which they are added up.
    pub rows: Listing<LemmaRow>,
}

/// Lemmas, numbered from 1, and the rows of a claim over generators and lemmas.
#[derive(Drop)]
pub struct LemmaCertificate {
    /// The number of the claim, counted from 1.
    pub claim: u32,
    /// A positive integer that each scale divides.
    pub denominator: i128,
    /// The lemmas, of which each is over generators and earlier ones.
    pub lemmas: Listing<Lemma>,
    /// The claim, by its rows over generators and all lemmas.
    pub goal: Lemma,
}

/// A certificate of either format.
#[derive(Drop)]
pub enum Evidence {
    /// Rows over generators alone.
    Plain(Certificate),
    /// Rows over generators and lemmas.
    Lemmas(LemmaCertificate),
}

/// The format in which a claim's certificate is made.
#[derive(Clone, Copy)]
pub enum Format {
    /// Rows over generators alone, format 1.
    Plain,
    /// Rows over generators and lemmas, format 2.
    Lemmas,
}
