//! Certificates of rows over generators alone.

use lists::{Duplicate, Listing};
use std::alloc::AllocError;
use word_core::Word;

/// The row c l G r of a sum: a coefficient, a word, the number of a generator counted from 1, and a word.
#[derive(Drop)]
pub struct CertRow {
    /// The coefficient, from -(2^127 - 1) to 2^127 - 1 where a certificate is read or made.
    pub coef: i128,
    /// The word before the generator.
    pub left: Word,
    /// The number of the generator, counted from 1.
    pub generator: u32,
    /// The word after the generator.
    pub right: Word,
}

/// The rows whose sum is to be the denominator times a claim.
#[derive(Drop)]
pub struct Certificate {
    /// The number of the claim, counted from 1.
    pub claim: u32,
    /// The positive integer by which the claim is multiplied.
    pub denominator: i128,
    /// The rows, in the order in which they are added up.
    pub rows: Listing<CertRow>,
}

/// The same without the number of a claim: rows whose sum is the denominator times a polynomial.
#[derive(Drop)]
pub struct Cofactors {
    /// The positive integer by which the polynomial is multiplied.
    pub denominator: i128,
    /// The rows, in the order in which they are added up.
    pub rows: Listing<CertRow>,
}

impl Duplicate for CertRow {
    fn duplicate(&self) -> Result<CertRow, AllocError> {
        Ok(CertRow {
            coef: self.coef,
            left: self.left.copy()?,
            generator: self.generator,
            right: self.right.copy()?,
        })
    }
}

impl Duplicate for Certificate {
    fn duplicate(&self) -> Result<Certificate, AllocError> {
        Ok(Certificate {
            claim: self.claim,
            denominator: self.denominator,
            rows: self.rows.duplicate()?,
        })
    }
}

impl Duplicate for Cofactors {
    fn duplicate(&self) -> Result<Cofactors, AllocError> {
        Ok(Cofactors {
            denominator: self.denominator,
            rows: self.rows.duplicate()?,
        })
    }
}
