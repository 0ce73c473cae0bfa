//! Rows over generators and rules, records of how polynomials were made, and certificates.
#![tactic(auto)]

mod certificate;
mod evidence;

pub use certificate::{CertRow, Certificate, Cofactors};
pub use evidence::{CertFrom, Evidence, Format, Lemma, LemmaCertificate, LemmaRow};
use lists::{Duplicate, Listing};
use std::alloc::AllocError;
use word_core::Word;

/// What a row is over: a generator or a rule, with its number counted from 1.
#[derive(Clone, Copy)]
pub enum Origin {
    /// The generator with this number.
    Generator(u32),
    /// The rule with this number.
    Rule(u32),
}

/// The row c l g r of a sum: a coefficient, a word, a generator or a rule, and a word.
#[derive(Drop)]
pub struct Row {
    /// The coefficient, from -(2^127 - 1) to 2^127 - 1 where a reduction made it.
    pub coef: i128,
    /// The word before the generator or rule.
    pub left: Word,
    /// The generator or the rule.
    pub from: Origin,
    /// The word after it.
    pub right: Word,
}

/// How a polynomial was made: the rows whose sum is the scale times the polynomial.
#[derive(Drop)]
pub struct Made {
    /// The positive integer by which the polynomial is multiplied.
    pub scale: i128,
    /// The rows, in the order in which they are added up.
    pub rows: Listing<Row>,
}

impl Duplicate for Row {
    fn duplicate(&self) -> Result<Row, AllocError> {
        Ok(Row {
            coef: self.coef,
            left: self.left.copy()?,
            from: self.from,
            right: self.right.copy()?,
        })
    }
}

impl Duplicate for Made {
    fn duplicate(&self) -> Result<Made, AllocError> {
        Ok(Made {
            scale: self.scale,
            rows: self.rows.duplicate()?,
        })
    }
}
