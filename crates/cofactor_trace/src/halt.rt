//! Why a claim has no answer: what stopped its completion, and where.

use coef_int::Overflow;
use lists::Duplicate;
use std::alloc::AllocError;
use word_core::Word;

/// What stopped a completion or the work on a claim: a budget that is used up, a limit that is exceeded, or a coefficient
/// that is too large.
#[derive(Clone, Copy)]
pub enum Cause {
    /// As many ambiguities were treated as the budget allows.
    Pairs { spent: u32 },
    /// A reduction made as many steps as the budget allows, and a word could still be reduced.
    Steps { limit: u32 },
    /// A word has more than 500 letters, or else a polynomial more than 20,000 terms.
    Size { letters: bool },
    /// The rows of a certificate have more than 1,000,000 letters in all, or else they are more than 200,000.
    Rows { letters: bool },
    /// A product or sum is no coefficient.
    Overflow(Overflow),
}

/// The place of a cause: in a round, or after it in the work on a claim or on its certificate. Rounds are numbered from 0.
#[derive(Clone, Copy)]
pub enum Place {
    /// Between two rounds.
    Run,
    /// In the round with this number.
    Round(u32),
    /// In the reduction of a claim after this round.
    Claim(u32),
    /// In making the certificate of a claim after this round.
    Certificate(u32),
}

/// Why there is no answer: the cause, its place, and the least overlap word of an ambiguity that was not treated.
#[derive(Drop)]
pub struct Halt {
    /// What stopped the work.
    pub cause: Cause,
    /// Where it stopped.
    pub place: Place,
    /// The least pending overlap word, where the rules say something below it.
    pub least: Option<Word>,
}

impl Duplicate for Halt {
    fn duplicate(&self) -> Result<Halt, AllocError> {
        Ok(Halt {
            cause: self.cause,
            place: self.place,
            least: self.least.duplicate()?,
        })
    }
}
