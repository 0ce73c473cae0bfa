//! Kinds of lines of a block.

ghost use Rattle.std.specs.Prelude.{◌≡◌};
ghost use Rattle.std.specs.Option.{option_copied, option_map};
ghost use Rattle.lists.specs.Stop.{Gives};
ghost use Rattle.block_lines.specs.LineReadings.{Reading, letter_token, letter_read, polynomial_read};
ghost use Rattle.block_text.specs.Lines.{number_of};
ghost use Rattle.block_text.specs.Tokens.{tokens_of};

use block_text::{Flaw, first_token, is, is_letter, letter_of, number_of, read_polynomial};
use lists::{Listing, Stop};
use quiver::Quiver;
use std::alloc::Global;
use word_core::{Letter, Word};

/// A kind of line, and what is made of one.
pub trait LineKind {
    /// What a line says.
    type Value: Drop;

    ghost reading: { Self → Reading Self.Value };

    /// What the line says, or its first flaw.
    fn read(&self, alloc: Global, line: &[u8]) -> Result<Self::Value, Stop<Flaw>>
        ensures { Gives (λ v. v) result (reading self.now (tokens_of line.now)) };
}

/// A word and a number that is at most the limit.
#[derive(Clone, Copy)]
pub struct NumberLine {
    pub word: &'static str,
    pub most: u32,
}

impl LineKind for NumberLine {
    type Value = u32;

    ghost reading = { λ line. number_of line.word.now line.most };

    fn read(&self, _alloc: Global, line: &[u8]) -> Result<u32, Stop<Flaw>> {
        Ok(number_of(self.word, self.most, line)?)
    }
}

/// A word and a letter of a quiver, or the word alone.
#[derive(Clone, Copy)]
pub struct LetterLine<'q> {
    pub word: &'static str,
    pub quiver: &'q Quiver,
}

// The token after the word, None where there is none.
fn letter_token<'a>(word: &str, line: &'a [u8]) -> Option<Option<&'a [u8]>>
    ensures { option_map option_copied result ≡ letter_token word.now (tokens_of line.now) }
{
    let (first, rest) = first_token(line)?;
    if !is(word, first) {
        return None;
    }
    match first_token(rest) {
        None => Some(None),
        Some((token, end)) if is_letter(token) && first_token(end).is_none() => Some(Some(token)),
        _ => None,
    }
}

impl<'q> LineKind for LetterLine<'q> {
    type Value = Option<Letter>;

    ghost reading = { λ line. letter_read line.quiver.now line.word.now };

    fn read(&self, _alloc: Global, line: &[u8]) -> Result<Option<Letter>, Stop<Flaw>> {
        match letter_token(self.word, line) {
            Some(None) => Ok(None),
            Some(Some(token)) => match letter_of(self.quiver, token) {
                Some(letter) => Ok(Some(letter)),
                None => Err(Stop::Fault(Flaw::UnknownName)),
            },
            None => Err(Stop::Fault(Flaw::BadLine)),
        }
    }
}

/// The list with no spare room.
pub(crate) fn fitted<T>(list: Listing<T>) -> Listing<T>
    ensures { result ≡ list }
{
    let mut items = list.into_vec();
    items.shrink_to_fit();
    Listing::from_vec(items)
}

/// A word and a polynomial in the letters of a quiver.
#[derive(Clone, Copy)]
pub struct PolynomialLine<'q> {
    pub word: &'static str,
    pub quiver: &'q Quiver,
}

impl<'q> LineKind for PolynomialLine<'q> {
    type Value = Listing<(i128, Word)>;

    ghost reading = { λ line. polynomial_read line.quiver.now line.word.now };

    fn read(&self, alloc: Global, line: &[u8]) -> Result<Listing<(i128, Word)>, Stop<Flaw>> {
        match first_token(line) {
            Some((word, behind)) if is(self.word, word) => {
                Ok(fitted(read_polynomial(alloc, self.quiver, behind)?.terms))
            }
            _ => Err(Stop::Fault(Flaw::BadLine)),
        }
    }
}
