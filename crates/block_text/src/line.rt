//! The lines that blocks of several kinds have.

ghost use Rattle.std.specs.Prelude.{◌≡◌, IsTrue, IfSome};
ghost use Rattle.std.specs.Option.{option_copied, option_map};
ghost use Rattle.block_text.specs.Letters.{is_number};
ghost use Rattle.block_text.specs.Lines.{is, begins, is_pair, is_end, number_behind, number_of, claim_of, integer_of};
ghost use Rattle.block_text.specs.Tokens.{tokens_of, one_token, two_tokens};

use crate::cut::first_token;
use crate::fault::Flaw;
use crate::number::{INTEGER_LIMIT, NUMBER_LIMIT, is_number, number_within};

/// The greatest number of blocks of a kind.
pub const BLOCK_LIMIT: u32 = 100;

/// Whether the token is this word.
pub fn is(word: &str, token: &[u8]) -> bool
    ensures { result ≡ is word.now token.now }
{
    word.as_bytes() == token
}

/// Whether the line begins with this word.
pub fn begins(word: &str, line: &[u8]) -> bool
    ensures { result ≡ begins word.now (tokens_of line.now) }
{
    match first_token(line) {
        Some((first, _)) => is(word, first),
        None => false,
    }
}

// The token of a line that has one.
fn one_token(line: &[u8]) -> Option<&[u8]>
    ensures { option_copied result ≡ one_token (tokens_of line.now) }
{
    let (token, end) = first_token(line)?;
    match first_token(end) {
        Some(_) => None,
        None => Some(token),
    }
}

/// The tokens of a line that has two.
pub fn two_tokens(line: &[u8]) -> Option<(&[u8], &[u8])>
    ensures { option_map (λ pair. (pair.0.now, pair.1.now)) result ≡ two_tokens (tokens_of line.now) }
{
    let (first, behind) = first_token(line)?;
    let second = one_token(behind)?;
    Some((first, second))
}

/// Whether the line is these two words.
pub fn is_pair(first: &str, second: &str, line: &[u8]) -> bool
    ensures { result ≡ is_pair first.now second.now (tokens_of line.now) }
{
    match two_tokens(line) {
        Some((word, other)) => is(first, word) && is(second, other),
        None => false,
    }
}

/// Whether the line is `end`. Of another line only the first token is cut.
pub fn is_end(line: &[u8]) -> bool
    ensures { result ≡ is_end (tokens_of line.now) }
{
    match first_token(line) {
        Some((token, rest)) if is("end", token) => first_token(rest).is_none(),
        _ => false,
    }
}

/// The number after a word, if the line is these.
pub fn number_behind<'a>(word: &str, line: &'a [u8]) -> Option<&'a [u8]>
    ensures exact { option_copied result ≡ number_behind word.now (tokens_of line.now) }
    ensures number { IfSome result (λ digits. IsTrue (is_number digits.now)) }
{
    match two_tokens(line) {
        Some((first, digits)) if is(word, first) && is_number(digits) => Some(digits),
        _ => None,
    }
}

/// The number after a word, at most the limit, if the line is these.
pub fn number_of(word: &str, most: u32, line: &[u8]) -> Result<u32, Flaw>
    ensures { result ≡ number_of word.now most (tokens_of line.now) }
{
    let Some(digits) = number_behind(word, line) else {
        return Err(Flaw::BadLine);
    };
    match number_within(u128::from(most), digits) {
        Some(value) => Ok(value as u32),
        None => Err(Flaw::NumberTooLarge),
    }
}

/// The number of `claim N`.
pub fn claim_of(line: &[u8]) -> Result<u32, Flaw>
    ensures { result ≡ claim_of (tokens_of line.now) }
{
    number_of("claim", NUMBER_LIMIT as u32, line)
}

/// A number as a positive integer or 0.
pub fn integer_of(digits: &[u8]) -> Result<i128, Flaw>
    requires { IsTrue (is_number digits.now) }
    ensures { result ≡ integer_of digits.now }
{
    match number_within(INTEGER_LIMIT, digits) {
        Some(value) => Ok(value as i128),
        None => Err(Flaw::NumberTooLarge),
    }
}
