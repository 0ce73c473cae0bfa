//! The lines of certificates of both formats except rows.

ghost use Rattle.std.specs.Prelude.{◌≡◌, ◌<◌, ◌^◌, IsTrue, IfSome};
ghost use Rattle.std.specs.Option.{option_copied};
ghost use Rattle.block_text.specs.Letters.{is_number};
ghost use Rattle.block_text.specs.Lines.{is, is_pair, number_behind, integer_of};
ghost use Rattle.certificate_text.specs.Lines.{is_plain_head, is_lemmas_head, denominator_of, scale_digits, is_value, lemma_digits};
ghost use Rattle.certificate_text.specs.Lines.{lemma_scale_of, goal_digits, goal_scale_of};
ghost use Rattle.block_text.specs.Tokens.{tokens_of};

use block_text::{
    Flaw, first_token, integer_of, is, is_number, is_pair, number_behind, number_within,
};
use cofactor_trace::ROW_LIMIT;

/// Whether the line is `certificate 1`.
pub fn is_plain_head(line: &[u8]) -> bool
    ensures { result ≡ is_plain_head (tokens_of line.now) }
{
    is_pair("certificate", "1", line)
}

/// Whether the line is `certificate 2`.
pub fn is_lemmas_head(line: &[u8]) -> bool
    ensures { result ≡ is_lemmas_head (tokens_of line.now) }
{
    is_pair("certificate", "2", line)
}

/// The number of `denominator D`.
pub fn denominator_of(line: &[u8]) -> Result<i128, Flaw>
    ensures { result ≡ denominator_of (tokens_of line.now) }
{
    match number_behind("denominator", line) {
        Some(digits) => integer_of(digits),
        None => Err(Flaw::BadLine),
    }
}

// The number of `scale S`.
fn scale_digits<'a>(line: &'a [u8]) -> Option<&'a [u8]>
    ensures exact { option_copied result ≡ scale_digits (tokens_of line.now) }
    ensures number { IfSome result (λ digits. IsTrue (is_number digits.now)) }
{
    number_behind("scale", line)
}

/// Whether the token is a number with this value.
pub fn is_value(number: u128, token: &[u8]) -> bool
    requires { number < 2 ^ 127 }
    ensures { result ≡ is_value number token.now }
{
    if !is_number(token) {
        return false;
    }
    match number_within(number, token) {
        Some(value) => value == number,
        None => false,
    }
}

// The token after the scale of the lemma with this number.
fn lemma_digits<'a>(number: u128, line: &'a [u8]) -> Option<&'a [u8]>
    requires { number < 2 ^ 127 }
    ensures exact { option_copied result ≡ lemma_digits number (tokens_of line.now) }
    ensures number { IfSome result (λ digits. IsTrue (is_number digits.now)) }
{
    let (word, behind) = first_token(line)?;
    let (token, rest) = first_token(behind)?;
    if is("lemma", word) && is_value(number, token) {
        scale_digits(rest)
    } else {
        None
    }
}

/// The scale of the lemma after so many others. There are at most as many lemmas as rows.
pub fn lemma_scale_of(before: usize, line: &[u8]) -> Result<i128, Flaw>
    ensures { result ≡ lemma_scale_of before (tokens_of line.now) }
{
    let Some(digits) = lemma_digits(before as u128 + 1, line) else {
        return Err(Flaw::BadLine);
    };
    let scale = integer_of(digits)?;
    if before >= ROW_LIMIT {
        return Err(Flaw::TooMany(ROW_LIMIT as u32));
    }
    Ok(scale)
}

// The token after `goal scale`.
fn goal_digits<'a>(line: &'a [u8]) -> Option<&'a [u8]>
    ensures exact { option_copied result ≡ goal_digits (tokens_of line.now) }
    ensures number { IfSome result (λ digits. IsTrue (is_number digits.now)) }
{
    match first_token(line) {
        Some((word, rest)) if is("goal", word) => scale_digits(rest),
        _ => None,
    }
}

/// The scale of the goal.
pub fn goal_scale_of(line: &[u8]) -> Result<i128, Flaw>
    ensures { result ≡ goal_scale_of (tokens_of line.now) }
{
    match goal_digits(line) {
        Some(digits) => integer_of(digits),
        None => Err(Flaw::BadLine),
    }
}
