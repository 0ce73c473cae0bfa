//! The polynomials that lines spell.

ghost use Rattle.std.specs.Prelude.{◌≡◌, ◌<◌, ◌≤◌, ◌^◌, ◌∷◌, [], length, IsTrue, IfOk, IfSome, MatchOption};
ghost use Rattle.std.specs.List.{All, list_all};
ghost use Rattle.std.specs.Option.{option_map};
ghost use Rattle.std.specs.declared.cmp.Ordering.TheVariants.{Equal};
ghost use Rattle.nc_polynomial.specs.Limits.{term_limit};
ghost use Rattle.nc_polynomial.specs.Shape.{IsCanonical};
ghost use Rattle.quiver.specs.Declarations.{letter_count};
ghost use Rattle.word_core.specs.Letters.{IsOver};
ghost use Rattle.lists.specs.Stop.{Gives};
ghost use Rattle.block_text.specs.Letters.{letter_of, signed};
ghost use Rattle.block_text.specs.PolynomialReading.{is_term_sign, is_minus, part_in, term_of, later_in, terms_behind, terms_of, is_zero};
ghost use Rattle.block_text.specs.PolynomialReading.{now_of, term_in, terms_from, terms_left, word_behind, is_above_one, value_within};
ghost use Rattle.block_text.specs.PolynomialReading.{term_value, may_follow, poly_behind, passes_letter, passes_number, pass_letters};
ghost use Rattle.block_text.specs.PolynomialReading.{passes, letters_cmp, words_cmp, descend, at_most, first_flaw, polynomial_of};
ghost use Rattle.block_text.specs.Tokens.{tokens_of};

use crate::cut::first_token;
use crate::fault::Flaw;
use crate::letter::{is_term_letter, letter_of, written_letter};
use crate::line::is;
use crate::number::{INTEGER_LIMIT, is_number, number_within};
use lists::{Listing, Stop};
use nc_polynomial::{Poly, TERM_LIMIT, WORD_LIMIT};
use quiver::Quiver;
use std::alloc::{AllocError, Global};
use std::cmp::Ordering;
use word_core::Word;

// A term of a line: its sign, its number if it has one, and its letters, which end before the next sign.
#[derive(Clone, Copy)]
struct TermText<'a> {
    negative: bool,
    factor: Option<&'a [u8]>,
    letters: &'a [u8],
}

// The tests of the terms of a line, in their order.
#[derive(Clone, Copy)]
enum Asked {
    Form,
    Known,
    Written,
    Within,
}

// Whether a term begins after the token.
fn is_term_sign(token: &[u8]) -> bool
    ensures { result ≡ is_term_sign token.now }
{
    is("-", token) || is("+", token)
}

// The first letter of those before the next sign, and the rest of the line.
fn first_letter(line: &[u8]) -> Option<(&[u8], &[u8])>
    ensures part { MatchOption result (part_in (tokens_of line.now) ≡ []) (λ cut. part_in (tokens_of line.now) ≡ cut.0.now ∷ part_in (tokens_of cut.1.now)) }
    ensures later { IfSome result (λ cut. later_in (tokens_of line.now) ≡ later_in (tokens_of cut.1.now)) }
    ensures shorter { IfSome result (λ cut. length cut.1.now < length line.now) }
{
    match first_token(line) {
        Some((token, _)) if is_term_sign(token) => None,
        cut => cut,
    }
}

// The term at the start of a line after its sign.
fn term_at(negative: bool, line: &[u8]) -> TermText<'_>
    ensures terms { terms_from result ≡ terms_behind negative (tokens_of line.now) }
    ensures within { length result.letters.now ≤ length line.now }
{
    match first_letter(line) {
        Some((digits, letters)) if is_number(digits) => TermText {
            negative,
            factor: Some(digits),
            letters,
        },
        _ => TermText {
            negative,
            factor: None,
            letters: line,
        },
    }
}

// The first term of a line.
fn first_term(line: &[u8]) -> TermText<'_>
    ensures { terms_from result ≡ terms_of (tokens_of line.now) }
{
    match first_token(line) {
        Some((sign, behind)) if is("-", sign) => term_at(true, behind),
        _ => term_at(false, line),
    }
}

// The first term after a sign in a line.
fn next_term(line: &[u8]) -> Option<TermText<'_>>
    ensures terms { terms_left result ≡ later_in (tokens_of line.now) }
    ensures shorter { IfSome result (λ next. length next.letters.now < length line.now) }
{
    let mut rest = line;
    while let Some((token, behind)) = first_token(rest) {
        if is_term_sign(token) {
            return Some(term_at(is("-", token), behind));
        }
        rest = behind;
    }
    None
}

// Whether the line is a number of value 0.
fn is_zero(line: &[u8]) -> bool
    ensures { result ≡ is_zero (tokens_of line.now) }
{
    match first_token(line) {
        Some((token, behind)) if is_number(token) => {
            first_token(behind).is_none() && number_within(0, token).is_some()
        }
        _ => false,
    }
}

// The word of the letters before the next sign, if each is as it is written and there are not too many, and the rest of the line.
fn word_in<'a>(
    alloc: Global,
    quiver: &Quiver,
    letters: &'a [u8],
) -> Result<Option<(Word, &'a [u8])>, AllocError>
    ensures word { IfOk result (λ read. option_map (λ r. r.0) read ≡ word_behind quiver.now [] (part_in (tokens_of letters.now))) }
    ensures later { IfOk result (λ read. IfSome read (λ r. later_in (tokens_of letters.now) ≡ later_in (tokens_of r.1.now))) }
    ensures within { IfOk result (λ read. IfSome read (λ r. length r.1.now ≤ length letters.now)) }
{
    let mut word = Word::new(alloc);
    let mut rest = letters;
    while let Some((token, behind)) = first_letter(rest) {
        if word.len() >= WORD_LIMIT {
            return Ok(None);
        }
        let Some(letter) = written_letter(quiver, token) else {
            return Ok(None);
        };
        word.push(letter)?;
        rest = behind;
    }
    Ok(Some((word, rest)))
}

// Whether the token is a number above 1.
fn is_above_one(token: &[u8]) -> bool
    ensures { result ≡ is_above_one token.now }
{
    is_number(token) && number_within(1, token).is_none()
}

// 1, or the value of a number above it, if it is small enough.
fn value_within(factor: Option<&[u8]>) -> Option<u128>
    ensures { result ≡ value_within (now_of factor.entry) }
{
    match factor {
        None => Some(1),
        Some(digits) if is_above_one(digits) => number_within(INTEGER_LIMIT, digits),
        Some(_) => None,
    }
}

fn signed(negative: bool, value: u128) -> i128
    requires { value < 2 ^ 127 }
    ensures { result ≡ signed negative value }
{
    if negative {
        -(value as i128)
    } else {
        value as i128
    }
}

// What a term says, if it is within its bounds, and the line after its letters.
fn term_value<'a>(
    alloc: Global,
    quiver: &Quiver,
    term: TermText<'a>,
) -> Result<Option<((i128, Word), &'a [u8])>, AllocError>
    ensures value { IfOk result (λ read. option_map (λ r. r.0) read ≡ term_value quiver.now (term_in term.entry)) }
    ensures later { IfOk result (λ read. IfSome read (λ r. later_in (tokens_of term.entry.letters.now) ≡ later_in (tokens_of r.1.now))) }
    ensures within { IfOk result (λ read. IfSome read (λ r. length r.1.now ≤ length term.entry.letters.now)) }
{
    let Some(value) = value_within(term.factor) else {
        return Ok(None);
    };
    match word_in(alloc, quiver, term.letters)? {
        Some((word, rest)) if word.len() > 0 => {
            Ok(Some(((signed(term.negative, value), word), rest)))
        }
        _ => Ok(None),
    }
}

// Whether the word is below that of the last term.
fn may_follow(terms: &[(i128, Word)], word: &Word) -> bool
    ensures { result ≡ may_follow terms.now word.now }
{
    match terms {
        [.., last] => last.1.cmp_degree(word) == Ordering::Greater,
        [] => true,
    }
}

// The terms of a line from one on, if they are within all bounds.
fn terms_in(
    alloc: Global,
    quiver: &Quiver,
    first: TermText<'_>,
) -> Result<Option<Listing<(i128, Word)>>, AllocError>
    ensures { IfOk result (λ terms. terms ≡ poly_behind quiver.now [] (terms_from first.entry)) }
{
    let mut terms = Listing::new(alloc);
    let mut left = Some(first);
    while let Some(term) = left {
        let Some((value, rest)) = term_value(alloc, quiver, term)? else {
            return Ok(None);
        };
        if terms.len() >= TERM_LIMIT || !may_follow(terms.as_slice(), &value.1) {
            return Ok(None);
        }
        terms.push(value)?;
        left = next_term(rest);
    }
    Ok(Some(terms))
}

fn passes_letter(quiver: &Quiver, asked: Asked, token: &[u8]) -> bool
    ensures { result ≡ passes_letter quiver.now asked token.now }
{
    match asked {
        Asked::Form => is_term_letter(token),
        Asked::Known => letter_of(quiver, token).is_some(),
        Asked::Written => written_letter(quiver, token).is_some(),
        Asked::Within => true,
    }
}

fn passes_number(asked: Asked, factor: Option<&[u8]>) -> bool
    ensures { result ≡ passes_number asked (now_of factor.entry) }
{
    let Some(digits) = factor else {
        return true;
    };
    match asked {
        Asked::Form => is_above_one(digits),
        Asked::Known | Asked::Written => true,
        Asked::Within => is_number(digits) && number_within(INTEGER_LIMIT, digits).is_some(),
    }
}

// Whether there is a letter before the next sign, and all of these pass.
fn pass_letters(quiver: &Quiver, asked: Asked, letters: &[u8]) -> bool
    ensures { result ≡ pass_letters quiver.now asked (part_in (tokens_of letters.now)) }
{
    let mut rest = letters;
    while let Some((token, behind)) = first_letter(rest) {
        if !passes_letter(quiver, asked, token) {
            return false;
        }
        rest = behind;
    }
    first_letter(letters).is_some()
}

// Whether all terms from one on pass.
fn all_pass(quiver: &Quiver, asked: Asked, first: TermText<'_>) -> bool
    ensures { result ≡ list_all (passes quiver.now asked) (terms_from first.entry) }
{
    let mut left = Some(first);
    while let Some(term) = left {
        if !passes_number(asked, term.factor) || !pass_letters(quiver, asked, term.letters) {
            return false;
        }
        left = next_term(term.letters);
    }
    true
}

// The order of two tokens that spell letters.
fn letters_cmp(quiver: &Quiver, left: &[u8], right: &[u8]) -> Ordering
    ensures { result ≡ letters_cmp (letter_of quiver.now left.now) (letter_of quiver.now right.now) }
{
    match (letter_of(quiver, left), letter_of(quiver, right)) {
        (Some(left), Some(right)) => left.0.cmp(&right.0),
        _ => Ordering::Equal,
    }
}

// The order of the words before the next sign: by length first, and then letter by letter.
fn words_cmp(quiver: &Quiver, left: &[u8], right: &[u8]) -> Ordering
    ensures { result ≡ words_cmp quiver.now Equal (part_in (tokens_of left.now)) (part_in (tokens_of right.now)) }
{
    let mut order = Ordering::Equal;
    let mut left_rest = left;
    let mut right_rest = right;
    while let Some((x, left_behind)) = first_letter(left_rest) {
        let Some((y, right_behind)) = first_letter(right_rest) else {
            return Ordering::Greater;
        };
        if order == Ordering::Equal {
            order = letters_cmp(quiver, x, y);
        }
        left_rest = left_behind;
        right_rest = right_behind;
    }
    match first_letter(right_rest) {
        Some(_) => Ordering::Less,
        None => order,
    }
}

// Whether the words of the terms from one on descend.
fn descend(quiver: &Quiver, first: TermText<'_>) -> bool
    ensures { result ≡ descend quiver.now (terms_from first.entry) }
{
    let mut upper = first;
    while let Some(lower) = next_term(upper.letters) {
        if words_cmp(quiver, upper.letters, lower.letters) != Ordering::Greater {
            return false;
        }
        upper = lower;
    }
    true
}

// Whether there are at most `TERM_LIMIT` terms from one on.
fn are_few(first: TermText<'_>) -> bool
    ensures { result ≡ at_most term_limit (terms_from first.entry) }
{
    let mut room = TERM_LIMIT;
    let mut left = Some(first);
    while let Some(term) = left {
        if room == 0 {
            return false;
        }
        room -= 1;
        left = next_term(term.letters);
    }
    true
}

// The first flaw of the terms from one on. Where there is no other, a word is too long.
fn first_flaw(quiver: &Quiver, first: TermText<'_>) -> Flaw
    ensures { result ≡ first_flaw quiver.now (terms_from first.entry) }
{
    if !all_pass(quiver, Asked::Form, first) {
        return Flaw::BadLine;
    }
    if !all_pass(quiver, Asked::Known, first) {
        return Flaw::UnknownName;
    }
    if !all_pass(quiver, Asked::Written, first) || !descend(quiver, first) {
        return Flaw::NotAsWritten;
    }
    if !all_pass(quiver, Asked::Within, first) {
        return Flaw::NumberTooLarge;
    }
    if are_few(first) {
        Flaw::TooMany(WORD_LIMIT as u32)
    } else {
        Flaw::TooMany(TERM_LIMIT as u32)
    }
}

/// The polynomial that a line spells after its first word, or its first flaw: the form, names that are
/// unknown, letters or an order of words that are not as it is written, numbers, the number of terms, and of letters.
pub fn read_polynomial(alloc: Global, quiver: &Quiver, line: &[u8]) -> Result<Poly, Stop<Flaw>>
    ensures exact { Gives (λ p. p.terms) result (polynomial_of quiver.now (tokens_of line.now)) }
    ensures over { IfOk result (λ p. All (λ t. IsOver (letter_count quiver.now) t.1) p.terms) }
{
    if is_zero(line) {
        return Ok(Poly::zero(alloc));
    }
    let first = first_term(line);
    match terms_in(alloc, quiver, first)? {
        Some(terms) => Ok(Poly { terms }),
        None => Err(Stop::Fault(first_flaw(quiver, first))),
    }
}
