//! What begins at a character.

ghost use Rattle.std.specs.Prelude.{◌≡◌, ◌≤◌, ◌<◌, ◌^◌, ◌∷◌, length, IfOk, SomeIff};
ghost use Rattle.std.specs.List.{prefix_len, take_while};
ghost use Rattle.std.specs.Str.{chars, encode_utf8_all};
ghost use Rattle.statement_tokens.specs.Pieces.{is_digit, starts_name};
ghost use Rattle.statement_tokens.specs.Tokens.{value_from};
ghost use Rattle.lists.specs.Stop.{Gives};
ghost use Rattle.statement_tokens.specs.Items.{is_in, item_in, sign_in, caret_in, name_of, literal_of, begins_with, more_of};
ghost use Rattle.unicode_ident.specs.Ident.{is_xid_continue};

use crate::fault::Fault;
use crate::language::Language;
use crate::token::TokenKind;
use lists::{Stop, Text};
use std::alloc::{AllocError, Global};

/// What begins at a character, and how many more characters belong to it.
#[derive(Drop)]
pub enum Item {
    NewLine,
    Gap(usize),
    Token(TokenKind, usize),
}

/// The characters that continue a token or a comment.
#[derive(Clone, Copy)]
pub enum Class {
    Name,
    Digit,
    Comment,
}

#[tactic(auto, unfolding(crate::specs::Items::is_in))]
fn is_in(class: Class, ch: char) -> bool
    ensures { result ≡ is_in class ch }
{
    match class {
        Class::Name => unicode_ident::is_xid_continue(ch),
        Class::Digit => '0' <= ch && ch <= '9',
        Class::Comment => ch != '\n',
    }
}

fn run_len(class: Class, text: &[char]) -> usize
    ensures within { result ≤ length text.now }
    ensures exact { result ≡ prefix_len (is_in class) text.now }
{
    let mut count = 0;
    while count < text.len() && is_in(class, text[count]) {
        count += 1;
    }
    count
}

// A character and those after it, as a text.
fn spelled(alloc: Global, first: char, more: &[char]) -> Result<Text, AllocError>
    ensures { IfOk result (λ t. t ≡ encode_utf8_all (first ∷ more.now)) }
{
    let mut out = Text::new(alloc);
    out.push(first)?;
    for ch in more {
        out.push(*ch)?;
    }
    Ok(out)
}

// Only the second language has carets.
fn sign_in(language: Language, ch: char) -> Result<Item, Fault>
    ensures { result ≡ sign_in language ch }
{
    let kind = match ch {
        ':' => TokenKind::Colon,
        '=' => TokenKind::Equals,
        '+' => TokenKind::Plus,
        '(' => TokenKind::Open,
        ')' => TokenKind::Close,
        '[' => TokenKind::OpenSquare,
        ']' => TokenKind::CloseSquare,
        '\'' => TokenKind::Quote,
        '^' => return caret_in(language),
        _ => return Err(Fault::BadToken),
    };
    Ok(Item::Token(kind, 0))
}

fn caret_in(language: Language) -> Result<Item, Fault>
    ensures { result ≡ caret_in language }
{
    match language {
        Language::First => Err(Fault::BadToken),
        Language::Second => Ok(Item::Token(TokenKind::Caret, 0)),
    }
}

// The greatest value of a literal.
const LARGEST: u128 = 170141183460469231731687303715884105727;

// The value of digits, or None where it is 2^127 or more.
#[tactic(auto, using(crate::proofs::Values::digit_more))]
fn value_of(first: char, more: &[char]) -> Option<u128>
    ensures { SomeIff result (value_from 0 (first ∷ more.now) < 2 ^ 127) (value_from 0 (first ∷ more.now)) }
{
    let mut value: u128 = u128::from((first as u32).saturating_sub(48));
    for ch in more {
        let digit = u128::from((*ch as u32).saturating_sub(48));
        if value > LARGEST / 10 {
            return None;
        }
        value = value * 10 + digit;
        if value > LARGEST {
            return None;
        }
    }
    Some(value)
}

/// The greatest number of bytes of a name.
pub const NAME_LIMIT: usize = 32;

#[tactic(auto, using(crate::proofs::Items::name_read))]
fn name_at(alloc: Global, first: char, rest: &[char]) -> Result<Item, Stop<Fault>>
    ensures { Gives (λ item. item) result (name_of (encode_utf8_all (first ∷ take_while is_xid_continue rest.now)) (prefix_len is_xid_continue rest.now)) }
{
    let more = run_len(Class::Name, rest);
    let text = spelled(alloc, first, &rest[..more])?;
    if text.len() <= NAME_LIMIT {
        Ok(Item::Token(TokenKind::Name(text), more))
    } else {
        Err(Stop::Fault(Fault::BadToken))
    }
}

fn literal_at(first: char, rest: &[char]) -> Result<Item, Fault>
    ensures { result ≡ literal_of (value_from 0 (first ∷ take_while is_digit rest.now)) (prefix_len is_digit rest.now) }
{
    let more = run_len(Class::Digit, rest);
    match value_of(first, &rest[..more]) {
        Some(value) => Ok(Item::Token(TokenKind::Literal(value as i128), more)),
        None => Err(Fault::LiteralTooLarge),
    }
}

fn begins_with(ch: char, text: &[char]) -> bool
    ensures { result ≡ begins_with ch text.now }
{
    match text {
        [] => false,
        [first, ..] => *first == ch,
    }
}

/// What the first of these characters begins in a file of the language.
#[tactic(auto, using(crate::proofs::Items::items_are_short), unfolding(crate::specs::Items::item_in))]
pub fn item_in(
    alloc: Global,
    language: Language,
    first: char,
    rest: &[char],
) -> Result<Item, Stop<Fault>>
    ensures exact { Gives (λ item. item) result (item_in language first rest.now) }
    ensures within { IfOk result (λ item. more_of item ≤ length rest.now) }
{
    if first == '\n' {
        Ok(Item::NewLine)
    } else if first == ' ' || first == '\t' || (first == '\r' && begins_with('\n', rest)) {
        Ok(Item::Gap(0))
    } else if first == '#' {
        Ok(Item::Gap(run_len(Class::Comment, rest)))
    } else if starts_name(first) {
        name_at(alloc, first, rest)
    } else if is_in(Class::Digit, first) {
        Ok(literal_at(first, rest)?)
    } else if first == '-' {
        if begins_with('>', rest) {
            Ok(Item::Token(TokenKind::Arrow, 1))
        } else {
            Ok(Item::Token(TokenKind::Minus, 0))
        }
    } else {
        Ok(sign_in(language, first)?)
    }
}

fn starts_name(ch: char) -> bool
    ensures { result ≡ starts_name ch }
{
    unicode_ident::is_xid_start(ch) || ch == '_'
}

/// The characters of a text. It fails only where memory is short.
#[tactic(auto, using(std::proofs::lemmas::Str::chars_from_encodes))]
pub fn characters(alloc: Global, text: &str) -> Result<Vec<char>, AllocError>
    ensures { IfOk result (λ v. v.items ≡ chars text.now) }
{
    text.chars().collect(alloc)
}
