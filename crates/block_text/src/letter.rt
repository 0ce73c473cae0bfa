//! The tokens that spell letters.

ghost use Rattle.std.specs.Prelude.{◌≡◌, ◌<◌, true, false, drop, IsTrue, IfSome, MatchOption};
ghost use Rattle.std.specs.List.{list_all};
ghost use Rattle.std.specs.Option.{option_copied, option_map, option_and_then};
ghost use Rattle.std.specs.Str.{chars, is_utf8};
ghost use Rattle.unicode_ident.specs.Ident.{is_xid_continue};
ghost use Rattle.quiver.specs.Declarations.{letter_count, named_in};
ghost use Rattle.block_text.specs.Letters.{starts_name, begins_name, name_in, named_by, without_brackets, spelled_by, is_letter, letter_named, letter_of};
ghost use Rattle.block_text.specs.PolynomialLines.{is_term_letter};
ghost use Rattle.block_text.specs.PolynomialReading.{written_letter};
ghost use Rattle.block_text.specs.Views.{spelled};
ghost use Rattle.block_text.specs.WrittenLetters.{other_star, written_by};

use quiver::{Named, Quiver};
use statement_tokens::NAME_LIMIT;
use word_core::Letter;

// A name, whether it is in square brackets, and whether a ' follows it.
#[derive(Drop)]
struct Spelled<'a> {
    name: &'a str,
    identity: bool,
    adjoint: bool,
}

fn starts_name(ch: char) -> bool
    ensures { result ≡ starts_name ch }
{
    unicode_ident::is_xid_start(ch) || ch == '_'
}

// Whether the first character starts a name.
fn begins_name(text: &str) -> bool
    ensures { result ≡ begins_name (chars text.now) }
{
    match text.chars().next() {
        Some(first) => starts_name(first),
        None => false,
    }
}

// Whether all characters but the first may continue a name.
fn goes_on(text: &str) -> bool
    ensures { result ≡ list_all is_xid_continue (drop 1 (chars text.now)) }
{
    text.chars().skip(1).all(unicode_ident::is_xid_continue)
}

// The bytes as a text, if they are UTF-8.
fn text_in(bytes: &[u8]) -> Option<&str>
    ensures { MatchOption result (is_utf8 bytes.now ≡ false) (λ text. (is_utf8 bytes.now ≡ true) × (text.now ≡ bytes.now)) }
{
    match std::str::from_utf8(bytes) {
        Ok(text) => Some(text),
        Err(_) => None,
    }
}

/// The token as a name, if it is one.
pub fn name_in(token: &[u8]) -> Option<&str>
    ensures { option_copied result ≡ name_in token.now }
{
    if token.len() > NAME_LIMIT {
        return None;
    }
    match text_in(token) {
        Some(text) if begins_name(text) && goes_on(text) => Some(text),
        _ => None,
    }
}

fn spelled_by(token: &[u8]) -> Option<Spelled<'_>>
    ensures { option_map spelled result ≡ spelled_by token.now }
{
    match token {
        [front @ .., b'\''] => without_brackets(true, front),
        _ => without_brackets(false, token),
    }
}

fn without_brackets(adjoint: bool, token: &[u8]) -> Option<Spelled<'_>>
    ensures { option_map spelled result ≡ without_brackets adjoint token.now }
{
    match token {
        [b'[', name @ .., b']'] => named_by(true, adjoint, name),
        _ => named_by(false, adjoint, token),
    }
}

fn named_by(identity: bool, adjoint: bool, token: &[u8]) -> Option<Spelled<'_>>
    ensures { option_map spelled result ≡ named_by identity adjoint token.now }
{
    let name = name_in(token)?;
    Some(Spelled {
        name,
        identity,
        adjoint,
    })
}

/// Whether the token spells a letter of some quiver.
pub fn is_letter(token: &[u8]) -> bool
    ensures { result ≡ is_letter token.now }
{
    spelled_by(token).is_some()
}

fn letter_named(quiver: &Quiver, name: &str, identity: bool) -> Option<Letter>
    ensures exact { option_map (λ a. a.0) result ≡ option_and_then (letter_named quiver.now identity) (named_in quiver.now name.now) }
    ensures in_range { IfSome result (λ a. a.0 < letter_count quiver.now) }
{
    match quiver.find(name)? {
        Named::Object(object) if identity => Some(quiver.identity_of(object)),
        Named::Map(letter) if !identity => Some(letter),
        _ => None,
    }
}

/// The letter of the quiver that the token spells.
pub fn letter_of(quiver: &Quiver, token: &[u8]) -> Option<Letter>
    ensures exact { option_map (λ a. a.0) result ≡ letter_of quiver.now token.now }
    ensures letter { IfSome result (λ a. IsTrue (is_letter token.now)) }
{
    let spelled = spelled_by(token)?;
    let letter = letter_named(quiver, spelled.name, spelled.identity)?;
    Some(if spelled.adjoint {
        quiver.star_of(letter)
    } else {
        letter
    })
}

/// Whether the token spells a letter as a polynomial has it: `[NAME]'` is none.
pub fn is_term_letter(token: &[u8]) -> bool
    ensures { result ≡ is_term_letter token.now }
{
    match spelled_by(token) {
        Some(spelled) => !(spelled.identity && spelled.adjoint),
        None => false,
    }
}

// The adjoint of a letter, if it is another one.
fn other_star(quiver: &Quiver, letter: Letter) -> Option<Letter>
    requires { letter.0 < letter_count quiver.now }
    ensures { option_map (λ a. a.0) result ≡ other_star quiver.now letter.0 }
{
    let star = quiver.star_of(letter);
    if star.0 == letter.0 { None } else { Some(star) }
}

// The letter that is written so. No ' is written after a letter that is its own adjoint.
fn written_by(quiver: &Quiver, text: &Spelled<'_>) -> Option<Letter>
    ensures { option_map (λ a. a.0) result ≡ written_by quiver.now (spelled text.now) }
{
    if text.identity && text.adjoint {
        return None;
    }
    let letter = letter_named(quiver, text.name, text.identity)?;
    if text.adjoint {
        other_star(quiver, letter)
    } else {
        Some(letter)
    }
}

/// The letter of the quiver that the token spells as it is written.
#[tactic(auto, using(crate::proofs::WrittenLetters::written_by_spelling))]
pub fn written_letter(quiver: &Quiver, token: &[u8]) -> Option<Letter>
    ensures { option_map (λ a. a.0) result ≡ written_letter quiver.now token.now }
{
    written_by(quiver, &spelled_by(token)?)
}
