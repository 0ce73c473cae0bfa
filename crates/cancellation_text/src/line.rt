//! The lines that certificates don't have: letters that are called monic or epic, and cancellations.

ghost use Rattle.std.specs.Prelude.{◌≡◌, ◌<◌, ◌^◌, ◌+◌, IsTrue, IfSome};
ghost use Rattle.std.specs.Option.{option_map};
ghost use Rattle.block_text.specs.Letters.{is_number};
ghost use Rattle.block_text.specs.Tokens.{tokens_of};
ghost use Rattle.cancellation_text.specs.Blocks.{unstarred, is_map_letter, known_letter};
ghost use Rattle.cancellation_text.specs.Reading.{called_side, side_of, called_tokens, cancel_tokens, cancel_of};
ghost use Rattle.cancellation_text.specs.Views.{called_now, cancel_now};

use block_text::{
    Flaw, NUMBER_LIMIT, first_token, is, is_number, letter_of, name_in, number_within, two_tokens,
};
use cancel_rules::{Item, Side};
use certificate_text::is_value;
use cofactor_trace::ROW_LIMIT;
use quiver::Quiver;

/// The tokens of a letter that is called monic, which is cancelled on the left, or epic.
#[derive(Drop)]
pub struct CalledTokens<'a> {
    pub side: Side,
    pub letter: &'a [u8],
}

/// The tokens of a cancellation.
#[derive(Drop)]
pub struct CancelTokens<'a> {
    pub number: &'a [u8],
    pub letter: &'a [u8],
    pub side: Side,
    pub item: &'a [u8],
}

/// The token without the ' at its end.
pub fn unstarred(token: &[u8]) -> &[u8]
    ensures { result.now ≡ unstarred token.now }
{
    match token {
        [front @ .., b'\''] => front,
        _ => token,
    }
}

// Whether the token spells a map or an adjoint.
fn is_map_letter(token: &[u8]) -> bool
    ensures { result ≡ is_map_letter token.now }
{
    name_in(unstarred(token)).is_some()
}

// The side on which a letter of this word is cancelled.
fn called_side(word: &[u8]) -> Option<Side>
    ensures { result ≡ called_side word.now }
{
    if is("monic", word) {
        Some(Side::Left)
    } else if is("epic", word) {
        Some(Side::Right)
    } else {
        None
    }
}

fn side_of(word: &[u8]) -> Option<Side>
    ensures { result ≡ side_of word.now }
{
    if is("left", word) {
        Some(Side::Left)
    } else if is("right", word) {
        Some(Side::Right)
    } else {
        None
    }
}

/// The tokens of `monic LETTER` or `epic LETTER`.
pub fn called_tokens(line: &[u8]) -> Option<CalledTokens<'_>>
    ensures { option_map called_now result ≡ called_tokens (tokens_of line.now) }
{
    let (word, letter) = two_tokens(line)?;
    if !is_map_letter(letter) {
        return None;
    }
    let side = called_side(word)?;
    Some(CalledTokens { side, letter })
}

/// The tokens of `cancel K LETTER left J` or `cancel K LETTER right J`, with this K.
pub fn cancel_tokens(number: u128, line: &[u8]) -> Option<CancelTokens<'_>>
    requires { number < 2 ^ 127 }
    ensures exact { option_map cancel_now result ≡ cancel_tokens number (tokens_of line.now) }
    ensures number { IfSome result (λ c. IsTrue (is_number c.item.now)) }
{
    let (word, behind) = first_token(line)?;
    let (digits, behind) = first_token(behind)?;
    let (letter, behind) = first_token(behind)?;
    if !is("cancel", word) || !is_value(number, digits) || !is_map_letter(letter) {
        return None;
    }
    let (side, item) = two_tokens(behind)?;
    if !is_number(item) {
        return None;
    }
    let side = side_of(side)?;
    Some(CancelTokens {
        number: digits,
        letter,
        side,
        item,
    })
}

/// The cancellation of these tokens after so many items. There are at most as many items as rows.
pub fn cancel_of(quiver: &Quiver, before: usize, tokens: &CancelTokens<'_>) -> Result<Item, Flaw>
    requires { IsTrue (is_number tokens.now.item.now) }
    ensures { result ≡ cancel_of quiver.now before (cancel_now tokens.now) }
{
    let Some(letter) = letter_of(quiver, tokens.letter) else {
        return Err(Flaw::UnknownName);
    };
    let Some(item) = number_within(NUMBER_LIMIT, tokens.item) else {
        return Err(Flaw::NumberTooLarge);
    };
    if before >= ROW_LIMIT {
        return Err(Flaw::TooMany(ROW_LIMIT as u32));
    }
    Ok(Item::Cancel {
        letter,
        side: tokens.side,
        item: item as u32,
    })
}
