//! The lines `side` and `map` of a model, as tokens.

ghost use Rattle.std.specs.Prelude.{◌≡◌, ◌<◌, ◌^◌, length, IsTrue, IfSome, position, nat_lt, true};
ghost use Rattle.std.specs.List.{list_all};
ghost use Rattle.std.specs.Option.{option_map};
ghost use Rattle.block_text.specs.Letters.{is_name, is_number};
ghost use Rattle.block_text.specs.Lines.{is};
ghost use Rattle.block_text.specs.Tokens.{tokens_of};
ghost use Rattle.model_text.specs.ModelBlocks.{name_of, is_row, is_row_of, is_entry, is_modulus};
ghost use Rattle.model_text.specs.ModelBounds.{value_of};
ghost use Rattle.model_text.specs.Reading.{rows_in, rows_behind, side_tokens, map_tokens, entry_tokens};
ghost use Rattle.model_text.specs.Views.{ends_row, line_in, tokens_in};

use block_text::{
    are_numbers, begins, first_token, is, is_number, name_in, number_within, two_tokens,
};

/// The name of a line with its side, or with its rows of numbers.
#[derive(Drop)]
pub enum EntryTokens<'a> {
    Side {
        name: &'a [u8],
        number: &'a [u8],
    },
    /// The numbers of the first row, and what follows the first `;`.
    Matrix {
        name: &'a [u8],
        first: &'a [u8],
        rest: Option<&'a [u8]>,
    },
}

impl<'a> EntryTokens<'a> {
    /// The name in the line.
    pub fn name(&self) -> &'a [u8]
        ensures { result.now ≡ name_of (tokens_in self.now) }
    {
        match self {
            EntryTokens::Side { name, .. } => name,
            EntryTokens::Matrix { name, .. } => name,
        }
    }
}

// Whether the value of a number is above this.
fn is_above(least: u128, digits: &[u8]) -> bool
    requires number { IsTrue (is_number digits.now) }
    requires limit { least < 2 ^ 127 }
    ensures { result ≡ nat_lt least (value_of digits.now) }
{
    number_within(least, digits).is_none()
}

/// Whether the token is a number that is at least 2.
pub fn is_modulus(token: &[u8]) -> bool
    ensures { result ≡ is_modulus token.now }
{
    is_number(token) && is_above(1, token)
}

// The place of the first `;`.
fn sign_place(line: &[u8]) -> Option<usize>
    ensures first { result ≡ position ends_row line.now }
    ensures within { IfSome result (λ place. place < length line.now) }
{
    line.iter().position(|byte| *byte == b';')
}

/// The text before the first `;`, and what follows that where there is one.
pub fn first_row(line: &[u8]) -> (&[u8], Option<&[u8]>)
    ensures row { tokens_of result.0.now ≡ (rows_in (tokens_of line.now)).0 }
    ensures rest { rows_behind (line_in result.1) ≡ (rows_in (tokens_of line.now)).1 }
    ensures shorter { IfSome result.1 (λ rest. length rest.now < length line.now) }
{
    match sign_place(line) {
        Some(place) => (&line[..place], Some(&line[place + 1..])),
        None => (line, None),
    }
}

/// How many tokens the row has.
pub fn row_length(row: &[u8]) -> usize
    ensures { result ≡ length (tokens_of row.now) }
{
    let mut count = 0;
    let mut rest = row;
    while let Some((_, behind)) = first_token(rest) {
        count += 1;
        rest = behind;
    }
    count
}

// Whether the row has only numbers, and at least one.
fn is_row(row: &[u8]) -> bool
    ensures { result ≡ is_row (tokens_of row.now) }
{
    row_length(row) > 0 && are_numbers(row)
}

fn side_tokens(line: &[u8]) -> Option<EntryTokens<'_>>
    ensures { option_map tokens_in result ≡ side_tokens (tokens_of line.now) }
{
    let (word, behind) = first_token(line)?;
    let (name, number) = two_tokens(behind)?;
    if is("side", word) {
        Some(EntryTokens::Side { name, number })
    } else {
        None
    }
}

fn map_tokens(line: &[u8]) -> Option<EntryTokens<'_>>
    ensures { option_map tokens_in result ≡ map_tokens (tokens_of line.now) }
{
    let (word, behind) = first_token(line)?;
    let (name, behind) = first_token(behind)?;
    let (sign, numbers) = first_token(behind)?;
    if !is("map", word) || !is("=", sign) {
        return None;
    }
    let (first, rest) = first_row(numbers);
    Some(EntryTokens::Matrix { name, first, rest })
}

// Whether the row is this many numbers, and at least one.
fn is_row_of(columns: usize, row: &[u8]) -> bool
    ensures { result ≡ is_row_of columns (tokens_of row.now) }
{
    is_row(row) && row_length(row) == columns
}

// Whether each row after the first one has this many numbers.
fn are_rows(columns: usize, rest: Option<&[u8]>) -> bool
    ensures { result ≡ list_all (is_row_of columns) (rows_behind (line_in rest.entry)) }
{
    let mut left = rest;
    while let Some(line) = left {
        let (row, behind) = first_row(line);
        if !is_row_of(columns, row) {
            return false;
        }
        left = behind;
    }
    true
}

fn is_name(token: &[u8]) -> bool
    ensures { result ≡ is_name token.now }
{
    name_in(token).is_some()
}

fn is_entry(entry: &EntryTokens<'_>) -> bool
    ensures { result ≡ is_entry (tokens_in entry.now) }
{
    match entry {
        EntryTokens::Side { name, number } => {
            is_name(name) && is_number(number) && is_above(0, number)
        }
        EntryTokens::Matrix { name, first, rest } => {
            is_name(name) && is_row(first) && are_rows(row_length(first), *rest)
        }
    }
}

/// The tokens of a line `side` or `map`, where names and numbers are at their places.
pub fn entry_tokens(line: &[u8]) -> Option<EntryTokens<'_>>
    ensures exact { option_map tokens_in result ≡ entry_tokens (tokens_of line.now) }
    ensures entry { IfSome result (λ e. IsTrue (is_entry (tokens_in e))) }
{
    let found = if begins("side", line) {
        side_tokens(line)
    } else {
        map_tokens(line)
    };
    match found {
        Some(entry) if is_entry(&entry) => Some(entry),
        _ => None,
    }
}
