//! What a line `side` or `map` says.

ghost use Rattle.std.specs.Prelude.{◌≡◌, ◌<◌, ◌≤◌, ◌*◌, ◌∷◌, length, IsTrue};
ghost use Rattle.std.specs.List.{All, flat_map, list_all};
ghost use Rattle.matrix_models.specs.Matrix.{IsModulus};
ghost use Rattle.lists.specs.Stop.{Gives};
ghost use Rattle.block_text.specs.Fault.{asked};
ghost use Rattle.block_text.specs.Letters.{is_name, is_number};
ghost use Rattle.block_text.specs.Tokens.{tokens_of};
ghost use Rattle.block_text.specs.declared.fault.Flaw.TheVariants as flaw;
ghost use Rattle.model_text.specs.ModelBlocks.{is_entry};
ghost use Rattle.model_text.specs.Reading.{AreRows, after, rows_behind, values_below, values_in, matrix_made, side_value, map_value, entry_value};
ghost use Rattle.model_text.specs.Views.{line_in, tokens_in};

use crate::entry::{EntryTokens, first_row, row_length};
use crate::place::Entry;
use block_text::{Flaw, first_token, name_in, number_within};
use lists::Stop;
use matrix_models::{Matrix, MatrixFault, SIDE_LIMIT};
use quiver::{Named, Quiver};
use std::alloc::Global;

/// The text of a token that is a name.
pub fn name_text(token: &[u8]) -> &str
    requires { IsTrue (is_name token.now) }
    ensures { result.now ≡ token.now }
{
    match name_in(token) {
        Some(name) => name,
        None => unreachable!(),
    }
}

// The values, and after them those of the numbers of a row, each below the modulus.
fn with_row(mut values: Vec<u32>, modulus: u32, row: &[u8]) -> Result<Vec<u32>, Stop<Flaw>>
    requires modulus { 1 ≤ modulus }
    requires numbers { IsTrue (list_all is_number (tokens_of row.now)) }
    ensures { Gives (λ more. more.items) result (asked flaw.NumberTooLarge (after values.items (values_below modulus (tokens_of row.now)))) }
{
    let mut rest = row;
    while let Some((number, behind)) = first_token(rest) {
        match number_within(u128::from(modulus - 1), number) {
            Some(value) => values.push(value as u32)?,
            None => return Err(Stop::Fault(Flaw::NumberTooLarge)),
        }
        rest = behind;
    }
    Ok(values)
}

// The values, and after them those of the numbers in rows, each below the modulus.
fn with_rows(
    values: Vec<u32>,
    modulus: u32,
    first: &[u8],
    rest: Option<&[u8]>,
) -> Result<Vec<u32>, Stop<Flaw>>
    requires modulus { 1 ≤ modulus }
    requires numbers { IsTrue (list_all (list_all is_number) (tokens_of first.now ∷ rows_behind (line_in rest))) }
    ensures { Gives (λ more. more.items) result
        (asked flaw.NumberTooLarge (values_in modulus values.items (tokens_of first.now ∷ rows_behind (line_in rest.entry)))) }
{
    let mut more = with_row(values, modulus, first)?;
    let mut left = rest;
    while let Some(line) = left {
        let (row, behind) = first_row(line);
        more = with_row(more, modulus, row)?;
        left = behind;
    }
    Ok(more)
}

// The values of the numbers in rows, row by row.
fn values_of(
    alloc: Global,
    modulus: u32,
    first: &[u8],
    rest: Option<&[u8]>,
) -> Result<Vec<u32>, Stop<Flaw>>
    requires modulus { 1 ≤ modulus }
    requires rows { AreRows (tokens_of first.now) (rows_behind (line_in rest)) }
    ensures { Gives (λ values. values.items) result
        (asked flaw.NumberTooLarge (values_below modulus (flat_map (λ row. row) (tokens_of first.now ∷ rows_behind (line_in rest.entry))))) }
{
    with_rows(Vec::new(alloc), modulus, first, rest)
}

// How many rows there are after the first one.
fn rows_left(rest: Option<&[u8]>) -> usize
    ensures { result ≡ length (rows_behind (line_in rest.entry)) }
{
    let mut count = 0;
    let mut left = rest;
    while let Some(line) = left {
        let (_, behind) = first_row(line);
        count += 1;
        left = behind;
    }
    count
}

// The matrix with these entries, row by row.
fn matrix_made(
    alloc: Global,
    modulus: u32,
    rows: usize,
    columns: usize,
    entries: &[u32],
) -> Result<Matrix, Stop<Flaw>>
    requires modulus { IsModulus modulus }
    requires rows { 1 ≤ rows }
    requires columns { 1 ≤ columns }
    requires count { length entries.now ≡ rows * columns }
    requires below { All (λ entry. entry < modulus) entries.now }
    ensures { Gives (λ x. x) result (matrix_made modulus rows columns entries.now) }
{
    if rows > SIDE_LIMIT as usize || columns > SIDE_LIMIT as usize {
        return Err(Stop::Fault(Flaw::TooMany(SIDE_LIMIT)));
    }
    match Matrix::new(alloc, modulus, rows as u32, columns as u32, entries) {
        Ok(matrix) => Ok(matrix),
        Err(MatrixFault::Memory(failed)) => Err(Stop::Memory(failed)),
        Err(MatrixFault::BadShape) => unreachable!(),
        Err(MatrixFault::EntryTooLarge { .. }) => unreachable!(),
    }
}

fn side_value(named: Option<Named>, number: &[u8]) -> Result<Entry, Flaw>
    requires { IsTrue (is_number number.now) }
    ensures { result ≡ side_value named number.now }
{
    let Some(Named::Object(object)) = named else {
        return Err(Flaw::UnknownName);
    };
    match number_within(u128::from(SIDE_LIMIT), number) {
        Some(side) => Ok(Entry::Side {
            object,
            side: side as u32,
        }),
        None => Err(Flaw::TooMany(SIDE_LIMIT)),
    }
}

fn map_value(
    alloc: Global,
    named: Option<Named>,
    modulus: u32,
    first: &[u8],
    rest: Option<&[u8]>,
) -> Result<Entry, Stop<Flaw>>
    requires modulus { IsModulus modulus }
    requires rows { AreRows (tokens_of first.now) (rows_behind (line_in rest)) }
    ensures { Gives (λ entry. entry) result (map_value named modulus (tokens_of first.now) (rows_behind (line_in rest.entry))) }
{
    let Some(Named::Map(letter)) = named else {
        return Err(Stop::Fault(Flaw::UnknownName));
    };
    let values = values_of(alloc, modulus, first, rest)?;
    let rows = rows_left(rest) + 1;
    let matrix = matrix_made(alloc, modulus, rows, row_length(first), &values)?;
    Ok(Entry::Map { letter, matrix })
}

/// What the line says, in a model with this modulus.
pub fn entry_value(
    alloc: Global,
    quiver: &Quiver,
    modulus: u32,
    entry: &EntryTokens<'_>,
) -> Result<Entry, Stop<Flaw>>
    requires modulus { IsModulus modulus }
    requires entry { IsTrue (is_entry (tokens_in entry.now)) }
    ensures { Gives (λ value. value) result (entry_value quiver.now modulus (tokens_in entry.now)) }
{
    match entry {
        EntryTokens::Side { name, number } => Ok(side_value(quiver.find(name_text(name)), number)?),
        EntryTokens::Matrix { name, first, rest } => {
            map_value(alloc, quiver.find(name_text(name)), modulus, first, *rest)
        }
    }
}
