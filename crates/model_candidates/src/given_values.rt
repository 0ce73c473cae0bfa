//! The model that values of the entries make.
ghost use Rattle.std.specs.Prelude.{◌≡◌, ◌<◌, ◌≤◌, ℕ, true, length, IfOk};
ghost use Rattle.std.specs.List.{All};
ghost use Rattle.definitions.specs.Quiver.{IsQuiver, source, target};
ghost use Rattle.quiver.specs.Declarations.{letter_count, object_count, quiver_of};
ghost use Rattle.matrix_models.specs.Matrix.{IsModulus, HasShape};
ghost use Rattle.adjoint_rules.specs.Limits.{shape_side_limit};
ghost use Rattle.adjoint_rules.specs.Problem.{IsShape};
ghost use Rattle.model_candidates.specs.Candidates.{digits, entries_of, entry, entry_shown, is_declared_map, is_self, matrix_by, model_by};
ghost use Rattle.model_candidates.specs.Candidates.{side_in, value_of_entry};
ghost use Rattle.model_candidates.specs.EntryPlaces.{entries_before, is_kept, place_within};
ghost use Rattle.adjoint_rules.specs.Limits.{shape_side_limit};

use crate::drawn_values::digits_of;
use crate::entries::{is_declared, map_entry_count, side_at};
use adjoint_rules::Shape;
use lists::{Duplicate, Listing};
use matrix_models::{Matrix, MatrixFault, Model};
use quiver::Quiver;
use std::alloc::{AllocError, Global};
use word_core::Letter;

/// Values of all entries, and the place of the first of a map.
#[derive(Clone, Copy)]
pub(crate) struct MapValues<'a> {
    pub all: &'a [u32],
    pub first: usize,
}

/// The model with this claim and these values of the entries.
pub(crate) fn model_with(
    alloc: Global,
    quiver: &Quiver,
    shape: &Shape,
    claim: u32,
    values: &[u32],
) -> Result<Model, AllocError>
    requires quiver { IsQuiver (quiver_of quiver.now) }
    requires shape { IsShape (object_count quiver.now) shape.now }
    requires one_each { length values.now ≡ length (entries_of (quiver_of quiver.now) shape.now) }
    requires below { All (λ value. value < shape.now.modulus) values.now }
    ensures { IfOk result (λ model. model ≡ model_by (quiver_of quiver.now) shape.now claim values.now) }
{
    let mut maps = Listing::new(alloc);
    let mut first = 0;
    for number in 0..quiver.letters() {
        let letter = Letter(number as u16);
        let map = if is_declared(quiver, letter) {
            let matrix = matrix_with(alloc, quiver, shape, letter, values, first)?;
            first += map_entry_count(quiver, shape, letter) as usize;
            Some(matrix)
        } else {
            None
        };
        maps.push(map)?;
    }
    let sides = shape.sides.duplicate()?;
    Ok(Model {
        claim,
        modulus: shape.modulus,
        sides,
        maps,
    })
}

// The matrix of a declared map, whose first entry has the value at the place `first`.
fn matrix_with(
    alloc: Global,
    quiver: &Quiver,
    shape: &Shape,
    letter: Letter,
    values: &[u32],
    first: usize,
) -> Result<Matrix, AllocError>
    requires letter { letter.0 < letter_count quiver.now }
    requires declared { is_declared_map (quiver_of quiver.now) letter.0 ≡ true }
    requires quiver { IsQuiver (quiver_of quiver.now) }
    requires shape { IsShape (object_count quiver.now) shape.now }
    requires one_each { length values.now ≡ length (entries_of (quiver_of quiver.now) shape.now) }
    requires below { All (λ value. value < shape.now.modulus) values.now }
    requires first { first ≡ length (entries_before (quiver_of quiver.now) shape.now letter.0) }
    ensures { IfOk result (λ matrix. matrix ≡ matrix_by (quiver_of quiver.now) shape.now values.now letter.0) }
{
    let ends = quiver.signature_of(letter);
    let rows = side_at(shape, ends.target);
    let columns = side_at(shape, ends.source);
    let map_values = MapValues { all: values, first };
    let mut entries = Listing::new(alloc);
    for place in 0..rows * columns {
        let (row, column) = (place / columns, place % columns);
        entries.push(value_shown(quiver, shape, letter, map_values, row, column))?;
    }
    matrix_of_entries(alloc, shape.modulus, rows, columns, entries.as_slice())
}

/// The value in this row and column of the matrix of a declared map.
pub(crate) fn value_shown(
    quiver: &Quiver,
    shape: &Shape,
    letter: Letter,
    values: MapValues,
    row: u32,
    column: u32,
) -> u32
    requires letter { letter.0 < letter_count quiver.now }
    requires declared { is_declared_map (quiver_of quiver.now) letter.0 ≡ true }
    requires quiver { IsQuiver (quiver_of quiver.now) }
    requires shape { IsShape (object_count quiver.now) shape.now }
    requires one_each { length values.all.now ≡ length (entries_of (quiver_of quiver.now) shape.now) }
    requires first { values.first ≡ length (entries_before (quiver_of quiver.now) shape.now letter.0) }
    requires row { row < side_in shape.now (target (quiver_of quiver.now) letter.0) }
    requires column { column < side_in shape.now (source (quiver_of quiver.now) letter.0) }
    ensures { result ≡ value_of_entry (quiver_of quiver.now) shape.now values.entry.all.now (entry_shown (quiver_of quiver.now) letter.0 row column) }
{
    let selfmade = quiver.star_of(letter) == letter;
    if selfmade && column < row {
        value_kept(quiver, shape, letter, values, column, row)
    } else {
        value_kept(quiver, shape, letter, values, row, column)
    }
}

// The value of an entry of a declared map.
fn value_kept(
    quiver: &Quiver,
    shape: &Shape,
    letter: Letter,
    values: MapValues,
    row: u32,
    column: u32,
) -> u32
    requires letter { letter.0 < letter_count quiver.now }
    requires declared { is_declared_map (quiver_of quiver.now) letter.0 ≡ true }
    requires quiver { IsQuiver (quiver_of quiver.now) }
    requires shape { IsShape (object_count quiver.now) shape.now }
    requires one_each { length values.all.now ≡ length (entries_of (quiver_of quiver.now) shape.now) }
    requires first { values.first ≡ length (entries_before (quiver_of quiver.now) shape.now letter.0) }
    requires row { row < side_in shape.now (target (quiver_of quiver.now) letter.0) }
    requires column { column < side_in shape.now (source (quiver_of quiver.now) letter.0) }
    requires kept { is_kept (is_self (quiver_of quiver.now) letter.0) row column ≡ true }
    ensures { result ≡ value_of_entry (quiver_of quiver.now) shape.now values.entry.all.now (entry letter.0 row column) }
{
    let columns = side_at(shape, quiver.signature_of(letter).source);
    let selfmade = quiver.star_of(letter) == letter;
    values.all[values.first + place_in_map(selfmade, columns, row, column) as usize]
}

// The place of an entry among those of its map.
fn place_in_map(selfmade: bool, columns: u32, row: u32, column: u32) -> u32
    requires columns_side { columns ≤ shape_side_limit }
    requires row_in_range { row < shape_side_limit }
    requires column_in_range { column < columns }
    requires kept { is_kept selfmade row column ≡ true }
    ensures { (a : ℕ) → result ≡ place_within a selfmade columns row column }
{
    if selfmade {
        (row * (2 * columns + 1) - row * row) / 2 + column - row
    } else {
        row * columns + column
    }
}

/// The matrix with these entries, which fit it.
pub(crate) fn matrix_of_entries(
    alloc: Global,
    modulus: u32,
    rows: u32,
    columns: u32,
    entries: &[u32],
) -> Result<Matrix, AllocError>
    requires modulus { IsModulus modulus }
    requires shape { HasShape rows columns (length entries.now) }
    requires below { All (λ entry. entry < modulus) entries.now }
    ensures { IfOk result (λ matrix. matrix ≡ record { modulus = modulus; rows = rows; columns = columns; entries = entries.now }) }
{
    match Matrix::new(alloc, modulus, rows, columns, entries) {
        Ok(matrix) => Ok(matrix),
        Err(MatrixFault::Memory(failed)) => Err(failed),
        Err(MatrixFault::BadShape) => unreachable!(),
        Err(MatrixFault::EntryTooLarge { place: _ }) => unreachable!(),
    }
}
