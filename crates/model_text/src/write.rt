//! Models as bytes.

ghost use Rattle.std.specs.Prelude.{◌≡◌, ◌<◌, ◌++◌, length, IfOk, OnOk};
ghost use Rattle.quiver.specs.Declarations.{object_count, letter_count};
ghost use Rattle.model_text.specs.Written.{between, entry_text, row_text, part_text, rows_text, side_text, sides_text, is_map, map_text};
ghost use Rattle.model_text.specs.Written.{maps_text, numbered_text, head_text, model_text, HasPlaces};

use block_text::{put, put_number};
use matrix_models::{Matrix, Model};
use quiver::{Named, Quiver};
use std::alloc::{AllocError, Global};
use word_core::{Letter, Object};

// Appends the text before each part but the first.
fn put_between(out: &mut Vec<u8>, sign: &str, place: u32) -> Result<(), AllocError>
    ensures { OnOk result (out.new.items ≡ out.old.items ++ between sign.now place) }
{
    if place == 0 { Ok(()) } else { put(out, sign) }
}

fn put_entry(out: &mut Vec<u8>, matrix: &Matrix, row: u32, column: u32) -> Result<(), AllocError>
    requires row { row < matrix.now.rows }
    requires column { column < matrix.now.columns }
    ensures { OnOk result (out.new.items ≡ out.old.items ++ entry_text matrix.now row column) }
{
    put_between(out, " ", column)?;
    put_number(out, u128::from(matrix.entry(row, column)))
}

// Appends the entries of a row with one blank between them.
fn put_row(out: &mut Vec<u8>, matrix: &Matrix, row: u32) -> Result<(), AllocError>
    requires { row < matrix.now.rows }
    ensures { OnOk result (out.new.items ≡ out.old.items ++ row_text matrix.now row) }
{
    for column in 0..matrix.columns() {
        put_entry(out, matrix, row, column)?;
    }
    Ok(())
}

// Appends a row after those before it.
fn put_part(out: &mut Vec<u8>, matrix: &Matrix, row: u32) -> Result<(), AllocError>
    requires { row < matrix.now.rows }
    ensures { OnOk result (out.new.items ≡ out.old.items ++ part_text matrix.now row) }
{
    put_between(out, " ; ", row)?;
    put_row(out, matrix, row)
}

// Appends the rows with `;` between them.
fn put_rows(out: &mut Vec<u8>, matrix: &Matrix) -> Result<(), AllocError>
    ensures { OnOk result (out.new.items ≡ out.old.items ++ rows_text matrix.now) }
{
    for row in 0..matrix.rows() {
        put_part(out, matrix, row)?;
    }
    Ok(())
}

fn put_side(out: &mut Vec<u8>, quiver: &Quiver, object: Object, side: u32) -> Result<(), AllocError>
    requires { object.0 < object_count quiver.now }
    ensures { OnOk result (out.new.items ≡ out.old.items ++ side_text quiver.now object.0 side) }
{
    put(out, "side ")?;
    put(out, quiver.object_name(object))?;
    put(out, " ")?;
    put_number(out, u128::from(side))?;
    put(out, "\n")
}

// Appends a line for each object.
fn put_sides(out: &mut Vec<u8>, quiver: &Quiver, sides: &[u32]) -> Result<(), AllocError>
    requires { length sides.now ≡ object_count quiver.now }
    ensures { OnOk result (out.new.items ≡ out.old.items ++ sides_text quiver.now sides.now) }
{
    for object in 0..quiver.objects() {
        put_side(out, quiver, Object(object as u16), sides[object as usize])?;
    }
    Ok(())
}

// Whether the letter is a declared map.
fn is_map(quiver: &Quiver, letter: Letter) -> bool
    requires { letter.0 < letter_count quiver.now }
    ensures { result ≡ is_map quiver.now letter.0 }
{
    match quiver.find(quiver.letter_name(letter)) {
        Some(Named::Map(map)) => map.0 == letter.0,
        _ => false,
    }
}

fn put_map(
    out: &mut Vec<u8>,
    quiver: &Quiver,
    letter: Letter,
    matrix: &Option<Matrix>,
) -> Result<(), AllocError>
    requires { letter.0 < letter_count quiver.now }
    ensures { OnOk result (out.new.items ≡ out.old.items ++ map_text quiver.now letter.0 matrix.now) }
{
    match matrix {
        Some(matrix) if is_map(quiver, letter) => {
            put(out, "map ")?;
            put(out, quiver.letter_name(letter))?;
            put(out, " = ")?;
            put_rows(out, matrix)?;
            put(out, "\n")
        }
        _ => Ok(()),
    }
}

// Appends a line for each declared map that has a matrix.
fn put_maps(out: &mut Vec<u8>, quiver: &Quiver, maps: &[Option<Matrix>]) -> Result<(), AllocError>
    requires { length maps.now ≡ letter_count quiver.now }
    ensures { OnOk result (out.new.items ≡ out.old.items ++ maps_text quiver.now maps.now) }
{
    for letter in 0..quiver.letters() {
        put_map(out, quiver, Letter(letter as u16), &maps[letter as usize])?;
    }
    Ok(())
}

fn put_numbered(out: &mut Vec<u8>, word: &str, number: u32) -> Result<(), AllocError>
    ensures { OnOk result (out.new.items ≡ out.old.items ++ numbered_text word.now number) }
{
    put(out, word)?;
    put_number(out, u128::from(number))?;
    put(out, "\n")
}

// Appends the first lines of a model.
fn put_head(out: &mut Vec<u8>, model: &Model) -> Result<(), AllocError>
    ensures { OnOk result (out.new.items ≡ out.old.items ++ head_text model.now) }
{
    put(out, "model 1\n")?;
    put_numbered(out, "claim ", model.claim)?;
    put_numbered(out, "modulus ", model.modulus)
}

/// Appends a model, as a block of evidence text with a line for each object and for each declared map that has a matrix.
/// It fails only where memory is short.
pub fn put_model(out: &mut Vec<u8>, quiver: &Quiver, model: &Model) -> Result<(), AllocError>
    requires { HasPlaces quiver.now model.now }
    ensures { OnOk result (out.new.items ≡ out.old.items ++ model_text quiver.now model.now) }
{
    put_head(out, model)?;
    put_sides(out, quiver, model.sides.as_slice())?;
    put_maps(out, quiver, model.maps.as_slice())?;
    put(out, "end\n")
}

/// A model as a block of evidence text, with a line for each object and for each declared map that has a matrix. It fails only
/// where memory is short.
pub fn write_model(alloc: Global, quiver: &Quiver, model: &Model) -> Result<Vec<u8>, AllocError>
    requires { HasPlaces quiver.now model.now }
    ensures { IfOk result (λ text. text.items ≡ model_text quiver.now model.now) }
{
    let mut out = Vec::new(alloc);
    put_model(&mut out, quiver, model)?;
    Ok(out)
}
