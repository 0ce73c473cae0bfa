//! The model that the lines of a block make.

ghost use Rattle.std.specs.Prelude.{◌≡◌, ◌<◌, IfOk};
ghost use Rattle.std.specs.Option.{option_copied};
ghost use Rattle.model_text.specs.Reading.{side_in, matrix_in, sides_in, maps_in, model_of};

use crate::place::Entry;
use lists::{Duplicate, Listing};
use matrix_models::{Matrix, Model};
use quiver::Quiver;
use std::alloc::{AllocError, Global};

// The side of an object, 1 where no line has one.
fn side_in(entries: &[Entry], object: u32) -> u32
    ensures { result ≡ side_in entries.now object }
{
    for entry in entries {
        match entry {
            Entry::Side {
                object: named,
                side,
            } if u32::from(named.0) == object => return *side,
            _ => {}
        }
    }
    1
}

// The matrix of a letter, where a line has one.
fn matrix_in(entries: &[Entry], letter: u32) -> Option<&Matrix>
    ensures { option_copied result ≡ matrix_in entries.now letter }
{
    for entry in entries {
        match entry {
            Entry::Map {
                letter: named,
                matrix,
            } if u32::from(named.0) == letter => {
                return Some(matrix);
            }
            _ => {}
        }
    }
    None
}

// A copy of the matrix of a letter.
fn matrix_copy(entries: &[Entry], letter: u32) -> Result<Option<Matrix>, AllocError>
    ensures { IfOk result (λ found. found ≡ matrix_in entries.now letter) }
{
    match matrix_in(entries, letter) {
        Some(matrix) => Ok(Some(matrix.duplicate()?)),
        None => Ok(None),
    }
}

// A side for each object.
fn sides_in(alloc: Global, quiver: &Quiver, entries: &[Entry]) -> Result<Listing<u32>, AllocError>
    ensures { IfOk result (λ sides. sides ≡ sides_in quiver.now entries.now) }
{
    let mut sides = Listing::new(alloc);
    for object in 0..quiver.objects() {
        sides.push(side_in(entries, object))?;
    }
    Ok(sides)
}

// An entry for each letter.
fn maps_in(
    alloc: Global,
    quiver: &Quiver,
    entries: &[Entry],
) -> Result<Listing<Option<Matrix>>, AllocError>
    ensures { IfOk result (λ maps. maps ≡ maps_in quiver.now entries.now) }
{
    let mut maps = Listing::new(alloc);
    for letter in 0..quiver.letters() {
        maps.push(matrix_copy(entries, letter)?)?;
    }
    Ok(maps)
}

/// The model that the lines of a block say.
pub fn model_of(
    alloc: Global,
    quiver: &Quiver,
    claim: u32,
    modulus: u32,
    entries: &[Entry],
) -> Result<Model, AllocError>
    ensures { IfOk result (λ m. m ≡ model_of quiver.now (claim, (modulus, entries.now))) }
{
    Ok(Model {
        claim,
        modulus,
        sides: sides_in(alloc, quiver, entries)?,
        maps: maps_in(alloc, quiver, entries)?,
    })
}
