//! Where the values of the entries stand in the matrices of the letters.
ghost use Rattle.std.specs.Prelude.{◌≡◌, ◌<◌, IfOk};
ghost use Rattle.definitions.specs.Quiver.{IsQuiver};
ghost use Rattle.quiver.specs.Declarations.{letter_count, object_count, quiver_of};
ghost use Rattle.adjoint_rules.specs.Problem.{IsShape};
ghost use Rattle.model_candidates.specs.LetterTables.{entry_numbers, letter_table, letter_tables};

use crate::entries::{entry_count, side_at};
use crate::letter_numbers::letter_values;
use crate::unknowns::numbers_before;
use adjoint_rules::Shape;
use lists::Listing;
use quiver::Quiver;
use std::alloc::{AllocError, Global};
use word_core::Letter;

/// Where the values of the entries stand in the matrix of a map or of an adjoint.
#[derive(Drop)]
pub struct LetterTable {
    /// How many rows the matrix has.
    pub rows: u32,
    /// How many columns it has.
    pub columns: u32,
    /// The places of its entries' values among those of all entries, row by row, counted from 0.
    pub places: Listing<u32>,
}

/// For each letter its table: an identity has none.
pub(crate) fn letter_tables(
    alloc: Global,
    quiver: &Quiver,
    shape: &Shape,
) -> Result<Listing<Option<LetterTable>>, AllocError>
    requires quiver { IsQuiver (quiver_of quiver.now) }
    requires shape { IsShape (object_count quiver.now) shape.now }
    ensures { IfOk result (λ tables. tables ≡ letter_tables (quiver_of quiver.now) shape.now) }
{
    let own = numbers_before(alloc, entry_count(quiver, shape))?;
    let mut tables = Listing::new(alloc);
    for number in 0..quiver.letters() {
        let letter = Letter(number as u16);
        tables.push(letter_table(alloc, quiver, shape, letter, own.as_slice())?)?;
    }
    Ok(tables)
}

// The table of the letter, by the numbers of the entries.
fn letter_table(
    alloc: Global,
    quiver: &Quiver,
    shape: &Shape,
    letter: Letter,
    own: &[u32],
) -> Result<Option<LetterTable>, AllocError>
    requires letter { letter.0 < letter_count quiver.now }
    requires quiver { IsQuiver (quiver_of quiver.now) }
    requires shape { IsShape (object_count quiver.now) shape.now }
    requires own { own.now ≡ entry_numbers (quiver_of quiver.now) shape.now }
    ensures { IfOk result (λ table. table ≡ letter_table (quiver_of quiver.now) shape.now letter.0) }
{
    if u32::from(letter.0) < quiver.objects() {
        return Ok(None);
    }
    let ends = quiver.signature_of(letter);
    Ok(Some(LetterTable {
        rows: side_at(shape, ends.target),
        columns: side_at(shape, ends.source),
        places: letter_values(alloc, quiver, shape, letter, own)?,
    }))
}
