//! The values that stand in the matrix of a letter: the numbers of its unknowns, where the letter is solved for.
ghost use Rattle.std.specs.Prelude.{◌≡◌, ◌<◌, true, length, IfOk};
ghost use Rattle.definitions.specs.Quiver.{IsQuiver, source, target};
ghost use Rattle.quiver.specs.Declarations.{letter_count, object_count, quiver_of};
ghost use Rattle.adjoint_rules.specs.Problem.{IsShape};
ghost use Rattle.model_candidates.specs.Candidates.{entries_of, is_declared_map, side_in};
ghost use Rattle.model_candidates.specs.EntryPlaces.{entries_before};
ghost use Rattle.model_candidates.specs.LetterNumbers.{letter_value, letter_values, map_behind, numbers_of_letters};
ghost use Rattle.model_candidates.specs.Unknowns.{solved_flags, unknown_numbers};

use crate::entries::{entries_before, side_at};
use crate::given_values::{MapValues, value_shown};
use crate::plan::is_solved;
use adjoint_rules::{Problem, Shape};
use lists::Listing;
use quiver::Quiver;
use std::alloc::{AllocError, Global};
use word_core::Letter;

/// For each letter that is solved for the numbers of the unknowns in its matrix, row by row, by those of the entries.
pub(crate) fn numbers_of_letters(
    alloc: Global,
    problem: &Problem,
    shape: &Shape,
    own: &[u32],
) -> Result<Listing<Option<Listing<u32>>>, AllocError>
    requires shape { IsShape (object_count problem.now.parts.quiver) shape.now }
    requires own { own.now ≡ unknown_numbers (solved_flags (quiver_of problem.now.parts.quiver) shape.now problem.now.parts.solved) }
    ensures { IfOk result (λ numbers. numbers ≡ numbers_of_letters (quiver_of problem.now.parts.quiver) shape.now problem.now.parts.solved) }
{
    let quiver = &problem.parts.quiver;
    let mut numbers = Listing::new(alloc);
    for number in 0..quiver.letters() {
        let letter = Letter(number as u16);
        let of_letter = if is_solved(quiver, problem.parts.solved.as_slice(), letter) {
            Some(letter_values(alloc, quiver, shape, letter, own)?)
        } else {
            None
        };
        numbers.push(of_letter)?;
    }
    Ok(numbers)
}

/// The values in the matrix of a map or of an adjoint, row by row, by values of the entries.
pub(crate) fn letter_values(
    alloc: Global,
    quiver: &Quiver,
    shape: &Shape,
    letter: Letter,
    values: &[u32],
) -> Result<Listing<u32>, AllocError>
    requires letter { letter.0 < letter_count quiver.now }
    requires declared { is_declared_map (quiver_of quiver.now) (map_behind (quiver_of quiver.now) letter.0) ≡ true }
    requires quiver { IsQuiver (quiver_of quiver.now) }
    requires shape { IsShape (object_count quiver.now) shape.now }
    requires one_each { length values.now ≡ length (entries_of (quiver_of quiver.now) shape.now) }
    ensures { IfOk result (λ list. list ≡ letter_values (quiver_of quiver.now) shape.now values.now letter.0) }
{
    let ends = quiver.signature_of(letter);
    let rows = side_at(shape, ends.target);
    let columns = side_at(shape, ends.source);
    let map = map_behind(quiver, letter);
    let first = entries_before(quiver, shape, u32::from(map.0)) as usize;
    let map_values = MapValues { all: values, first };
    let mut list = Listing::new(alloc);
    for place in 0..rows * columns {
        let (row, column) = (place / columns, place % columns);
        list.push(letter_value(quiver, shape, letter, map_values, row, column))?;
    }
    Ok(list)
}

// The map, where the letter is the adjoint of one.
fn map_behind(quiver: &Quiver, letter: Letter) -> Letter
    requires { letter.0 < letter_count quiver.now }
    ensures map { result.0 ≡ map_behind (quiver_of quiver.now) letter.0 }
    ensures in_range { result.0 < letter_count quiver.now }
{
    let adjoint = quiver.star_of(letter);
    if letter.0 <= adjoint.0 {
        letter
    } else {
        adjoint
    }
}

// The value in this row and column, by those of the map.
fn letter_value(
    quiver: &Quiver,
    shape: &Shape,
    letter: Letter,
    values: MapValues,
    row: u32,
    column: u32,
) -> u32
    requires letter { letter.0 < letter_count quiver.now }
    requires declared { is_declared_map (quiver_of quiver.now) (map_behind (quiver_of quiver.now) letter.0) ≡ true }
    requires quiver { IsQuiver (quiver_of quiver.now) }
    requires shape { IsShape (object_count quiver.now) shape.now }
    requires one_each { length values.all.now ≡ length (entries_of (quiver_of quiver.now) shape.now) }
    requires first { values.first ≡ length (entries_before (quiver_of quiver.now) shape.now (map_behind (quiver_of quiver.now) letter.0)) }
    requires row { row < side_in shape.now (target (quiver_of quiver.now) letter.0) }
    requires column { column < side_in shape.now (source (quiver_of quiver.now) letter.0) }
    ensures { result ≡ letter_value (quiver_of quiver.now) shape.now values.entry.all.now letter.0 row column }
{
    let adjoint = quiver.star_of(letter);
    if letter.0 <= adjoint.0 {
        value_shown(quiver, shape, letter, values, row, column)
    } else {
        value_shown(quiver, shape, adjoint, values, column, row)
    }
}
