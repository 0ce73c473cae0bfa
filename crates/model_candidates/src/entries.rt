//! The entries of a shape.
ghost use Rattle.std.specs.Prelude.{◌≡◌, ◌<◌, ◌≤◌, length};
ghost use Rattle.std.specs.List.{All};
ghost use Rattle.definitions.specs.Quiver.{IsQuiver};
ghost use Rattle.quiver.specs.Declarations.{letter_count, object_count, quiver_of};
ghost use Rattle.adjoint_rules.specs.Limits.{shape_side_limit};
ghost use Rattle.adjoint_rules.specs.Problem.{IsShape, IsSide};
ghost use Rattle.model_candidates.specs.Candidates.{is_declared_map, map_entries, entries_of, side_in};
ghost use Rattle.model_candidates.specs.EntryPlaces.{entries_before};
ghost use Rattle.model_candidates.specs.Limits.{entry_limit};

use adjoint_rules::Shape;
use quiver::Quiver;
use word_core::{Letter, Object};

/// How many entries the shape has.
pub(crate) fn entry_count(quiver: &Quiver, shape: &Shape) -> u32
    requires quiver { IsQuiver (quiver_of quiver.now) }
    requires shape { IsShape (object_count quiver.now) shape.now }
    ensures count { result ≡ length (entries_of (quiver_of quiver.now) shape.now) }
    ensures few { result ≤ entry_limit }
{
    entries_before(quiver, shape, quiver.letters())
}

/// How many entries the maps before this number have.
pub(crate) fn entries_before(quiver: &Quiver, shape: &Shape, end: u32) -> u32
    requires quiver { IsQuiver (quiver_of quiver.now) }
    requires shape { IsShape (object_count quiver.now) shape.now }
    requires end { end ≤ letter_count quiver.now }
    ensures count { result ≡ length (entries_before (quiver_of quiver.now) shape.now end) }
    ensures few { result ≤ entry_limit }
{
    let mut count = 0;
    for number in 0..end.min(quiver.letters()) {
        let letter = Letter(number as u16);
        if is_declared(quiver, letter) {
            count += map_entry_count(quiver, shape, letter);
        }
    }
    count
}

/// Whether the letter is a map, and not the adjoint of another.
pub(crate) fn is_declared(quiver: &Quiver, letter: Letter) -> bool
    requires { letter.0 < letter_count quiver.now }
    ensures { result ≡ is_declared_map (quiver_of quiver.now) letter.0 }
{
    u32::from(letter.0) >= quiver.objects() && letter.0 <= quiver.star_of(letter).0
}

/// How many entries the map has.
pub(crate) fn map_entry_count(quiver: &Quiver, shape: &Shape, letter: Letter) -> u32
    requires letter { letter.0 < letter_count quiver.now }
    requires quiver { IsQuiver (quiver_of quiver.now) }
    requires shape { IsShape (object_count quiver.now) shape.now }
    ensures count { result ≡ length (map_entries (quiver_of quiver.now) shape.now letter.0) }
    ensures few { result ≤ 36 }
{
    let ends = quiver.signature_of(letter);
    let rows = side_at(shape, ends.target);
    let columns = side_at(shape, ends.source);
    if quiver.star_of(letter) == letter {
        rows * (rows + 1) / 2
    } else {
        rows * columns
    }
}

/// The side of the object.
pub(crate) fn side_at(shape: &Shape, object: Object) -> u32
    requires in_range { object.0 < length shape.now.sides }
    requires sides { All IsSide shape.now.sides }
    ensures value { result ≡ side_in shape.now object.0 }
    ensures least { 1 ≤ result }
    ensures most { result ≤ shape_side_limit }
{
    *shape.sides.at(usize::from(object.0))
}
