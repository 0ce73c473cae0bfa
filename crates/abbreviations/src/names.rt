//! Letters and objects by their names.
ghost use Rattle.std.specs.Prelude.{◌≡◌, ◌<◌, IsTrue};
ghost use Rattle.quiver.specs.Declarations.{named_in, letter_count, object_count};
ghost use Rattle.abbreviations.specs.Names.{is_map, is_object, letter_of, object_of};

use quiver::{Named, Quiver};
use statement_syntax::Name;
use word_core::{Letter, Object};

/// The letter of the map with this name.
pub fn letter_of(quiver: &Quiver, name: &Name) -> Letter
    requires { IsTrue (is_map (named_in quiver.now name.now.text)) }
    ensures number { result.0 ≡ letter_of quiver.now name.now }
    ensures in_range { result.0 < letter_count quiver.now }
{
    match quiver.find(name.text.as_str()) {
        Some(Named::Map(letter)) => letter,
        _ => unreachable!(),
    }
}

/// The object with this name.
pub fn object_of(quiver: &Quiver, name: &Name) -> Object
    requires { IsTrue (is_object (named_in quiver.now name.now.text)) }
    ensures number { result.0 ≡ object_of quiver.now name.now }
    ensures in_range { result.0 < object_count quiver.now }
{
    match quiver.find(name.text.as_str()) {
        Some(Named::Object(object)) => object,
        _ => unreachable!(),
    }
}
