//! Representations: an object for each object of a quiver, and an arrow for each letter.

ghost use Rattle.std.specs.Prelude.{◌≡◌, ◌<◌, length, slice_index_or};

use category_laws::Preadditive;
use lists::Listing;
use word_core::{Letter, Object};

/// One object of the category for each object of a quiver, and one arrow for each letter, in the order of their numbers.
#[derive(Drop)]
pub struct Representation<C: Preadditive> {
    pub objects: Listing<C::Object>,
    pub arrows: Listing<C::Arrow>,
}

impl<C: Preadditive> Representation<C> {
    /// The object of the category for this object of the quiver.
    pub fn object(&self, object: Object) -> &C::Object
        requires { object.0 < length self.now.objects }
        ensures { (o : C.Object) → result.now ≡ slice_index_or self.now.objects object.0 o }
    {
        self.objects.at(usize::from(object.0))
    }

    /// The arrow for this letter.
    pub fn arrow(&self, letter: Letter) -> &C::Arrow
        requires { letter.0 < length self.now.arrows }
        ensures { (a : C.Arrow) → result.now ≡ slice_index_or self.now.arrows letter.0 a }
    {
        self.arrows.at(usize::from(letter.0))
    }
}
