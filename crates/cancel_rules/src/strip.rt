//! A letter taken off each word of a polynomial.
ghost use Rattle.std.specs.Prelude.{◌≡◌, ◌↔◌, ◌<◌, All, IfOk, IsTrue, MatchOption};
ghost use Rattle.definitions.specs.Quiver.{IsQuiver};
ghost use Rattle.definitions.specs.Soundness.{HasSignature};
ghost use Rattle.word_core.specs.Letters.{IsOver};
ghost use Rattle.quiver.specs.Declarations.{letter_count, object_count, quiver_of};
ghost use Rattle.cancel_rules.specs.Items.{word_without, stripped, HasAtEnd};

use crate::Side;
use lists::Listing;
use nc_polynomial::Poly;
use quiver::Quiver;
use std::alloc::AllocError;
use word_core::{Letter, Word};

/// Whether the polynomial is typed. Zero is, of any two objects.
pub(crate) fn is_typed(quiver: &Quiver, poly: &Poly) -> bool
    requires quiver { IsQuiver (quiver_of quiver.now) }
    requires object { 0 < object_count quiver.now }
    requires letters { All (λ t. IsOver (letter_count quiver.now) t.1) poly.now.terms }
    ensures { IsTrue result ↔ HasSignature (quiver_of quiver.now) poly.now.terms }
{
    poly.terms() == 0 || quiver.poly_signature(poly).is_some()
}

// The word without the letter at its end; `None` exactly where it doesn't have it there, or has no other.
fn rest_of(word: &Word, letter: Letter, side: Side) -> Result<Option<Word>, AllocError>
    ensures { IfOk result (λ rest. MatchOption rest (HasAtEnd side letter.0 word.now → ⊥) (λ w. HasAtEnd side letter.0 word.now
        × (w ≡ word_without side word.now))) }
{
    let length = word.len();
    if length < 2 {
        return Ok(None);
    }
    match side {
        Side::Left => {
            if word.letter(0) != letter {
                return Ok(None);
            }
            Ok(Some(word.slice(1, length)?))
        }
        Side::Right => {
            if word.letter(length - 1) != letter {
                return Ok(None);
            }
            Ok(Some(word.slice(0, length - 1)?))
        }
    }
}

/// The polynomial without the letter at that end of each word; `None` exactly where a word doesn't have it there, or has
/// no other. The words stay in their order.
pub(crate) fn strip(poly: &Poly, letter: Letter, side: Side) -> Result<Option<Poly>, AllocError>
    ensures { IfOk result (λ rest. MatchOption rest (All (λ t. HasAtEnd side letter.0 t.1) poly.now.terms → ⊥)
        (λ p. All (λ t. HasAtEnd side letter.0 t.1) poly.now.terms × (p.terms ≡ stripped side poly.now.terms))) }
{
    let mut terms = Listing::new(poly.terms.allocator());
    for term in poly.terms.as_slice() {
        let Some(rest) = rest_of(&term.1, letter, side)? else {
            return Ok(None);
        };
        terms.push((term.0, rest))?;
    }
    Ok(Some(Poly { terms }))
}
