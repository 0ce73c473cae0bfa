//! The values of polynomials and paths in a representation.

ghost use Rattle.std.specs.Prelude.{◌≡◌, ◌<◌, IfOk, IsSome};
ghost use Rattle.definitions.specs.Quiver.{IsTyped, signature_of};
ghost use Rattle.definitions.specs.Representation.{word_value};
ghost use Rattle.quiver.specs.Declarations.{object_count, quiver_of};
ghost use Rattle.representations.specs.Listed.{listed, IsRepresentation, IsValue};

use crate::Representation;
use crate::multiple::{copy_of, multiple_of};
use category_laws::Category;
use nc_polynomial::Poly;
use quiver::{Quiver, Sig};
use std::alloc::{AllocError, Global};
use word_core::Word;

/// The value of a polynomial that has the signature: the sum of the integer multiples of the values of its words, where
/// a word's value is the composite of the arrows of its letters. The call fails only where memory is short.
pub fn value_of<C: Category>(
    alloc: Global,
    category: &C,
    quiver: &Quiver,
    representation: &Representation<C>,
    poly: &Poly,
    sig: Sig,
) -> Result<C::Arrow, AllocError>
    requires typed { IsTyped (quiver_of quiver.now) sig.source.0 sig.target.0 poly.now.terms }
    requires source_in_range { sig.source.0 < object_count quiver.now }
    requires target_in_range { sig.target.0 < object_count quiver.now }
    requires represented { IsRepresentation (C.structure category.now) (quiver_of quiver.now) representation.now.objects representation.now.arrows }
    ensures value { IfOk result (IsValue (C.structure category.now) (quiver_of quiver.now)
        representation.now.objects representation.now.arrows sig.source.0 sig.target.0 poly.now.terms) }
    ensures arrow { IfOk result (C.structure category.now).is_arrow }
{
    let source = representation.object(sig.source);
    let target = representation.object(sig.target);
    let mut sum = category.zero(alloc, source, target)?;
    for place in 0..poly.terms() {
        let (coefficient, word) = poly.term(place);
        let path = path_value_of(alloc, category, quiver, representation, word)?;
        let multiple = multiple_of(alloc, category, coefficient, path)?;
        sum = category.add(alloc, &sum, &multiple)?;
    }
    Ok(sum)
}

// The value of a path: the composite of the arrows of its letters. The quiver is used only in the clauses.
fn path_value_of<C: Category>(
    alloc: Global,
    category: &C,
    quiver: &Quiver,
    representation: &Representation<C>,
    word: &Word,
) -> Result<C::Arrow, AllocError>
    requires represented { IsRepresentation (C.structure category.now) (quiver_of quiver.now) representation.now.objects representation.now.arrows }
    requires path { IsSome (signature_of (quiver_of quiver.now) word.now) }
    ensures value { IfOk result (λ x. (o : C.Object) (a none : C.Arrow)
        → x ≡ word_value (C.structure category.now) (listed representation.now.objects representation.now.arrows o a) none word.now) }
{
    let mut place = word.len() - 1;
    let mut value = copy_of(alloc, category, representation.arrow(word.letter(place)))?;
    while place > 0 {
        place -= 1;
        let arrow = representation.arrow(word.letter(place));
        value = category.compose(alloc, arrow, &value)?;
    }
    Ok(value)
}
