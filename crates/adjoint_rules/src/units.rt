//! The relations of the identities that a statement writes, as generators.

ghost use Rattle.std.specs.Prelude.{◌≡◌, ◌<◌, IfOk, OnOk, [], ◌∷◌, ◌++◌, pos, negsuc};
ghost use Rattle.definitions.specs.Generators.{units, letter_units};
ghost use Rattle.quiver.specs.Declarations.{letter_count, object_count, quiver_of, ObjectsFirst};
ghost use Rattle.adjoint_rules.specs.Problem.{polynomials, IsPosed};
ghost use Rattle.adjoint_rules.specs.Parts.{units_in};

use crate::Parts;
use lists::Listing;
use nc_polynomial::Poly;
use quiver::Quiver;
use std::alloc::{AllocError, Global};
use word_core::{Letter, Object, Word};

// Appends the relations of the identities of the marked objects.
pub(crate) fn push_all_units(
    alloc: Global,
    generators: &mut Listing<Poly>,
    parts: &Parts,
) -> Result<(), AllocError>
    requires { IsPosed parts.now }
    ensures { OnOk result (polynomials generators.new ≡ polynomials generators.old ++ units_in parts.now) }
{
    for object in parts.marked.as_slice() {
        push_units(alloc, generators, &parts.quiver, parts.starred, *object)?;
    }
    Ok(())
}

// Appends the relations of the object's identity: with itself, and with each map and, where the statement is starred, each adjoint.
fn push_units(
    alloc: Global,
    generators: &mut Listing<Poly>,
    quiver: &Quiver,
    starred: bool,
    object: Object,
) -> Result<(), AllocError>
    requires objects_first { ObjectsFirst quiver.now }
    requires object { object.0 < object_count quiver.now }
    ensures { OnOk result (polynomials generators.new ≡ polynomials generators.old ++ units (quiver_of quiver.now) starred object.0) }
{
    let identity = quiver.identity_of(object);
    generators.push(product_less_letter(alloc, identity, identity, identity)?)?;
    for number in quiver.objects()..quiver.letters() {
        push_letter_units(
            alloc,
            generators,
            quiver,
            starred,
            object,
            Letter(number as u16),
        )?;
    }
    Ok(())
}

// Appends the relations of the object's identity with the letter: on its left where the letter ends at the object, and on its right where it starts there.
fn push_letter_units(
    alloc: Global,
    generators: &mut Listing<Poly>,
    quiver: &Quiver,
    starred: bool,
    object: Object,
    letter: Letter,
) -> Result<(), AllocError>
    requires objects_first { ObjectsFirst quiver.now }
    requires object { object.0 < object_count quiver.now }
    requires letter { letter.0 < letter_count quiver.now }
    ensures { OnOk result (polynomials generators.new ≡ polynomials generators.old ++ letter_units (quiver_of quiver.now) starred object.0 letter.0) }
{
    let unit = quiver.identity_of(object);
    let ends = quiver.signature_of(letter);
    if !starred && letter > quiver.star_of(letter) {
        return Ok(());
    }
    if ends.target == object {
        generators.push(product_less_letter(alloc, unit, letter, letter)?)?;
    }
    if ends.source == object {
        generators.push(product_less_letter(alloc, letter, unit, letter)?)?;
    }
    Ok(())
}

// The product of two letters minus a letter.
fn product_less_letter(
    alloc: Global,
    first: Letter,
    second: Letter,
    letter: Letter,
) -> Result<Poly, AllocError>
    ensures { IfOk result (λ p. p.terms ≡ (pos 1, first.0 ∷ second.0 ∷ []) ∷ (negsuc 0, letter.0 ∷ []) ∷ []) }
{
    let mut product = Word::new(alloc);
    product.push(first)?;
    product.push(second)?;
    let mut single = Word::new(alloc);
    single.push(letter)?;
    let mut terms = Listing::new(alloc);
    terms.push((1, product))?;
    terms.push((-1, single))?;
    Ok(Poly { terms })
}
