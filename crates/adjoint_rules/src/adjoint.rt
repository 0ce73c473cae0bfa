//! Adjoints of words and polynomials, and those of the assumptions, which become generators.

ghost use Rattle.std.specs.Prelude.{◌≡◌, IfOk, OnOk, ◌++◌, ℕ, ℤ, List, length, negsuc};
ghost use Rattle.std.specs.List.{All, AllZip};
ghost use Rattle.definitions.specs.Poly.{SamePolynomial, poly_multiple};
ghost use Rattle.definitions.specs.Generators.{adjoint_word, adjoint_poly};
ghost use Rattle.word_core.specs.Letters.{IsOver};
ghost use Rattle.nc_polynomial.specs.Adjoint.{numbers_of, IsInvolution};
ghost use Rattle.quiver.specs.Declarations.{letter_count, quiver_of};
ghost use Rattle.adjoint_rules.specs.Problem.{polynomials, IsPosed};
ghost use Rattle.adjoint_rules.specs.Parts.{IsNewAdjoint, adjoints_in};

use crate::Parts;
use lists::{Duplicate, Listing};
use nc_polynomial::{Poly, negate_terms};
use quiver::Quiver;
use std::alloc::{AllocError, Global};
use word_core::{Letter, Word};

/// The adjoint of a word: the adjoints of its letters, in reverse.
pub fn adjoint_word(alloc: Global, quiver: &Quiver, word: &Word) -> Result<Word, AllocError>
    requires { IsOver (letter_count quiver.now) word.now }
    ensures { IfOk result (λ w. w ≡ adjoint_word (quiver_of quiver.now) word.now) }
{
    let mut adjoint = Word::with_room(alloc, word.len())?;
    let mut place = word.len();
    while place > 0 {
        place -= 1;
        adjoint.push(quiver.star_of(word.letter(place)))?;
    }
    Ok(adjoint)
}

/// The adjoint of a polynomial: that of each of its words.
pub fn adjoint_poly(alloc: Global, quiver: &Quiver, poly: &Poly) -> Result<Poly, AllocError>
    requires { All (λ t. IsOver (letter_count quiver.now) t.1) poly.now.terms }
    ensures { IfOk result (λ p. SamePolynomial p.terms (adjoint_poly (quiver_of quiver.now) poly.now.terms)) }
{
    let stars = stars_of(alloc, quiver)?;
    poly.adjoint_by(stars.as_slice())
}

// The adjoint of each letter, in the order of their numbers.
fn stars_of(alloc: Global, quiver: &Quiver) -> Result<Listing<Letter>, AllocError>
    ensures listed { IfOk result (λ stars. numbers_of stars ≡ (quiver_of quiver.now).stars) }
    ensures count { IfOk result (λ stars. length stars ≡ letter_count quiver.now) }
    ensures involution { IfOk result (λ stars. IsInvolution (numbers_of stars)) }
{
    // That adjoints are letters is ensured with the number of objects.
    let _ = quiver.objects();
    let mut stars = Listing::new(alloc);
    for number in 0..quiver.letters() {
        stars.push(quiver.star_of(Letter(number as u16)))?;
    }
    Ok(stars)
}

// The negative of a polynomial.
fn negative_of(alloc: Global, poly: &Poly) -> Result<Poly, AllocError>
    ensures { IfOk result (λ p. SamePolynomial p.terms (poly_multiple (negsuc 0) poly.now.terms)) }
{
    let terms = negate_terms(alloc, poly.terms.duplicate()?)?;
    Ok(Poly { terms })
}

// The adjoint of a polynomial by the adjoints of the letters, unless it is plus or minus the polynomial.
fn new_adjoint(alloc: Global, stars: &[Letter], poly: &Poly) -> Result<Option<Poly>, AllocError>
    requires involution { IsInvolution (numbers_of stars.now) }
    requires listed { All (λ t. IsOver (length stars.now) t.1) poly.now.terms }
    ensures { IfOk result (IsNewAdjoint (numbers_of stars.now) poly.now.terms) }
{
    let adjoint = poly.adjoint_by(stars)?;
    if adjoint.same(poly) {
        return Ok(None);
    }
    let negative = negative_of(alloc, poly)?;
    if adjoint.same(&negative) {
        return Ok(None);
    }
    Ok(Some(adjoint))
}

// Appends the adjoints of the assumptions where the statement is starred, without those that are plus or minus the assumption.
pub(crate) fn push_adjoints(
    alloc: Global,
    generators: &mut Listing<Poly>,
    parts: &Parts,
) -> Result<(), AllocError>
    requires { IsPosed parts.now }
    ensures { OnOk result ((before : List (List (ℤ × List ℕ))) → AllZip SamePolynomial (polynomials generators.old) before
        → AllZip SamePolynomial (polynomials generators.new) (before ++ adjoints_in parts.now)) }
{
    if !parts.starred {
        return Ok(());
    }
    let stars = stars_of(alloc, &parts.quiver)?;
    for assumption in parts.assumptions.as_slice() {
        if let Some(adjoint) = new_adjoint(alloc, stars.as_slice(), assumption)? {
            generators.push(adjoint)?;
        }
    }
    Ok(())
}
