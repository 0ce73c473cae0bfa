//! Marks after a polynomial: adjoints and powers.
ghost use Rattle.std.specs.Prelude.{◌≡◌, ◌≤◌, [], ◌∷◌, replicate, unsigned_abs, MatchResult, IfOk, Ok};
ghost use Rattle.std.specs.List.{All};
ghost use Rattle.definitions.specs.Generators.{adjoint_poly};
ghost use Rattle.word_core.specs.Letters.{IsOver};
ghost use Rattle.nc_polynomial.specs.Collected.{collection_result};
ghost use Rattle.nc_polynomial.specs.Faults.{Explains};
ghost use Rattle.nc_polynomial.specs.Shape.{IsCanonical};
ghost use Rattle.quiver.specs.Declarations.{letter_count, quiver_of, IsDeclared};
ghost use Rattle.expressions.specs.Due.{due_poly, due_marked};
ghost use Rattle.expressions.specs.Polynomials.{product_poly, power_poly, marked_poly};
ghost use Rattle.expressions.specs.Repeated.{repeated_word};

use adjoint_rules::adjoint_word;
use lists::Listing;
use nc_polynomial::{Poly, PolyFault, SizeFault, WORD_LIMIT};
use quiver::Quiver;
use statement_syntax::Mark;
use std::alloc::{AllocError, Global};
use word_core::Word;

/// The polynomial with these marks after it, or the first fault.
pub(crate) fn with_marks(
    alloc: Global,
    quiver: &Quiver,
    marks: &[Mark],
    poly: Poly,
) -> Result<Poly, PolyFault>
    requires declared { IsDeclared quiver.now }
    requires letters { All (λ t. IsOver (letter_count quiver.now) t.1) poly.terms }
    ensures { let marked = marked_poly (quiver_of quiver.now) marks.now poly.terms in
        MatchResult result (λ p. marked ≡ Ok p.terms) (Explains marked) }
{
    let mut marked = Marked { poly, due: false };
    for mark in marks {
        marked = with_mark(alloc, quiver, marked, mark)?;
    }
    take_due(alloc, quiver, marked)
}

// A polynomial with marks after it, and whether its adjoint is meant. The adjoint isn't taken until a power needs it:
// where another quote comes first, the polynomial itself is meant again.
#[derive(Drop)]
struct Marked {
    poly: Poly,
    due: bool,
}

// The polynomial with one more mark.
fn with_mark(
    alloc: Global,
    quiver: &Quiver,
    marked: Marked,
    mark: &Mark,
) -> Result<Marked, PolyFault>
    requires declared { IsDeclared quiver.now }
    requires letters { All (λ t. IsOver (letter_count quiver.now) t.1) marked.poly.terms }
    ensures exact { let next = due_marked (quiver_of quiver.now) marked mark.now in
        MatchResult result (λ m. due_poly (quiver_of quiver.now) m ≡ next) (Explains next) }
    ensures letters { IfOk result (λ m. All (λ t. IsOver (letter_count quiver.now) t.1) m.poly.terms) }
{
    match mark {
        Mark::Adjoint => Ok(Marked {
            poly: marked.poly,
            due: !marked.due,
        }),
        Mark::Power { exponent, .. } if exponent.value >= 2 => {
            let base = take_due(alloc, quiver, marked)?;
            let poly = power(alloc, base, exponent.value)?;
            Ok(Marked { poly, due: false })
        }
        Mark::Power { .. } => Ok(marked),
    }
}

// The polynomial, or its adjoint where it is due.
fn take_due(alloc: Global, quiver: &Quiver, marked: Marked) -> Result<Poly, PolyFault>
    requires { All (λ t. IsOver (letter_count quiver.now) t.1) marked.poly.terms }
    ensures { let taken = due_poly (quiver_of quiver.now) marked in
        MatchResult result (λ p. taken ≡ Ok p.terms) (Explains taken) }
{
    if !marked.due {
        return Ok(marked.poly);
    }
    adjoint(alloc, quiver, &marked.poly)
}

// The words are reversed, and the adjoints of their letters are taken.
fn adjoint(alloc: Global, quiver: &Quiver, poly: &Poly) -> Result<Poly, PolyFault>
    requires { All (λ t. IsOver (letter_count quiver.now) t.1) poly.now.terms }
    ensures { let adjoint = collection_result (adjoint_poly (quiver_of quiver.now) poly.now.terms) in
        MatchResult result (λ p. adjoint ≡ Ok p.terms) (Explains adjoint) }
{
    let mut terms = Vec::new(alloc);
    for term in poly.terms.as_slice() {
        terms.push((term.0, adjoint_word(alloc, quiver, &term.1)?))?;
    }
    Poly::from_terms(alloc, terms.as_slice())
}

// The power. A power of zero is zero, and an exponent below 2 changes nothing.
fn power(alloc: Global, base: Poly, exponent: i128) -> Result<Poly, PolyFault>
    ensures { MatchResult result (λ p. power_poly exponent base.terms ≡ Ok p.terms) (Explains (power_poly exponent base.terms)) }
{
    if exponent < 2 {
        return Ok(base);
    }
    let factors = exponent.unsigned_abs();
    match base.terms.as_slice() {
        [] => Ok(Poly::zero(alloc)),
        [term] => power_of_term(alloc, term, factors),
        _ => power_of_sum(&base, factors),
    }
}

// The power of one term: its word is written once.
fn power_of_term(alloc: Global, term: &(i128, Word), factors: u128) -> Result<Poly, PolyFault>
    requires canonical { IsCanonical (term.now ∷ []) }
    requires begun { 1 ≤ factors }
    ensures { let power = product_poly (replicate factors (term.now ∷ [])) in
        MatchResult result (λ p. power ≡ Ok p.terms) (Explains power) }
{
    let coefficient = if term.0.unsigned_abs() == 1 {
        unit_of_power(term, factors)?
    } else {
        coefficient_of_power(term, factors)?
    };
    let word = repeated_word(&term.1, factors)?;
    let mut terms = Listing::with_room(alloc, 1)?;
    terms.push((coefficient, word))?;
    Ok(Poly { terms })
}

// The coefficient of the power, where that of the term is 1 or -1, so that no product is too large.
fn unit_of_power(term: &(i128, Word), factors: u128) -> Result<i128, PolyFault>
    requires canonical { IsCanonical (term.now ∷ []) }
    requires begun { 1 ≤ factors }
    requires unit { unsigned_abs term.now.0 ≡ 1 }
    ensures exact { let power = product_poly (replicate factors (term.now ∷ [])) in
        MatchResult result (λ c. power ≡ Ok ((c, repeated_word factors term.now.1) ∷ [])) (Explains power) }
    ensures canonical { IfOk result (λ c. IsCanonical ((c, repeated_word factors term.now.1) ∷ [])) }
{
    let letters = (term.1.len() as u128).saturating_mul(factors);
    if letters > WORD_LIMIT as u128 {
        return Err(PolyFault::Size(SizeFault { letters: true }));
    }
    Ok(if factors % 2 == 0 { 1 } else { term.0 })
}

// The coefficient of the power, factor by factor: too many letters are a fault before too large a coefficient.
fn coefficient_of_power(term: &(i128, Word), factors: u128) -> Result<i128, PolyFault>
    requires canonical { IsCanonical (term.now ∷ []) }
    requires begun { 1 ≤ factors }
    ensures exact { let power = product_poly (replicate factors (term.now ∷ [])) in
        MatchResult result (λ c. power ≡ Ok ((c, repeated_word factors term.now.1) ∷ [])) (Explains power) }
    ensures canonical { IfOk result (λ c. IsCanonical ((c, repeated_word factors term.now.1) ∷ [])) }
{
    let mut coefficient = term.0;
    let mut letters = term.1.len();
    for _ in 1..factors {
        letters = letters.saturating_add(term.1.len());
        if letters > WORD_LIMIT {
            return Err(PolyFault::Size(SizeFault { letters: true }));
        }
        coefficient = coef_int::times(coefficient, term.0)?;
    }
    Ok(coefficient)
}

// The power of the word, of which one half is copied for the other.
fn repeated_word(word: &Word, times: u128) -> Result<Word, AllocError>
    requires { 1 ≤ times }
    ensures { IfOk result (λ w. w ≡ repeated_word times word.now) }
{
    if times == 1 {
        return word.copy();
    }
    let half = repeated_word(word, times / 2)?;
    if times % 2 == 0 {
        half.concat(&half)
    } else {
        half.between(&half, word)
    }
}

// The power of several terms: the product of this many factors, from the left.
fn power_of_sum(base: &Poly, factors: u128) -> Result<Poly, PolyFault>
    requires { 1 ≤ factors }
    ensures { let power = product_poly (replicate factors base.now.terms) in
        MatchResult result (λ p. power ≡ Ok p.terms) (Explains power) }
{
    let mut power = base.copy()?;
    for _ in 1..factors {
        power = power.product(base)?;
    }
    Ok(power)
}
