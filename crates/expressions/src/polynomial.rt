//! The polynomial of an expression, or the first fault of its arithmetic.
ghost use Rattle.std.specs.Prelude.{◌≡◌, ◌<◌, [], ◌∷◌, pos, map, MatchResult, Ok, Err, IfOk, IfErr, IfSome, IsTrue, OnOk};
ghost use Rattle.nc_polynomial.specs.Arithmetic.{multiple_result};
ghost use Rattle.nc_polynomial.specs.Faults.{Explains, IsMemory};
ghost use Rattle.nc_polynomial.specs.Shape.{IsCanonical};
ghost use Rattle.quiver.specs.Declarations.{quiver_of, identity_in, IsDeclared};
ghost use Rattle.abbreviations.specs.Names.{AreNames, are_names_of_term, are_names_of_primary, letter_of, object_of};
ghost use Rattle.expressions.specs.Begun.{product_begun, product_followed};
ghost use Rattle.expressions.specs.Polynomials.{letter_poly, marked_poly, product_poly, scaled_by, signed, sum_step, total, sum_poly};
ghost use Rattle.expressions.specs.Polynomials.{term_poly, factor_poly, primary_poly, equation_poly};

use crate::added::add;
use crate::powers::with_marks;
use abbreviations::{letter_of, object_of};
use coef_int::Overflow;
use lists::Listing;
use nc_polynomial::{Poly, PolyFault, RunningSum, WORD_LIMIT, negate_terms};
use quiver::{OBJECT_LIMIT, Quiver};
use statement_syntax::{Factor, Number, Primary, Sum, Term};
use std::alloc::{AllocError, Global};
use word_core::{Letter, Word};

// The greatest number of summands that are merged one after another.
const MERGED_LIMIT: usize = 8;

/// The left side of an equation minus the right side, or the first fault of the arithmetic: an inner expression comes
/// before the outer one and the left before the right; of a product or a sum all parts come first, and then its own
/// operations from the left.
pub fn equation_poly(
    alloc: Global,
    quiver: &Quiver,
    left: &Sum,
    right: &Sum,
) -> Result<Poly, PolyFault>
    requires left_names { AreNames quiver.now left.now }
    requires right_names { AreNames quiver.now right.now }
    ensures exact { MatchResult result (λ p. equation_poly quiver.now left.now right.now ≡ Ok p.terms)
        (Explains (equation_poly quiver.now left.now right.now)) }
{
    // A quiver is made of declarations, so the adjoints of its letters are letters.
    prove!(quiver.objects() <= OBJECT_LIMIT);
    let minuend = sum_poly(alloc, quiver, left)?;
    let subtrahend = sum_poly(alloc, quiver, right)?;
    add_summand(alloc, minuend, true, subtrahend)
}

#[cycle(polys)]
fn sum_poly(alloc: Global, quiver: &Quiver, sum: &Sum) -> Result<Poly, PolyFault>
    requires declared { IsDeclared quiver.now }
    requires names { AreNames quiver.now sum.now }
    ensures { MatchResult result (λ p. sum_poly quiver.now sum.now ≡ Ok p.terms) (Explains (sum_poly quiver.now sum.now)) }
{
    if sum.terms.len() > MERGED_LIMIT {
        return running_total(alloc, quiver, sum);
    }
    let mut summands = Vec::with_capacity(alloc, sum.terms.len())?;
    for term in sum.terms.as_slice() {
        let poly = term_poly(alloc, quiver, term)?;
        summands.push((term.negative, poly))?;
    }
    merged_total(alloc, summands)
}

// The first summand, and then the others added or subtracted from the left. They are merged, so that the first is taken
// whole.
fn merged_total(alloc: Global, summands: Vec<(bool, Poly)>) -> Result<Poly, PolyFault>
    ensures { MatchResult result (λ p. total (map (λ s. (s.0, s.1.terms)) summands.items) ≡ Ok p.terms)
        (Explains (total (map (λ s. (s.0, s.1.terms)) summands.items))) }
{
    let mut rest = summands.into_iter();
    let Some((negative, first)) = rest.next() else {
        return Ok(Poly::zero(alloc));
    };
    let mut sum = signed(alloc, negative, first)?;
    for (negative, poly) in rest {
        sum = add_summand(alloc, sum, negative, poly)?;
    }
    Ok(sum)
}

// The terms of a sum added up from the left. Each is moved into the sum so far by a look-up, and then dropped. A fault of
// a later term comes before a fault of the sum so far.
#[cycle(polys)]
fn running_total(alloc: Global, quiver: &Quiver, sum: &Sum) -> Result<Poly, PolyFault>
    requires declared { IsDeclared quiver.now }
    requires names { AreNames quiver.now sum.now }
    ensures { MatchResult result (λ p. sum_poly quiver.now sum.now ≡ Ok p.terms) (Explains (sum_poly quiver.now sum.now)) }
{
    let mut so_far = Ok(RunningSum::new(alloc));
    for term in sum.terms.as_slice() {
        let poly = term_poly(alloc, quiver, term)?;
        so_far = with_summand(alloc, so_far, term.negative, poly);
    }
    Ok(so_far?.into_poly(alloc)?)
}

// The sum so far plus or minus a summand, or the fault so far, which is kept. Both are consumed.
fn with_summand(
    alloc: Global,
    so_far: Result<RunningSum, PolyFault>,
    negative: bool,
    poly: Poly,
) -> Result<RunningSum, PolyFault>
    requires { IfOk so_far IsCanonical }
    ensures added { IfOk so_far (λ sum. let next = sum_step sum (negative, poly.terms) in
        MatchResult result (λ p. next ≡ Ok p) (Explains next)) }
    ensures stays { IfErr so_far (λ fault. result ≡ Err fault) }
    ensures canonical { IfOk result IsCanonical }
{
    let mut sum = so_far?;
    let summand = signed(alloc, negative, poly)?;
    sum.add(summand)?;
    Ok(sum)
}

// The summand, negated where it is subtracted.
fn signed(alloc: Global, negative: bool, poly: Poly) -> Result<Poly, AllocError>
    ensures { IfOk result (λ p. p.terms ≡ signed (negative, poly.terms)) }
{
    if !negative {
        return Ok(poly);
    }
    let terms = negate_terms(alloc, poly.terms)?;
    Ok(Poly { terms })
}

// The sum so far plus or minus a summand. Both are consumed.
fn add_summand(alloc: Global, sum: Poly, negative: bool, poly: Poly) -> Result<Poly, PolyFault>
    ensures { MatchResult result (λ p. sum_step sum.terms (negative, poly.terms) ≡ Ok p.terms) (Explains (sum_step sum.terms (negative, poly.terms))) }
{
    let summand = signed(alloc, negative, poly)?;
    add(alloc, sum, summand)
}

#[cycle(polys)]
fn term_poly(alloc: Global, quiver: &Quiver, term: &Term) -> Result<Poly, PolyFault>
    requires declared { IsDeclared quiver.now }
    requires names { IsTrue (are_names_of_term quiver.now term.now) }
    ensures { MatchResult result (λ p. term_poly quiver.now term.now ≡ Ok p.terms) (Explains (term_poly quiver.now term.now)) }
{
    let factors = term.factors.as_slice();
    if let [factor] = factors {
        let poly = factor_poly(alloc, quiver, factor)?;
        return scaled_by(poly, &term.literal);
    }
    let mut polys = Vec::with_capacity(alloc, factors.len())?;
    for factor in factors {
        polys.push(factor_poly(alloc, quiver, factor)?)?;
    }
    let product = product(alloc, polys)?;
    scaled_by(product, &term.literal)
}

// The product from the left.
fn product(alloc: Global, polys: Vec<Poly>) -> Result<Poly, PolyFault>
    ensures { MatchResult result (λ p. product_poly (map (λ f. f.terms) polys.items) ≡ Ok p.terms) (Explains (product_poly (map (λ f. f.terms) polys.items))) }
{
    let mut factors = polys.into_iter();
    let Some(first) = factors.next() else {
        return Ok(Poly::zero(alloc));
    };
    let mut begun = Begun {
        product: first,
        word: Word::new(alloc),
    };
    for next in factors {
        follow(alloc, &mut begun, &next)?;
    }
    multiply(alloc, &mut begun)?;
    Ok(begun.product)
}

// A product whose last factors are letters: their word isn't multiplied in yet, so that a run of
// letters moves what is before it once.
#[derive(Drop)]
struct Begun {
    product: Poly,
    word: Word,
}

// The product with one more factor.
fn follow(alloc: Global, begun: &mut Begun, next: &Poly) -> Result<(), PolyFault>
    ensures { MatchResult result (λ _. product_begun begun.new ≡ product_followed begun.old next.now.terms)
        (Explains (product_followed begun.old next.now.terms)) }
{
    if let Some(word) = word_in(next) {
        if begun.word.len().saturating_add(word.len()) <= WORD_LIMIT {
            begun.word = begun.word.concat(word)?;
            return Ok(());
        }
    }
    multiply(alloc, begun)?;
    begun.product = begun.product.product(next)?;
    Ok(())
}

// The word that the polynomial is, where it is one.
fn word_in(poly: &Poly) -> Option<&Word>
    ensures { IfSome result (λ w. poly.now.terms ≡ (pos 1, w.now) ∷ []) }
{
    match poly.terms.as_slice() {
        [(1, word)] => Some(word),
        _ => None,
    }
}

// Multiplies the word into the product, and leaves none.
fn multiply(alloc: Global, begun: &mut Begun) -> Result<(), PolyFault>
    ensures product { MatchResult result (λ _. product_begun begun.old ≡ Ok begun.new.product.terms) (Explains (product_begun begun.old)) }
    ensures word { OnOk result (begun.new.word ≡ []) }
{
    if begun.word.len() > 0 {
        let nothing = Word::new(alloc);
        begun.product = begun.product.left_right(&nothing, &begun.word)?;
        begun.word = nothing;
    }
    Ok(())
}

// The multiple by a literal, where there is one.
fn scaled_by(poly: Poly, literal: &Option<Number>) -> Result<Poly, PolyFault>
    ensures { MatchResult result (λ p. scaled_by literal.now poly.terms ≡ Ok p.terms) (Explains (scaled_by literal.now poly.terms)) }
{
    match literal {
        None => Ok(poly),
        Some(number) => scale(poly, number.value),
    }
}

// The multiple by a number. The least number is no coefficient, and so is none of its products but with zero.
fn scale(poly: Poly, by: i128) -> Result<Poly, PolyFault>
    ensures { MatchResult result (λ p. multiple_result by poly.terms ≡ Ok p.terms) (Explains (multiple_result by poly.terms)) }
{
    if by != i128::MIN {
        return poly.scale(by);
    }
    if poly.terms() == 0 {
        return Ok(poly);
    }
    Err(PolyFault::Overflow(Overflow {
        left: by,
        right: poly.term(0).0,
        product: true,
    }))
}

#[cycle(polys)]
fn factor_poly(alloc: Global, quiver: &Quiver, factor: &Factor) -> Result<Poly, PolyFault>
    requires declared { IsDeclared quiver.now }
    requires names { IsTrue (are_names_of_primary quiver.now factor.now.primary) }
    ensures { MatchResult result (λ p. factor_poly quiver.now factor.now ≡ Ok p.terms) (Explains (factor_poly quiver.now factor.now)) }
{
    let poly = primary_poly(alloc, quiver, &factor.primary)?;
    with_marks(alloc, quiver, factor.marks.as_slice(), poly)
}

#[cycle(polys)]
fn primary_poly(alloc: Global, quiver: &Quiver, primary: &Primary) -> Result<Poly, PolyFault>
    requires declared { IsDeclared quiver.now }
    requires names { IsTrue (are_names_of_primary quiver.now primary.now) }
    ensures { MatchResult result (λ p. primary_poly quiver.now primary.now ≡ Ok p.terms) (Explains (primary_poly quiver.now primary.now)) }
{
    match primary {
        Primary::Letter(name) => letter_poly(alloc, letter_of(quiver, name)),
        Primary::Identity(name) => {
            let object = object_of(quiver, name);
            letter_poly(alloc, quiver.identity_of(object))
        }
        Primary::Bracket(sum) => sum_poly(alloc, quiver, sum),
    }
}

fn letter_poly(alloc: Global, letter: Letter) -> Result<Poly, PolyFault>
    ensures ok { IfOk result (λ p. p.terms ≡ letter_poly letter.0) }
    ensures err { IfErr result IsMemory }
{
    let mut word = Word::with_room(alloc, 1)?;
    word.push(letter)?;
    let mut terms = Listing::with_room(alloc, 1)?;
    terms.push((1, word))?;
    Ok(Poly { terms })
}
