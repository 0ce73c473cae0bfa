//! Polynomials between words, and products of polynomials.
ghost use Rattle.std.specs.Prelude.{◌≡◌, ◌≢◌, ◌+◌, ◌≤◌, ◌*ℤ◌, pos, List, [], ◌∷◌, ◌++◌, length, IfOk, OnOk, IfErr, MatchResult, Ok};
ghost use Rattle.std.specs.List.{All};
ghost use Rattle.coef_int.specs.Range.{IsCoefficient};
ghost use Rattle.definitions.specs.Poly.{Term, SamePolynomial, poly_between, poly_product};
ghost use Rattle.nc_polynomial.specs.Arithmetic.{sum_result};
ghost use Rattle.nc_polynomial.specs.Faults.{Explains};
ghost use Rattle.nc_polynomial.specs.Limits.{word_limit};
ghost use Rattle.nc_polynomial.specs.Product.{moved_result, product_step, product_result};
ghost use Rattle.nc_polynomial.specs.Shape.{IsShaped};

use crate::size::{WORD_LIMIT, check_moved};
use crate::{Poly, PolyFault, RunningSum, SizeFault, shift_terms};
use lists::Listing;
use std::alloc::{AllocError, Global};
use word_core::Word;

impl Poly {
    /// The polynomial with the same words on the left and on the right of each word. `Size` is returned exactly
    /// where one of them then has more than 500 letters.
    pub fn left_right(&self, left: &Word, right: &Word) -> Result<Poly, PolyFault>
        ensures exact { MatchResult result (λ r. moved_result left.now self.now.terms right.now ≡ Ok r.terms)
            (Explains (moved_result left.now self.now.terms right.now)) }
        ensures moved { IfOk result (λ r. r.terms ≡ poly_between left.now self.now.terms right.now) }
    {
        let terms = self.terms.as_slice();
        check_moved(left, terms, right)?;
        let moved = move_terms(self.terms.allocator(), left, terms, right)?;
        Ok(Poly { terms: moved })
    }

    /// The product, with each word of this polynomial on the left of each word of `right`. The sum starts
    /// with zero. Each term of this polynomial, in descending order, multiplies `right` by its word and adds
    /// that times its coefficient, as `left_right` and `combine` do; their first fault is that of the product.
    pub fn product(&self, right: &Poly) -> Result<Poly, PolyFault>
        ensures exact { MatchResult result (λ r. product_result self.now.terms right.now.terms ≡ Ok r.terms)
            (Explains (product_result self.now.terms right.now.terms)) }
        ensures product { IfOk result (λ r. SamePolynomial r.terms (poly_product self.now.terms right.now.terms)) }
    {
        multiplied_out(self, right)
    }
}

// The product, without a sum where one factor is a single term.
fn multiplied_out(left: &Poly, right: &Poly) -> Result<Poly, PolyFault>
    ensures { MatchResult result (λ r. product_result left.now.terms right.now.terms ≡ Ok r.terms) (Explains (product_result left.now.terms right.now.terms)) }
{
    match (left.terms.as_slice(), right.terms.as_slice()) {
        ([term], _) => from_left(term, right),
        (_, [term]) => from_right(left, term),
        _ => from_both(left, right),
    }
}

// One term times a polynomial, in one pass.
fn from_left(term: &(i128, Word), right: &Poly) -> Result<Poly, PolyFault>
    requires { IsCoefficient term.now.0 }
    ensures { MatchResult result (λ r. product_result (term.now ∷ []) right.now.terms ≡ Ok r.terms)
        (Explains (product_result (term.now ∷ []) right.now.terms)) }
{
    let multiple = moved_multiple(term.0, &term.1, right)?;
    Poly::from_descending(multiple)
}

// A polynomial times one term, in one pass: the words stay in order, so that each step appends its term.
fn from_right(left: &Poly, term: &(i128, Word)) -> Result<Poly, PolyFault>
    requires coefficient { IsCoefficient term.now.0 }
    requires nonzero { term.now.0 ≢ pos 0 }
    ensures { MatchResult result (λ r. product_result left.now.terms (term.now ∷ []) ≡ Ok r.terms) (Explains (product_result left.now.terms (term.now ∷ []))) }
{
    let mut terms = Listing::new(left.terms.allocator());
    for factor in left.terms.as_slice() {
        let product = behind(factor, term)?;
        terms.push(product)?;
    }
    Ok(Poly { terms })
}

// The product of two terms, as a step of a product makes it.
fn behind(left: &(i128, Word), right: &(i128, Word)) -> Result<(i128, Word), PolyFault>
    requires left_in { IsCoefficient left.now.0 }
    requires right_in { IsCoefficient right.now.0 }
    requires left_nonzero { left.now.0 ≢ pos 0 }
    requires right_nonzero { right.now.0 ≢ pos 0 }
    ensures exact { IfOk result (λ t. t ≡ (left.now.0 *ℤ right.now.0, left.now.1 ++ right.now.1)) }
    ensures fits { OnOk result (IsCoefficient (left.now.0 *ℤ right.now.0)) }
    ensures short { OnOk result (length left.now.1 + length right.now.1 ≤ word_limit) }
    ensures fault { IfErr result (λ e. (sum : List Term) → IsShaped sum → Explains (product_step sum left.now (right.now ∷ [])) e) }
{
    if left.1.len().saturating_add(right.1.len()) > WORD_LIMIT {
        return Err(PolyFault::Size(SizeFault { letters: true }));
    }
    let coefficient = coef_int::times(left.0, right.0)?;
    Ok((coefficient, left.1.concat(&right.1)?))
}

// The product of two polynomials of several terms.
fn from_both(left: &Poly, right: &Poly) -> Result<Poly, PolyFault>
    ensures { MatchResult result (λ r. product_result left.now.terms right.now.terms ≡ Ok r.terms) (Explains (product_result left.now.terms right.now.terms)) }
{
    let alloc = left.terms.allocator();
    let mut sum = RunningSum::new(alloc);
    for term in left.terms.as_slice() {
        sum.add_moved(term.0, &term.1, right)?;
    }
    Ok(sum.into_poly(alloc)?)
}

// A coefficient times a polynomial with a word on its left: what a step of a product adds to the sum so far.
pub(crate) fn moved_multiple(
    coefficient: i128,
    word: &Word,
    poly: &Poly,
) -> Result<Listing<(i128, Word)>, PolyFault>
    requires { IsCoefficient coefficient }
    ensures shaped { IfOk result IsShaped }
    ensures short { IfOk result (All (λ t. length t.1 ≤ word_limit)) }
    ensures step { IfOk result (λ v. (sum : List Term) → IsShaped sum → product_step sum (coefficient, word.now) poly.now.terms ≡ sum_result sum v) }
    ensures fault { IfErr result (λ e. (sum : List Term) → IsShaped sum → Explains (product_step sum (coefficient, word.now) poly.now.terms) e) }
{
    let alloc = poly.terms.allocator();
    let terms = poly.terms.as_slice();
    let empty = Word::new(alloc);
    check_moved(word, terms, &empty)?;
    shift_terms(alloc, coefficient, word, terms, &empty)
}

// The terms with the same words on the left and on the right of each word.
fn move_terms(
    alloc: Global,
    left: &Word,
    terms: &[(i128, Word)],
    right: &Word,
) -> Result<Listing<(i128, Word)>, AllocError>
    ensures { IfOk result (λ v. v ≡ poly_between left.now terms.now right.now) }
{
    let mut moved = Listing::new(alloc);
    for term in terms {
        moved.push((term.0, term.1.between(left, right)?))?;
    }
    Ok(moved)
}
