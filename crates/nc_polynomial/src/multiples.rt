//! Sums of multiples of lists that are borrowed: a word is copied only into the result.
ghost use Rattle.std.specs.Prelude.{◌≡◌, ◌≢◌, ◌<◌, ◌+◌, [], ◌∷◌, pos, length, MatchResult, MatchOption, IfOk, IfSome, Ok, Err};
ghost use Rattle.std.specs.List.{All};
ghost use Rattle.coef_int.specs.Range.{IsCoefficient};
ghost use Rattle.definitions.specs.Poly.{poly_multiple};
ghost use Rattle.nc_polynomial.specs.Shape.{IsShaped};
ghost use Rattle.nc_polynomial.specs.Terms.{scaled, products, aligned, added, sums};
ghost use Rattle.nc_polynomial.specs.Faults.{checked, Explains};
ghost use Rattle.nc_polynomial.specs.Sides.{side_of};

use crate::PolyFault;
use crate::push::push_copy;
use lists::Listing;
use std::alloc::Global;
use std::cmp::Ordering;
use word_core::Word;

// The terms whose multiples by the number are needed, where no product overflows: all, or none for zero.
pub(crate) fn kept_terms<'a>(
    by: i128,
    terms: &'a [(i128, Word)],
) -> Result<&'a [(i128, Word)], PolyFault>
    requires factor_in { IsCoefficient by }
    requires shaped { IsShaped terms.now }
    ensures in_range { IfOk result (λ kept. All (λ t. IsCoefficient t.0) (poly_multiple by kept.now)) }
    ensures exact { MatchResult result (λ kept. checked (products by terms.now) (scaled by terms.now) ≡ Ok (poly_multiple by kept.now))
        (λ e. checked (products by terms.now) (scaled by terms.now) ≡ Err e) }
{
    for term in terms {
        coef_int::times(by, term.0)?;
    }
    Ok(kept_by(by, terms))
}

// The terms, but none for the factor zero.
#[tactic(auto, using(crate::proofs::Kept::scaled_by_zero, crate::proofs::Kept::scaled_by_nonzero))]
fn kept_by<'a>(by: i128, terms: &'a [(i128, Word)]) -> &'a [(i128, Word)]
    requires { All (λ t. t.0 ≢ pos 0) terms.now }
    ensures { poly_multiple by result.now ≡ scaled by terms.now }
{
    if by == 0 { &terms[..0] } else { terms }
}

// The list that has the next word, `Equal` for both, and None where both are empty.
fn next_side(left: &[(i128, Word)], right: &[(i128, Word)]) -> Option<Ordering>
    ensures { result ≡ side_of left.now right.now }
{
    match (left.first(), right.first()) {
        (None, None) => None,
        (Some(_), None) => Some(Ordering::Greater),
        (None, Some(_)) => Some(Ordering::Less),
        (Some(x), Some(y)) => Some(x.1.cmp_degree(&y.1)),
    }
}

// The next word of two descending lists with both its coefficients, and the rests of the lists.
#[derive(Clone, Copy)]
struct Next<'a> {
    left: i128,
    right: i128,
    word: &'a Word,
    left_rest: &'a [(i128, Word)],
    right_rest: &'a [(i128, Word)],
}

fn next_word<'a>(left: &'a [(i128, Word)], right: &'a [(i128, Word)]) -> Option<Next<'a>>
    ensures next { MatchOption result (aligned left.now right.now ≡ [])
        (λ n. aligned left.now right.now ≡ (n.left, n.right, n.word.now) ∷ aligned n.left_rest.now n.right_rest.now) }
    ensures progress { IfSome result (λ n. length n.left_rest.now + length n.right_rest.now < length left.now + length right.now) }
{
    match next_side(left, right)? {
        Ordering::Less => {
            let (y, right_rest) = right.split_first()?;
            Some(Next {
                left: 0,
                right: y.0,
                word: &y.1,
                left_rest: left,
                right_rest,
            })
        }
        Ordering::Equal => {
            let (x, left_rest) = left.split_first()?;
            let (y, right_rest) = right.split_first()?;
            Some(Next {
                left: x.0,
                right: y.0,
                word: &x.1,
                left_rest,
                right_rest,
            })
        }
        Ordering::Greater => {
            let (x, left_rest) = left.split_first()?;
            Some(Next {
                left: x.0,
                right: 0,
                word: &x.1,
                left_rest,
                right_rest: right,
            })
        }
    }
}

// The sum of the multiples of two descending lists, by factors with which no product overflows. `Overflow` is
// the first sum that is no coefficient, with that of `p` as its left operand.
pub(crate) fn merge_multiples(
    alloc: Global,
    a: i128,
    p: &[(i128, Word)],
    b: i128,
    q: &[(i128, Word)],
) -> Result<Listing<(i128, Word)>, PolyFault>
    requires left_in { All (λ t. IsCoefficient t.0) (poly_multiple a p.now) }
    requires right_in { All (λ t. IsCoefficient t.0) (poly_multiple b q.now) }
    ensures { MatchResult result (λ v. checked (sums (poly_multiple a p.now) (poly_multiple b q.now))
        (added (poly_multiple a p.now) (poly_multiple b q.now)) ≡ Ok v)
        (Explains (checked (sums (poly_multiple a p.now) (poly_multiple b q.now)) (added (poly_multiple a p.now) (poly_multiple b q.now)))) }
{
    let mut sum = Listing::new(alloc);
    let mut left = p;
    let mut right = q;
    while let Some(next) = next_word(left, right) {
        let total = coef_int::plus(a * next.left, b * next.right)?;
        push_copy(&mut sum, total, next.word)?;
        left = next.left_rest;
        right = next.right_rest;
    }
    Ok(sum)
}
