//! Lists of terms of any size, most of which are consumed, so that no word is copied.
ghost use Rattle.std.specs.Prelude.{◌≡◌, ◌+◌, ◌<◌, [], ◌∷◌, length, MatchResult, MatchOption, IfSome, IfOk, Ok};
ghost use Rattle.std.specs.List.{All};
ghost use Rattle.coef_int.specs.Range.{IsCoefficient};
ghost use Rattle.nc_polynomial.specs.Terms.{scaled, products, multiplied, multiplications, shifted, negated, aligned, added, sums};
ghost use Rattle.nc_polynomial.specs.Faults.{checked, Explains};
ghost use Rattle.nc_polynomial.specs.Sides.{side_of};

use crate::PolyFault;
use crate::push::{push_between, push_copy, push_nonzero};
use lists::Listing;
use std::alloc::{AllocError, Global};
use std::cmp::Ordering;
use std::collections::VecDeque;
use word_core::Word;

/// The terms times a number, which is the left operand of each product. `Overflow` is the first product
/// that is no coefficient.
pub fn scale_terms(
    alloc: Global,
    by: i128,
    terms: &[(i128, Word)],
) -> Result<Listing<(i128, Word)>, PolyFault>
    requires factor_in { IsCoefficient by }
    requires in_range { All (λ t. IsCoefficient t.0) terms.now }
    ensures in_range { IfOk result (All (λ t. IsCoefficient t.0)) }
    ensures exact { MatchResult result (λ v. checked (products by terms.now) (scaled by terms.now) ≡ Ok v)
        (Explains (checked (products by terms.now) (scaled by terms.now))) }
{
    let mut scaled = Listing::with_room(alloc, terms.len())?;
    for term in terms {
        let product = coef_int::times(by, term.0)?;
        push_copy(&mut scaled, product, &term.1)?;
    }
    Ok(scaled)
}

/// The terms times a number, which is the right operand of each product. `Overflow` is the first product
/// that is no coefficient.
pub fn multiply_terms(
    alloc: Global,
    terms: Listing<(i128, Word)>,
    by: i128,
) -> Result<Listing<(i128, Word)>, PolyFault>
    requires factor_in { IsCoefficient by }
    requires in_range { All (λ t. IsCoefficient t.0) terms }
    ensures in_range { IfOk result (All (λ t. IsCoefficient t.0)) }
    ensures exact { MatchResult result (λ v. checked (multiplications terms by) (multiplied terms by) ≡ Ok v)
        (Explains (checked (multiplications terms by) (multiplied terms by))) }
{
    let mut multiplied = Listing::with_room(alloc, terms.len())?;
    for (coefficient, word) in terms.into_vec() {
        let product = coef_int::times(coefficient, by)?;
        push_nonzero(&mut multiplied, product, word)?;
    }
    Ok(multiplied)
}

/// The terms times a number, which is the left operand of each product, with the same words on the left
/// and on the right of each word. `Overflow` is the first product that is no coefficient.
pub fn shift_terms(
    alloc: Global,
    by: i128,
    left: &Word,
    terms: &[(i128, Word)],
    right: &Word,
) -> Result<Listing<(i128, Word)>, PolyFault>
    requires factor_in { IsCoefficient by }
    requires in_range { All (λ t. IsCoefficient t.0) terms.now }
    ensures in_range { IfOk result (All (λ t. IsCoefficient t.0)) }
    ensures exact { MatchResult result (λ v. checked (products by terms.now) (shifted by left.now terms.now right.now) ≡ Ok v)
        (Explains (checked (products by terms.now) (shifted by left.now terms.now right.now))) }
{
    let mut shifted = Listing::with_room(alloc, terms.len())?;
    for term in terms {
        let product = coef_int::times(by, term.0)?;
        push_between(&mut shifted, product, left, &term.1, right)?;
    }
    Ok(shifted)
}

/// The terms with the sign of each coefficient changed. It takes no memory.
pub fn negate_terms(
    _alloc: Global,
    terms: Listing<(i128, Word)>,
) -> Result<Listing<(i128, Word)>, AllocError>
    requires { All (λ t. IsCoefficient t.0) terms }
    ensures { IfOk result (λ v. v ≡ negated terms) }
{
    let mut turned = terms.into_vec();
    for term in turned.iter_mut() {
        term.0 = coef_int::negate(term.0);
    }
    Ok(Listing::from_vec(turned))
}

// The list that has the next word, `Equal` for both, and None where both are at their end.
fn next_side(left: &VecDeque<(i128, Word)>, right: &VecDeque<(i128, Word)>) -> Option<Ordering>
    ensures { result ≡ side_of left.now.items right.now.items }
{
    match (left.front(), right.front()) {
        (None, None) => None,
        (Some(_), None) => Some(Ordering::Greater),
        (None, Some(_)) => Some(Ordering::Less),
        (Some(x), Some(y)) => Some(x.1.cmp_degree(&y.1)),
    }
}

// The next word with its two coefficients, removed from the fronts.
#[tactic(auto, using(crate::proofs::Rests::coefficients_rest))]
fn next_pair(
    left: &mut VecDeque<(i128, Word)>,
    right: &mut VecDeque<(i128, Word)>,
) -> Option<(i128, i128, Word)>
    requires left_in { All (λ t. IsCoefficient t.0) left.old.items }
    requires right_in { All (λ t. IsCoefficient t.0) right.old.items }
    ensures next { MatchOption result (aligned left.old.items right.old.items ≡ [])
        (λ a. aligned left.old.items right.old.items ≡ a ∷ aligned left.new.items right.new.items) }
    ensures progress { IfSome result (λ _. length left.new.items + length right.new.items < length left.old.items + length right.old.items) }
    ensures left_coefficients { All (λ t. IsCoefficient t.0) left.new.items }
    ensures right_coefficients { All (λ t. IsCoefficient t.0) right.new.items }
    ensures coefficients { IfSome result (λ a. IsCoefficient a.0 × IsCoefficient a.1) }
{
    match next_side(left, right)? {
        Ordering::Less => {
            let (coefficient, word) = right.pop_front()?;
            Some((0, coefficient, word))
        }
        Ordering::Equal => {
            let (x, word) = left.pop_front()?;
            let (y, _) = right.pop_front()?;
            Some((x, y, word))
        }
        Ordering::Greater => {
            let (coefficient, word) = left.pop_front()?;
            Some((coefficient, 0, word))
        }
    }
}

/// The sum of two descending lists. `Overflow` is the first sum that is no coefficient, with that
/// of `p` as its left operand.
pub fn merge_terms(
    alloc: Global,
    p: Listing<(i128, Word)>,
    q: Listing<(i128, Word)>,
) -> Result<Listing<(i128, Word)>, PolyFault>
    requires left_in { All (λ t. IsCoefficient t.0) p }
    requires right_in { All (λ t. IsCoefficient t.0) q }
    ensures in_range { IfOk result (All (λ t. IsCoefficient t.0)) }
    ensures exact { MatchResult result (λ v. checked (sums p q) (added p q) ≡ Ok v) (Explains (checked (sums p q) (added p q))) }
{
    let mut sum = Listing::with_room(alloc, p.len().saturating_add(q.len()))?;
    let mut left = VecDeque::from_vec(p.into_vec());
    let mut right = VecDeque::from_vec(q.into_vec());
    while let Some((x, y, word)) = next_pair(&mut left, &mut right) {
        let total = coef_int::plus(x, y)?;
        push_nonzero(&mut sum, total, word)?;
    }
    Ok(sum)
}
