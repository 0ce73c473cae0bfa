//! Rules: polynomials with their leading terms.

ghost use Rattle.std.specs.Prelude.{◌≡◌, ◌<◌, ◌≤◌, length, slice_get, get_or, Some};
ghost use Rattle.std.specs.List.{All};
ghost use Rattle.word_core.specs.Letters.{IsOver};
ghost use Rattle.definitions.specs.Poly.{Term};
ghost use Rattle.rule_reduce.specs.Leading.{greater_term, leading_term};
ghost use Rattle.rule_reduce.specs.RuleLists.{rule_at};

use nc_polynomial::Poly;
use std::cmp::Ordering;
use word_core::Word;
use word_orders::WordOrder;

/// A polynomial with its leading term in an order of words.
#[derive(Drop)]
pub struct Rule {
    /// The coefficient of the leading word.
    pub leading: i128,
    /// The leading word, which is the greatest one.
    pub lead: Word,
    /// The polynomial.
    pub poly: Poly,
}

/// The rule with this number, which there is.
pub fn rule_with(rules: &[Rule], number: u32) -> &Rule
    requires first { 0 < number }
    requires last { number ≤ length rules.now }
    ensures { rule_at rules.now number ≡ Some result.now }
{
    &rules[number as usize - 1]
}

/// The place of the leading term.
pub fn leading_place<O: WordOrder>(order: &O, terms: &[(i128, Word)]) -> usize
    requires nonzero { 0 < length terms.now }
    requires over { All (λ t. IsOver (O.letters order.now) t.1) terms.now }
    ensures in_range { result < length terms.now }
    ensures leading { leading_term (O.compare order.now) terms.now ≡ slice_get terms.now result }
{
    let mut best = 0;
    for place in 1..terms.len() {
        best = greater_place(order, terms, best, place);
    }
    best
}

/// The place of the leading term of a polynomial, which in the canonical order is the first one.
pub fn lead_place<O: WordOrder>(order: &O, poly: &Poly) -> usize
    requires nonzero { 0 < length poly.now.terms }
    requires over { All (λ t. IsOver (O.letters order.now) t.1) poly.now.terms }
    ensures in_range { result < length poly.now.terms }
    ensures leading { leading_term (O.compare order.now) poly.now.terms ≡ slice_get poly.now.terms result }
{
    if order.is_canonical() {
        return 0;
    }
    leading_place(order, poly.terms.as_slice())
}

// Of two places the one with the greater word.
fn greater_place<O: WordOrder>(
    order: &O,
    terms: &[(i128, Word)],
    best: usize,
    place: usize,
) -> usize
    requires best_in { best < length terms.now }
    requires place_in { place < length terms.now }
    requires over { All (λ t. IsOver (O.letters order.now) t.1) terms.now }
    ensures in_range { result < length terms.now }
    ensures greater { (d : Term) → get_or terms.now result d ≡ greater_term (O.compare order.now) (get_or terms.now best d) (get_or terms.now place d) }
{
    match order.cmp(&terms[place].1, &terms[best].1) {
        Ordering::Greater => place,
        _ => best,
    }
}
