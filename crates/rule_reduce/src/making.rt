//! Rules that are made of polynomials, and which polynomials may become rules.

ghost use Rattle.std.specs.Prelude.{◌≡◌, ◌↔◌, ◌<◌, ◌<ℤ◌, pos, length, IfOk, IsSomeAnd, IsTrue, Some};
ghost use Rattle.std.specs.List.{All};
ghost use Rattle.word_core.specs.Letters.{IsOver};
ghost use Rattle.nc_polynomial.specs.Content.{IsContent};
ghost use Rattle.rule_reduce.specs.Leading.{leading_term};
ghost use Rattle.rule_reduce.specs.RuleLists.{IsRule, rule_from};

use crate::Rule;
use crate::rule::{lead_place, leading_place};
use nc_polynomial::Poly;
use std::alloc::AllocError;
use word_core::Word;
use word_orders::WordOrder;

// The rule of a polynomial.
pub(crate) fn make_rule<O: WordOrder>(order: &O, poly: Poly) -> Result<Rule, AllocError>
    requires positive { IsSomeAnd (leading_term (O.compare order.now) poly.terms) (λ t. pos 0 <ℤ t.0) }
    requires nonempty { All (λ t. 0 < length t.1) poly.terms }
    requires over { All (λ t. IsOver (O.letters order.now) t.1) poly.terms }
    ensures rule { IfOk result (IsRule (O.letters order.now) (O.compare order.now)) }
    ensures exact { IfOk result (λ g. rule_from (O.compare order.now) poly ≡ Some g) }
    ensures lead { IfOk result (λ g. 0 < length g.lead) }
{
    let place = lead_place(order, &poly);
    let (leading, lead) = poly.term(place);
    let lead = lead.copy()?;
    Ok(Rule {
        leading,
        lead,
        poly,
    })
}

// Whether the coefficients have no common divisor above 1, of which zero has none.
pub(crate) fn is_primitive(poly: &Poly) -> bool
    ensures { IsTrue result ↔ IsContent poly.now.terms (pos 1) }
{
    poly.content() == 1
}

// Whether there is a leading term, and its coefficient is positive.
pub(crate) fn is_led_by_positive<O: WordOrder>(order: &O, terms: &[(i128, Word)]) -> bool
    requires { All (λ t. IsOver (O.letters order.now) t.1) terms.now }
    ensures { IsTrue result ↔ IsSomeAnd (leading_term (O.compare order.now) terms.now) (λ t. pos 0 <ℤ t.0) }
{
    if terms.is_empty() {
        return false;
    }
    terms[leading_place(order, terms)].0 > 0
}

// Whether no word is empty.
pub(crate) fn has_no_empty_word(terms: &[(i128, Word)]) -> bool
    ensures { IsTrue result ↔ All (λ t. 0 < length t.1) terms.now }
{
    terms.iter().all(|term| term.1.len() > 0)
}
