//! The rules of a basis.
ghost use Rattle.std.specs.Prelude.{◌≡◌, ◌≤◌, ◌<◌, ◌+◌, ◌^◌, ◌↔◌, length, IsTrue, IfOk, IfErr, OnOk};
ghost use Rattle.std.specs.List.{All};
ghost use Rattle.word_core.specs.Letters.{IsOver};
ghost use Rattle.quiver.specs.Declarations.{letter_count};
ghost use Rattle.word_orders.specs.Specified.{made_cmp, letters_of};
ghost use Rattle.closed_checker.specs.Rests.{order_of, MayBeRule};
ghost use Rattle.closed_checker.specs.Closed.{IsReadableBasis, NamesClaim, HasRules, Refuses};
ghost use Rattle.closed_checker.specs.Working.{AreRulesOf};

use crate::ClosedRefusal;
use adjoint_rules::{Basis, Problem};
use nc_polynomial::Poly;
use rule_reduce::Rules;
use std::alloc::{AllocError, Global};
use word_orders::{AnyOrder, OrderFault};

// The order of words that the problem asks for.
fn make_order(alloc: Global, problem: &Problem) -> Result<AnyOrder, AllocError>
    ensures compares { IfOk result (λ o. made_cmp o ≡ order_of problem.now) }
    ensures letters { IfOk result (λ o. letter_count problem.now.parts.quiver ≤ letters_of o) }
{
    let letters = problem.parts.quiver.letters();
    match AnyOrder::new(alloc, &problem.parts.order, letters) {
        Ok(order) => Ok(order),
        Err(OrderFault::Memory(failed)) => Err(failed),
        // The order of a problem is sound.
        Err(_) => unreachable!(),
    }
}

// Whether the polynomial may be a rule.
fn may_be_rule(rules: &Rules<AnyOrder>, poly: &Poly) -> bool
    requires over { All (λ t. IsOver (letters_of rules.now.order) t.1) poly.now.terms }
    requires few { length rules.now.rules + 1 < 2 ^ 32 }
    ensures { IsTrue result ↔ MayBeRule (made_cmp rules.now.order) poly.now }
{
    rules.may_push(poly)
}

// The rules of the basis, or the first of its polynomials that is none.
pub(crate) fn make_rules(
    alloc: Global,
    problem: &Problem,
    basis: &Basis,
) -> Result<Rules<AnyOrder>, ClosedRefusal>
    requires readable { IsReadableBasis problem.now.parts.quiver basis.now }
    requires claim { NamesClaim problem.now basis.now }
    ensures has_rules { OnOk result (HasRules problem.now basis.now) }
    ensures rules { IfOk result (λ r. AreRulesOf problem.now basis.now r.order r.rules) }
    ensures refused { IfErr result (Refuses problem.now basis.now) }
{
    let mut rules = Rules::new(alloc, make_order(alloc, problem)?)?;
    let mut number = 0u32;
    for poly in basis.rules.as_slice() {
        number += 1;
        if !may_be_rule(&rules, poly) {
            return Err(ClosedRefusal::NotRule { rule: number });
        }
        rules.push(poly.copy()?)?;
    }
    Ok(rules)
}
