//! Whether a basis is closed.
ghost use Rattle.std.specs.Prelude.{◌≡◌, ◌↔◌, length, IsTrue, IfOk, IfErr, OnOk};
ghost use Rattle.word_orders.specs.Specified.{made_cmp};
ghost use Rattle.closed_checker.specs.Rests.{order_of, rules_of};
ghost use Rattle.closed_checker.specs.Closed.{IsReadableBasis, NamesClaim, HasRules, IsClosedBasis, Refuses, IsMemory};
ghost use Rattle.closed_checker.specs.Laws.{ClosedMeans};
ghost use Rattle.closed_checker.specs.Working.{AreRulesOf, GeneratorsPass, AmbiguitiesPass};

use crate::list::all_ambiguities;
use crate::rest::rest_of;
use crate::rules::make_rules;
use crate::{ClosedRefusal, Part};
use adjoint_rules::{Basis, Problem};
use rule_reduce::Rules;
use std::alloc::Global;
use word_orders::AnyOrder;

/// Whether the basis is closed for its claim: each of its polynomials is a rule in the order of the problem, and the rules
/// leave nothing of each generator and of the S-polynomial of each ambiguity, and of the claim the rest that the basis
/// says, which isn't zero. Then its rules are handed out. Each refusal comes exactly where its test is the first that
/// fails: the claim's number, the rules, the generators, the ambiguities by their overlap words, and the claim.
pub fn confirm_closed(
    alloc: Global,
    problem: &Problem,
    basis: &Basis,
) -> Result<Rules<AnyOrder>, ClosedRefusal>
    requires { IsReadableBasis problem.now.parts.quiver basis.now }
    ensures closed { OnOk result (IsClosedBasis problem.now basis.now) }
    ensures means { OnOk result (ClosedMeans problem.now basis.now) }
    ensures rules { IfOk result (λ r. r.rules ≡ rules_of problem.now basis.now) }
    ensures order { IfOk result (λ r. made_cmp r.order ≡ order_of problem.now) }
    ensures refused { IfErr result (Refuses problem.now basis.now) }
    ensures complete { IsClosedBasis problem.now basis.now → IfErr result IsMemory }
{
    if !names_claim(problem, basis) {
        return Err(ClosedRefusal::NoSuchClaim);
    }
    let rules = make_rules(alloc, problem, basis)?;
    reduce_generators(problem, basis, &rules)?;
    reduce_ambiguities(alloc, problem, basis, &rules)?;
    compare_claim(problem, basis, &rules)?;
    Ok(rules)
}

// Whether the basis names one of the claims.
fn names_claim(problem: &Problem, basis: &Basis) -> bool
    ensures { IsTrue result ↔ NamesClaim problem.now basis.now }
{
    basis.claim > 0 && basis.claim as usize <= problem.parts.claims.len()
}

// Whether nothing is left of each generator.
fn reduce_generators(
    problem: &Problem,
    basis: &Basis,
    rules: &Rules<AnyOrder>,
) -> Result<(), ClosedRefusal>
    requires has_rules { HasRules problem.now basis.now }
    requires rules { AreRulesOf problem.now basis.now rules.now.order rules.now.rules }
    ensures passed { OnOk result (GeneratorsPass problem.now basis.now (length problem.now.generators)) }
    ensures refused { IfErr result (Refuses problem.now basis.now) }
{
    for place in 0..problem.generators.len() {
        let generator = place as u32 + 1;
        let rest = rest_of(problem, basis, rules, Part::Generator(generator))?;
        if rest.terms() > 0 {
            return Err(ClosedRefusal::GeneratorLeft { generator, rest });
        }
    }
    Ok(())
}

// Whether nothing is left of the S-polynomial of each ambiguity.
fn reduce_ambiguities(
    alloc: Global,
    problem: &Problem,
    basis: &Basis,
    rules: &Rules<AnyOrder>,
) -> Result<(), ClosedRefusal>
    requires has_rules { HasRules problem.now basis.now }
    requires rules { AreRulesOf problem.now basis.now rules.now.order rules.now.rules }
    requires generators { GeneratorsPass problem.now basis.now (length problem.now.generators) }
    ensures passed { OnOk result (AmbiguitiesPass problem.now basis.now) }
    ensures refused { IfErr result (Refuses problem.now basis.now) }
{
    let found = all_ambiguities(alloc, rules)?;
    for which in found.as_slice() {
        let ambiguity = *which;
        let rest = rest_of(problem, basis, rules, Part::Ambiguity(ambiguity))?;
        if rest.terms() > 0 {
            return Err(ClosedRefusal::AmbiguityLeft { ambiguity, rest });
        }
    }
    Ok(())
}

// Whether the rest of the claim is the one that the basis says, and isn't zero.
fn compare_claim(
    problem: &Problem,
    basis: &Basis,
    rules: &Rules<AnyOrder>,
) -> Result<(), ClosedRefusal>
    requires has_rules { HasRules problem.now basis.now }
    requires rules { AreRulesOf problem.now basis.now rules.now.order rules.now.rules }
    requires generators { GeneratorsPass problem.now basis.now (length problem.now.generators) }
    requires ambiguities { AmbiguitiesPass problem.now basis.now }
    ensures closed { OnOk result (IsClosedBasis problem.now basis.now) }
    ensures refused { IfErr result (Refuses problem.now basis.now) }
{
    let got = rest_of(problem, basis, rules, Part::Claim)?;
    if !got.same(&basis.rest) {
        return Err(ClosedRefusal::OtherRest { got });
    }
    if got.terms() == 0 {
        return Err(ClosedRefusal::ZeroRest);
    }
    Ok(())
}
