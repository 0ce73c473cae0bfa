//! What the rules of a basis leave of a part of its check.
ghost use Rattle.std.specs.Prelude.{◌≡◌, IfOk, IfErr, Ok};
ghost use Rattle.std.specs.List.{All};
ghost use Rattle.word_core.specs.Letters.{IsOver};
ghost use Rattle.word_orders.specs.Specified.{made_cmp, letters_of};
ghost use Rattle.rule_reduce.specs.NormalForms.{halt_of};
ghost use Rattle.ambiguities.specs.Ambiguities.{IsAmbiguity};
ghost use Rattle.ambiguities.specs.SPolynomials.{s_polynomial_of};
ghost use Rattle.closed_checker.specs.Rests.{rest_by, rest_of};
ghost use Rattle.closed_checker.specs.Closed.{Reaches, Refuses};
ghost use Rattle.closed_checker.specs.Working.{AreRulesOf, IsAnswer, refusal_of};

use crate::limit::step_limit;
use crate::{ClosedRefusal, Part};
use adjoint_rules::{Basis, Problem};
use ambiguities::{Ambiguity, s_poly};
use cofactor_trace::Cause;
use nc_polynomial::{Poly, PolyFault};
use rule_reduce::{ReduceFault, Rules};
use word_orders::AnyOrder;

// A fault of polynomial arithmetic as that of a reduction.
fn halt(fault: PolyFault) -> ReduceFault
    ensures { result ≡ halt_of fault }
{
    match fault {
        PolyFault::Overflow(overflow) => ReduceFault::Overflow(overflow),
        PolyFault::Size(size) => ReduceFault::Size(size),
        PolyFault::Memory(failed) => ReduceFault::Memory(failed),
    }
}

// What is told of a fault in the part.
fn refuse(part: Part, fault: ReduceFault) -> ClosedRefusal
    ensures { result ≡ refusal_of part fault }
{
    let cause = match fault {
        ReduceFault::Steps { limit } => Cause::Steps { limit },
        ReduceFault::Overflow(overflow) => Cause::Overflow(overflow),
        ReduceFault::Size(size) => Cause::Size {
            letters: size.letters,
        },
        ReduceFault::Memory(failed) => return ClosedRefusal::Memory(failed),
    };
    ClosedRefusal::Stopped { part, cause }
}

// What the rules leave of a polynomial within the limit of steps.
fn reduce(rules: &Rules<AnyOrder>, poly: &Poly) -> Result<Poly, ReduceFault>
    requires { All (λ t. IsOver (letters_of rules.now.order) t.1) poly.now.terms }
    ensures { IsAnswer result (rest_by (made_cmp rules.now.order) rules.now.rules (Ok poly.now.terms)) }
{
    let remainder = rules.remainder(poly, step_limit())?;
    Ok(remainder.rest)
}

// What they leave of the S-polynomial of an ambiguity.
fn reduce_ambiguity(rules: &Rules<AnyOrder>, which: &Ambiguity) -> Result<Poly, ReduceFault>
    requires { IsAmbiguity rules.now.rules which.now }
    ensures { IsAnswer result (rest_by (made_cmp rules.now.order) rules.now.rules (s_polynomial_of rules.now.rules which.now)) }
{
    match s_poly(rules, which) {
        Ok(made) => reduce(rules, &made.poly),
        Err(fault) => Err(halt(fault)),
    }
}

// What they leave of the part.
fn reduce_part(
    problem: &Problem,
    basis: &Basis,
    rules: &Rules<AnyOrder>,
    part: Part,
) -> Result<Poly, ReduceFault>
    requires reached { Reaches problem.now basis.now part }
    requires rules { AreRulesOf problem.now basis.now rules.now.order rules.now.rules }
    ensures { IsAnswer result (rest_of problem.now basis.now part) }
{
    match part {
        Part::Generator(number) => reduce(rules, problem.generators.at(number as usize - 1)),
        Part::Ambiguity(which) => reduce_ambiguity(rules, &which),
        Part::Claim => reduce(rules, problem.parts.claims.at(basis.claim as usize - 1)),
    }
}

// The same, with what is told of its fault.
pub(crate) fn rest_of(
    problem: &Problem,
    basis: &Basis,
    rules: &Rules<AnyOrder>,
    part: Part,
) -> Result<Poly, ClosedRefusal>
    requires reached { Reaches problem.now basis.now part }
    requires rules { AreRulesOf problem.now basis.now rules.now.order rules.now.rules }
    ensures rest { IfOk result (λ rest. rest_of problem.now basis.now part ≡ Ok rest.terms) }
    ensures refused { IfErr result (Refuses problem.now basis.now) }
{
    match reduce_part(problem, basis, rules, part) {
        Ok(rest) => Ok(rest),
        Err(fault) => Err(refuse(part, fault)),
    }
}
