//! The category of normal forms.

ghost use Rattle.std.specs.Prelude.{◌≡◌, ◌≤◌, ◌↔◌, length, IfOk, IfErr, IsOk, OnOk};
ghost use Rattle.std.specs.List.{All};
ghost use Rattle.definitions.specs.Combination.{InRationalIdeal};
ghost use Rattle.word_orders.specs.Specified.{asked_cmp};
ghost use Rattle.quiver.specs.Declarations.{letter_count};
ghost use Rattle.rule_reduce.specs.RuleLists.{IsRule, polynomials_of};
ghost use Rattle.ambiguities.specs.Resolved.{Resolved};
ghost use Rattle.adjoint_rules.specs.Problem.{polynomials};
ghost use Rattle.adjoint_rules.specs.Claims.{claim_at};
ghost use Rattle.normal_forms.specs.NormalForms.{normal_forms};
ghost use Rattle.normal_forms.specs.SharpMeans.{SharpMeans};
ghost use Rattle.normal_forms.proofs.Basis.{normal_forms_laws};
ghost use Rattle.normal_category.specs.Faults.{AreSharp, Explains};

use crate::SharpFault;
use crate::map::NormalMap;
use crate::passes::{first_out_of_play, first_untyped};
use adjoint_rules::Problem;
use category_laws::Preadditive;
use rule_reduce::Rules;
use word_orders::AnyOrder;

/// The category of the normal forms of rules, for the objects and maps of a statement. It has objects and maps only where
/// the rules are resolved, typed and in play, and the generators in their rational ideal.
#[derive(Drop)]
pub struct NormalForms<'a> {
    /// The statement.
    pub problem: &'a Problem,
    /// The rules.
    pub rules: &'a Rules<AnyOrder>,
}

impl<'a> Preadditive for NormalForms<'a> {
    type Object = usize;

    type Arrow = NormalMap;

    ghost structure = { λ c. normal_forms c.problem.now.parts c.rules.now.rules };

    ghost laws = { λ c. normal_forms_laws c.problem.now.parts c.rules.now.rules };
}

/// The category of the normal forms of the rules. `Untyped` has the least rule whose words aren't paths of one signature,
/// and where there is none `OutOfPlay` the least one with a letter that isn't in play. The rules are resolved, each
/// generator is in their rational ideal, and the claim isn't: so the claim isn't zero in the category.
pub fn normal_forms<'a>(
    problem: &'a Problem,
    rules: &'a Rules<AnyOrder>,
    claim: u32,
) -> Result<NormalForms<'a>, SharpFault>
    requires are_rules { All (IsRule (letter_count problem.now.parts.quiver) (asked_cmp problem.now.parts.order)) rules.now.rules }
    requires resolved { Resolved (letter_count problem.now.parts.quiver) (asked_cmp problem.now.parts.order) rules.now.rules }
    requires generated { All (InRationalIdeal (polynomials_of rules.now.rules)) (polynomials problem.now.generators) }
    requires first { 1 ≤ claim }
    requires last { claim ≤ length problem.now.parts.claims }
    requires outside { InRationalIdeal (polynomials_of rules.now.rules) (claim_at problem.now claim) → ⊥ }
    ensures typed { IsOk result ↔ AreSharp problem.now.parts rules.now.rules }
    ensures sharp { OnOk result (SharpMeans problem.now.parts rules.now.rules (claim_at problem.now claim)) }
    ensures problem { IfOk result (λ c. c.problem.now ≡ problem.now) }
    ensures rules { IfOk result (λ c. c.rules.now ≡ rules.now) }
    ensures fault { IfErr result (Explains problem.now.parts rules.now.rules) }
{
    if let Some(rule) = first_untyped(&problem.parts, rules.rules.as_slice()) {
        return Err(SharpFault::Untyped { rule });
    }
    if let Some(rule) = first_out_of_play(&problem.parts, rules.rules.as_slice()) {
        return Err(SharpFault::OutOfPlay { rule });
    }
    Ok(NormalForms { problem, rules })
}
