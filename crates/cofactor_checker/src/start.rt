//! The tests before the items of evidence.
ghost use Rattle.std.specs.Prelude.{◌≡◌, ◌≤◌, length, OnOk, IfOk, IfErr};
ghost use Rattle.coef_int.specs.Range.{IsCoefficient};
ghost use Rattle.definitions.specs.Combination.{generator_at};
ghost use Rattle.adjoint_rules.specs.Problem.{polynomials};
ghost use Rattle.cofactor_checker.specs.Starts.{Starts, TellsStart};

use crate::Refusal;
use crate::compare::overflow_of_multiple;
use crate::rows::numbered;
use crate::scales::{Scaled, are_positive, loose_scale};
use nc_polynomial::Poly;
use traced_rows::Lemma;

/// The claim with this number, where the tests before the items pass, and else the first that fails.
pub fn posed_claim<'a, I: Scaled>(
    claims: &'a [Poly],
    number: u32,
    denominator: i128,
    items: &[I],
    goal: &Lemma,
) -> Result<&'a Poly, Refusal>
    requires denominator { IsCoefficient denominator }
    requires scale { IsCoefficient goal.now.scale }
    requires count { length items.now ≤ 4294967295 }
    ensures claim { IfOk result (λ p. p.now.terms ≡ generator_at (polynomials claims.now) number) }
    ensures starts { OnOk result (Starts I.positive I.tight (polynomials claims.now) number denominator items.now goal.now) }
    ensures refused { IfErr result (TellsStart I.positive I.tight (polynomials claims.now) number denominator items.now goal.now) }
{
    let Some(claim) = numbered(claims, number) else {
        return Err(Refusal::NoSuchClaim);
    };
    if !are_positive(denominator, items, goal) {
        return Err(Refusal::ZeroDenominator);
    }
    if let Some(lemma) = loose_scale(denominator, items, goal) {
        return Err(Refusal::LooseScale { lemma });
    }
    if let Some(overflow) = overflow_of_multiple(goal.scale, claim.terms.as_slice()) {
        return Err(Refusal::Overflow { row: 0, overflow });
    }
    Ok(claim)
}
