//! The goal of a certificate with lemmas: adds up its rows, and compares the sum with its scale times the claim.
ghost use Rattle.std.specs.Prelude.{◌≡◌, ◌≤◌, ◌+◌, length, None, OnOk, IfErr};
ghost use Rattle.coef_int.specs.Operations.{first_overflow};
ghost use Rattle.nc_polynomial.specs.Terms.{products};
ghost use Rattle.adjoint_rules.specs.Problem.{polynomials};
ghost use Rattle.cofactor_checker.specs.Goals.{ReachesClaim, RefusesGoal};
ghost use Rattle.cofactor_checker.specs.LemmaAcceptance.{HasScale, IsRanged};

use crate::Refusal;
use crate::compare::least_difference;
use crate::rows::add_rows;
use nc_polynomial::Poly;
use std::alloc::Global;
use traced_rows::Lemma;

/// Whether the rows of the goal, before which so many stand, add up to its scale times the claim, over the generators and the
/// lemmas. Each refusal comes exactly where its test is the first that fails.
pub fn check_goal(
    alloc: Global,
    claim: &Poly,
    generators: &[Poly],
    lemmas: &[Poly],
    goal: &Lemma,
    before: u32,
) -> Result<(), Refusal>
    requires count { before + length goal.now.rows ≤ 4294967295 }
    requires ranged { IsRanged goal.now }
    requires scale { HasScale goal.now }
    requires products { first_overflow (products goal.now.scale claim.now.terms) ≡ None }
    ensures reaches { OnOk result (ReachesClaim (polynomials generators.now) (polynomials lemmas.now) goal.now claim.now.terms) }
    ensures refused { IfErr result (RefusesGoal (polynomials generators.now) (polynomials lemmas.now) before goal.now claim.now.terms) }
{
    let rows = goal.rows.as_slice();
    let sum = add_rows(alloc, generators, lemmas, rows, before)?;
    match least_difference(&sum, goal.scale, claim.terms.as_slice())? {
        None => Ok(()),
        Some(difference) => Err(Refusal::Differs {
            word: difference.word,
            want: difference.want,
            got: difference.got,
        }),
    }
}
