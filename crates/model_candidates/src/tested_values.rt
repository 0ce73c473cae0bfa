//! Tests of the values of a candidate: whether assumptions and claims are zero in the model by them, which isn't made.
ghost use Rattle.std.specs.Prelude.{◌≡◌, ◌↔◌, ◌&&◌, not, IsTrue};
ghost use Rattle.std.specs.List.{All, AllByRecursion};
ghost use Rattle.word_core.specs.Letters.{IsOver};
ghost use Rattle.quiver.specs.Declarations.{letter_count, quiver_of};
ghost use Rattle.adjoint_rules.specs.declared.parts.Shape.{Shape as ShapeValue};
ghost use Rattle.model_checker.specs.Models.{IsClaimNumber, IsZeroIn, assumptions_of, claim_polynomial};
ghost use Rattle.model_candidates.specs.Candidates.{IsShapeOf, is_exhaustive, model_by};
ghost use Rattle.model_candidates.specs.Plans.{AreEntryValues, IsPlan, has_few, linear_assumptions};

use crate::plan::{Plan, has_few};
use crate::value_rows::is_zero;
use crate::word_rows::EntryValues;
use adjoint_rules::Problem;
use nc_polynomial::Poly;

/// Whether all assumptions are zero in the model by these values of the entries of the plan's shape. Where not all lists of values
/// are tried, the assumptions that are linear in the solved maps are zero, and aren't tested.
pub fn is_model(problem: &Problem, plan: &Plan, values: &[u32]) -> bool
    requires plan { IsPlan problem.now plan.now }
    requires values { (s : ShapeValue) → IsShapeOf problem.now plan.now.number s → AreEntryValues problem.now s values.now }
    requires linear { (s : ShapeValue) → IsShapeOf problem.now plan.now.number s
        → IsTrue (not (is_exhaustive (quiver_of problem.now.parts.quiver) s)) → AllByRecursion (IsZeroIn problem.now
        (model_by (quiver_of problem.now.parts.quiver) s 0 values.now)) (linear_assumptions problem.now) }
    ensures { (s : ShapeValue) → IsShapeOf problem.now plan.now.number s → IsTrue result ↔ AllByRecursion (IsZeroIn problem.now
        (model_by (quiver_of problem.now.parts.quiver) s 0 values.now)) (assumptions_of problem.now) }
{
    are_zero(problem, plan, values, !plan.exhaustive)
}

// Whether all assumptions are zero in the model by these values of the entries of the plan's shape. The linear ones are passed over
// where they are known to be.
fn are_zero(problem: &Problem, plan: &Plan, values: &[u32], known: bool) -> bool
    requires plan { IsPlan problem.now plan.now }
    requires values { (s : ShapeValue) → IsShapeOf problem.now plan.now.number s → AreEntryValues problem.now s values.now }
    requires linear { (s : ShapeValue) → IsShapeOf problem.now plan.now.number s → IsTrue known → AllByRecursion (IsZeroIn problem.now
        (model_by (quiver_of problem.now.parts.quiver) s 0 values.now)) (linear_assumptions problem.now) }
    ensures { (s : ShapeValue) → IsShapeOf problem.now plan.now.number s → IsTrue result ↔ AllByRecursion (IsZeroIn problem.now
        (model_by (quiver_of problem.now.parts.quiver) s 0 values.now)) (assumptions_of problem.now) }
{
    let parts = &problem.parts;
    let shape = parts.shapes.at(plan.number as usize - 1);
    let tables = plan.tables.letters.as_slice();
    let given = EntryValues {
        problem,
        shape,
        tables,
        values,
    };
    for place in 0..parts.assumptions.len() {
        let assumption = parts.assumptions.at(place);
        if is_passed(problem, known, assumption) {
            continue;
        }
        let sig = *parts.sigs.at(place);
        let coefficients = plan.tables.assumptions.at(place).as_slice();
        if !is_zero(&given, assumption, coefficients, sig) {
            return false;
        }
    }
    true
}

// Whether the assumption is passed over: the linear ones are known to be zero, and it is one of them.
fn is_passed(problem: &Problem, known: bool, assumption: &Poly) -> bool
    requires { All (λ t. IsOver (letter_count problem.now.parts.quiver) t.1) assumption.now.terms }
    ensures { result ≡ (known && has_few (quiver_of problem.now.parts.quiver) problem.now.parts.solved 1 assumption.now.terms) }
{
    let parts = &problem.parts;
    known && has_few(&parts.quiver, parts.solved.as_slice(), assumption, 1)
}

/// Whether the claim with this number, counted from 1, is zero in the model by these values of the entries of the plan's shape.
pub fn is_claim_zero(problem: &Problem, plan: &Plan, values: &[u32], claim: u32) -> bool
    requires plan { IsPlan problem.now plan.now }
    requires values { (s : ShapeValue) → IsShapeOf problem.now plan.now.number s → AreEntryValues problem.now s values.now }
    requires claim { IsClaimNumber problem.now claim }
    ensures { (s : ShapeValue) → IsShapeOf problem.now plan.now.number s → IsTrue result ↔ IsZeroIn problem.now
        (model_by (quiver_of problem.now.parts.quiver) s 0 values.now) (claim_polynomial problem.now claim) }
{
    let parts = &problem.parts;
    let shape = parts.shapes.at(plan.number as usize - 1);
    let tables = plan.tables.letters.as_slice();
    let given = EntryValues {
        problem,
        shape,
        tables,
        values,
    };
    let place = claim as usize - 1;
    let poly = parts.claims.at(place);
    let sig = *parts.claim_sigs.at(place);
    let coefficients = plan.tables.claims.at(place).as_slice();
    is_zero(&given, poly, coefficients, sig)
}
