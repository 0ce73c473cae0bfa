//! The linear equations that the drawn entries leave for those that are solved for.
ghost use Rattle.std.specs.Prelude.{◌≡◌, length, IfNone, IfOk, IfSome, IsTrue, IsFalse};
ghost use Rattle.std.specs.List.{All};
ghost use Rattle.quiver.specs.Declarations.{object_count, quiver_of};
ghost use Rattle.adjoint_rules.specs.Problem.{IsShape};
ghost use Rattle.matrix_models.specs.Systems.{HasNoSolution};
ghost use Rattle.matrix_models.specs.Pivots.{Add, AreAgainst, StandFor};
ghost use Rattle.model_candidates.specs.Candidates.{model_by};
ghost use Rattle.model_candidates.specs.Unknowns.{set_count, solved_flags};
ghost use Rattle.model_candidates.specs.Plans.{AreEntryValues, FitsShape, IsAssumption, IsZeroAtSignature};
ghost use Rattle.model_candidates.specs.Equations.{system_for};
ghost use Rattle.model_candidates.specs.Factors.{equations_of, system_in};
ghost use Rattle.model_candidates.specs.Known.{AreZeros, IsKnown};
ghost use Rattle.model_candidates.specs.WordRows.{model_in, quiver_in};

use crate::conditions::are_zero;
use crate::constants::constant_of;
use crate::factor_rows::add_rows;
use crate::plan::{LinearAssumption, Plan};
use crate::solved_terms::{Known, SolvedTerm, solved_terms};
use crate::unknowns::{filled, unit_values};
use crate::word_rows::EntryValues;
use adjoint_rules::{Problem, Shape};
use lists::Listing;
use matrix_models::Pivots;
use std::alloc::{AllocError, Global};

/// The equations for the entries that are solved for, where the others are drawn: each entry of each assumption is zero. `None`
/// comes exactly where an assumption in which no solved map stands isn't zero, or else the equations have no solution.
pub(crate) fn pivots_of(
    alloc: Global,
    problem: &Problem,
    shape: &Shape,
    plan: &Plan,
    drawn: &[u32],
) -> Result<Option<Pivots>, AllocError>
    requires shape { IsShape (object_count problem.now.parts.quiver) shape.now }
    requires plan { FitsShape problem.now shape.now plan.now }
    requires drawn { AreEntryValues problem.now shape.now drawn.now }
    ensures none { IfOk result (λ found. IfNone found (All (IsZeroAtSignature problem.now
        (model_by (quiver_of problem.now.parts.quiver) shape.now 0 drawn.now)) plan.now.assumptions.conditions
        → HasNoSolution (system_for problem.now shape.now plan.now.solved plan.now.assumptions.equations drawn.now))) }
    ensures hold { IfOk result (λ found. IfSome found (λ _. All (IsZeroAtSignature problem.now
        (model_by (quiver_of problem.now.parts.quiver) shape.now 0 drawn.now)) plan.now.assumptions.conditions)) }
    ensures pivots { IfOk result (λ found. IfSome found (λ pivots.
        StandFor pivots (system_for problem.now shape.now plan.now.solved plan.now.assumptions.equations drawn.now))) }
{
    let zeros = unit_values(alloc, plan.unknowns, plan.unknowns)?;
    let values = filled(alloc, plan.solved.as_slice(), drawn, zeros.as_slice())?;
    pivots_at(alloc, problem, shape, plan, values.as_slice())
}

// The equations where the entries have these values, 0 for those that are solved for; `None` where a condition is not zero, or
// else the equations have no solution.
fn pivots_at(
    alloc: Global,
    problem: &Problem,
    shape: &Shape,
    plan: &Plan,
    values: &[u32],
) -> Result<Option<Pivots>, AllocError>
    requires shape { IsShape (object_count problem.now.parts.quiver) shape.now }
    requires plan { FitsShape problem.now shape.now plan.now }
    requires values { AreEntryValues problem.now shape.now values.now }
    requires zeros { AreZeros (solved_flags (quiver_of problem.now.parts.quiver) shape.now problem.now.parts.solved) values.now }
    ensures none { IfOk result (λ found. IfNone found (All (IsZeroAtSignature problem.now
        (model_by (quiver_of problem.now.parts.quiver) shape.now 0 values.now)) plan.now.assumptions.conditions
        → HasNoSolution (system_in problem.now shape.now (model_by (quiver_of problem.now.parts.quiver) shape.now 0 values.now)
        plan.now.unknowns plan.now.assumptions.equations))) }
    ensures hold { IfOk result (λ found. IfSome found (λ _. All (IsZeroAtSignature problem.now
        (model_by (quiver_of problem.now.parts.quiver) shape.now 0 values.now)) plan.now.assumptions.conditions)) }
    ensures pivots { IfOk result (λ found. IfSome found (λ pivots. StandFor pivots
        (system_in problem.now shape.now (model_by (quiver_of problem.now.parts.quiver) shape.now 0 values.now)
        plan.now.unknowns plan.now.assumptions.equations))) }
{
    let given = EntryValues {
        problem,
        shape,
        tables: plan.tables.letters.as_slice(),
        values,
    };
    let known = Known {
        alloc,
        given,
        numbers: plan.numbers.as_slice(),
        coefficients: plan.tables.assumptions.as_slice(),
    };
    let conditions = plan.assumptions.conditions.as_slice();
    if !are_zero(&known, conditions) {
        return Ok(None);
    }
    pivots_with(&known, plan)
}

// The equations of all assumptions in which a solved map stands, one assumption after another: the first of them that
// contradicts those before it ends this, with `None`.
fn pivots_with(known: &Known, plan: &Plan) -> Result<Option<Pivots>, AllocError>
    requires known { IsKnown known.now }
    requires plan { FitsShape known.now.given.problem.now known.now.given.shape.now plan.now }
    ensures none { IfOk result (λ found. IfNone found (HasNoSolution (system_in known.now.given.problem.now known.now.given.shape.now
        (model_in known.now.given) plan.now.unknowns plan.now.assumptions.equations))) }
    ensures pivots { IfOk result (λ found. IfSome found (λ pivots. StandFor pivots (system_in known.now.given.problem.now
        known.now.given.shape.now (model_in known.now.given) plan.now.unknowns plan.now.assumptions.equations))) }
{
    let mut pivots = Pivots::new(known.alloc, known.given.shape.modulus, plan.unknowns)?;
    let mut terms = Listing::new(known.alloc);
    for assumption in plan.assumptions.equations.as_slice() {
        if !add_equations(known, plan.unknowns, *assumption, &mut terms, &mut pivots)? {
            return Ok(None);
        }
    }
    Ok(Some(pivots))
}

// Adds the equations that say that the assumption is zero, up to the first that contradicts those before it, and tells whether
// there is none such. The list that is lent for its terms keeps its memory for the next one.
fn add_equations(
    known: &Known,
    unknowns: u32,
    assumption: LinearAssumption,
    terms: &mut Listing<SolvedTerm>,
    pivots: &mut Pivots,
) -> Result<bool, AllocError>
    requires known { IsKnown known.now }
    requires unknowns { unknowns
        ≡ set_count (solved_flags (quiver_in known.now.given) known.now.given.shape.now known.now.given.problem.now.parts.solved) }
    requires assumption { IsAssumption known.now.given.problem.now 1 assumption }
    requires size { length pivots.old.rows ≡ unknowns }
    requires modulus { pivots.old.modulus ≡ known.now.given.shape.now.modulus }
    ensures added { IfOk result (λ fit. IsTrue fit
        → Add (equations_of known.now.given.problem.now known.now.given.shape.now (model_in known.now.given) assumption)
        pivots.old pivots.new) }
    ensures against { IfOk result (λ fit. IsFalse fit
        → AreAgainst (equations_of known.now.given.problem.now known.now.given.shape.now (model_in known.now.given) assumption)
        pivots.old) }
{
    let place = assumption.place as usize;
    let poly = known.given.problem.parts.assumptions.at(place);
    let coefficients = known.coefficients[place].as_slice();
    let ends = assumption.sig;
    let value = constant_of(known, poly, coefficients, ends);
    solved_terms(known, poly, coefficients, ends, terms)?;
    add_rows(known.alloc, unknowns, &value, terms.as_slice(), pivots)
}
