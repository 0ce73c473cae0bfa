//! The candidates of a shape.
ghost use Rattle.std.specs.Prelude.{◌≡◌, ◌<◌, ◌≤◌, ℕ, List, length, IfOk, IfSome, IfNone};
ghost use Rattle.std.specs.List.{All};
ghost use Rattle.std.specs.Option.{option_map};
ghost use Rattle.quiver.specs.Declarations.{object_count, quiver_of};
ghost use Rattle.adjoint_rules.specs.Problem.{IsShape};
ghost use Rattle.adjoint_rules.specs.declared.parts.Shape.{Shape as ShapeValue};
ghost use Rattle.matrix_models.specs.Pivots.{AreGreedyFor};
ghost use Rattle.model_candidates.specs.Candidates.{IsCandidate, IsGreedy, IsShapeOf, IsSolution, model_by};
ghost use Rattle.model_candidates.specs.Plans.{AreEntryValues, FitsShape, IsPlan};
ghost use Rattle.model_candidates.specs.Unknowns.{picked};

use crate::drawn_values::{digits_of, draws_of};
use crate::equations::pivots_of;
use crate::given_values::model_with;
use crate::plan::{Plan, plan_of};
use crate::unknowns::{filled, picked};
use adjoint_rules::{Problem, Shape};
use lists::Listing;
use matrix_models::{Model, Pivots};
use std::alloc::{AllocError, Global};

/// Candidate k, counted from 0, of the shape with this number, counted from 1, for a seed; `None` exactly where the entries that
/// are drawn leave equations with no solution. The model names no claim: its claim is 0. There is such a shape.
pub fn candidate(
    alloc: Global,
    problem: &Problem,
    shape: u32,
    seed: u64,
    k: u32,
) -> Result<Option<Model>, AllocError>
    requires least { 1 ≤ shape }
    requires most { shape ≤ length problem.now.parts.shapes }
    ensures candidate { IfOk result (λ model. (s : ShapeValue) → IsShapeOf problem.now shape s
        → IsCandidate problem.now shape s seed k model) }
{
    let plan = plan_of(alloc, problem, shape)?;
    candidate_by(alloc, problem, &plan, seed, k)
}

/// Candidate k, counted from 0, of the plan's shape for a seed; `None` exactly where it has no model. It fails only where memory
/// is short.
pub fn candidate_by(
    alloc: Global,
    problem: &Problem,
    plan: &Plan,
    seed: u64,
    k: u32,
) -> Result<Option<Model>, AllocError>
    requires plan { IsPlan problem.now plan.now }
    ensures candidate { IfOk result (λ model. (s : ShapeValue) → IsShapeOf problem.now plan.now.number s
        → IsCandidate problem.now plan.now.number s seed k model) }
{
    let Some(values) = candidate_values(alloc, problem, plan, seed, k)? else {
        return Ok(None);
    };
    let quiver = &problem.parts.quiver;
    let shape = problem.parts.shapes.at(plan.number as usize - 1);
    Ok(Some(model_with(alloc, quiver, shape, 0, values.as_slice())?))
}

/// The values of the entries in candidate k, counted from 0, of the plan's shape for a seed: the candidate is the model by them.
/// `None` exactly where it has no model. It fails only where memory is short.
pub fn candidate_values(
    alloc: Global,
    problem: &Problem,
    plan: &Plan,
    seed: u64,
    k: u32,
) -> Result<Option<Listing<u32>>, AllocError>
    requires plan { IsPlan problem.now plan.now }
    ensures candidate { IfOk result (λ found. (s : ShapeValue) → IsShapeOf problem.now plan.now.number s
        → IsCandidate problem.now plan.now.number s seed k (option_map (model_by (quiver_of problem.now.parts.quiver) s 0) found)) }
    ensures values { IfOk result (λ found. (s : ShapeValue) → IsShapeOf problem.now plan.now.number s
        → IfSome found (AreEntryValues problem.now s)) }
{
    let shape = problem.parts.shapes.at(plan.number as usize - 1);
    let (modulus, count) = (shape.modulus, plan.entries);
    if plan.exhaustive {
        return Ok(Some(digits_of(alloc, modulus, count, k)?));
    }
    let drawn = draws_of(alloc, modulus, count, plan.number, seed, k)?;
    greedy_values(alloc, problem, shape, plan, drawn.as_slice())
}

// The greedy solution of the linear assumptions where the entries that aren't solved for are drawn.
fn greedy_values(
    alloc: Global,
    problem: &Problem,
    shape: &Shape,
    plan: &Plan,
    drawn: &[u32],
) -> Result<Option<Listing<u32>>, AllocError>
    requires shape { IsShape (object_count problem.now.parts.quiver) shape.now }
    requires plan { FitsShape problem.now shape.now plan.now }
    requires drawn { AreEntryValues problem.now shape.now drawn.now }
    ensures none { IfOk result (λ found. IfNone found ((values : List ℕ) → ¬ IsSolution problem.now shape.now drawn.now values)) }
    ensures greedy { IfOk result (λ found. IfSome found (IsGreedy problem.now shape.now drawn.now)) }
{
    let Some(pivots) = pivots_of(alloc, problem, shape, plan, drawn)? else {
        return Ok(None);
    };
    let solved = plan.solved.as_slice();
    let values = solution_by(alloc, pivots, solved, drawn)?;
    Ok(Some(filled(alloc, solved, drawn, values.as_slice())?))
}

// The greedy solution of the equations that the pivots stand for, where the drawn values are preferred. The pivots are let go at
// its one end.
fn solution_by(
    alloc: Global,
    pivots: Pivots,
    solved: &[bool],
    drawn: &[u32],
) -> Result<Listing<u32>, AllocError>
    requires one_each { length drawn.now ≡ length solved.now }
    requires size { length (picked solved.now drawn.now) ≡ length pivots.rows }
    requires below { All (λ value. value < pivots.modulus) (picked solved.now drawn.now) }
    ensures { IfOk result (AreGreedyFor pivots (picked solved.now drawn.now)) }
{
    match picked(alloc, solved, drawn) {
        Ok(prefer) => pivots.values(alloc, prefer.as_slice()),
        Err(failed) => Err(failed),
    }
}
