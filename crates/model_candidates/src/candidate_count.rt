//! How many candidates a shape has.
ghost use Rattle.std.specs.Prelude.{◌≡◌, ◌≤◌, ◌^◌, length, nat_le};
ghost use Rattle.definitions.specs.Quiver.{IsQuiver};
ghost use Rattle.quiver.specs.Declarations.{object_count, quiver_of};
ghost use Rattle.adjoint_rules.specs.declared.parts.Shape.{Shape as ShapeValue};
ghost use Rattle.adjoint_rules.specs.Problem.{IsShape};
ghost use Rattle.model_candidates.specs.Limits.{exhaustive_limit};
ghost use Rattle.model_candidates.specs.Candidates.{IsShapeOf, candidate_count, all_candidate_count};

use crate::entries::entry_count;
use adjoint_rules::{Problem, Shape};
use quiver::Quiver;

// Up to so many lists of values, all are tried.
const EXHAUSTIVE_LIMIT: u32 = 65_536;

// Else so many are drawn.
const DRAWN_COUNT: u32 = 4096;

/// How many candidates the shape with this number has, counted from 1: as many as there are lists of values of its entries where
/// these are at most 65,536, and else 4,096. There is such a shape.
pub fn candidates(problem: &Problem, shape: u32) -> u32
    requires least { 1 ≤ shape }
    requires most { shape ≤ length problem.now.parts.shapes }
    ensures exact { (s : ShapeValue) → IsShapeOf problem.now shape s → result ≡ candidate_count (quiver_of problem.now.parts.quiver) s }
    ensures few { result ≤ exhaustive_limit }
{
    let place = shape as usize - 1;
    count_for(&problem.parts.quiver, problem.parts.shapes.at(place))
}

/// How many candidates all shapes have.
pub fn all_candidates(problem: &Problem) -> u64
    ensures { result ≡ all_candidate_count problem.now }
{
    let mut total = 0;
    for shape in problem.parts.shapes.as_slice() {
        total += u64::from(count_for(&problem.parts.quiver, shape));
    }
    total
}

// How many candidates the shape has.
fn count_for(quiver: &Quiver, shape: &Shape) -> u32
    requires quiver { IsQuiver (quiver_of quiver.now) }
    requires shape { IsShape (object_count quiver.now) shape.now }
    ensures exact { result ≡ candidate_count (quiver_of quiver.now) shape.now }
    ensures few { result ≤ exhaustive_limit }
{
    match shape.modulus.checked_pow(entry_count(quiver, shape)) {
        Some(count) if count <= EXHAUSTIVE_LIMIT => count,
        _ => DRAWN_COUNT,
    }
}

/// Whether there are so few lists of values of the entries that all are tried.
pub(crate) fn is_exhaustive(modulus: u32, entries: u32) -> bool
    ensures { result ≡ nat_le (modulus ^ entries) exhaustive_limit }
{
    match modulus.checked_pow(entries) {
        Some(count) => count <= EXHAUSTIVE_LIMIT,
        None => false,
    }
}
