//! Problems: what a statement says, with its generators.

ghost use Rattle.std.specs.Prelude.{◌≡◌, ◌≤◌, length, IfOk};
ghost use Rattle.adjoint_rules.specs.Limits.{generator_limit};
ghost use Rattle.adjoint_rules.specs.Parts.{units_in};
ghost use Rattle.adjoint_rules.specs.Problem.{IsPosed, IsClosed};
ghost use Rattle.adjoint_rules.specs.Props.{props};

use crate::Parts;
use crate::adjoint::push_adjoints;
use crate::units::push_all_units;
use lists::{Duplicate, Listing};
use nc_polynomial::Poly;
use std::alloc::{AllocError, Global};

/// The parts of a statement with its generators: the assumptions; where the statement is starred, the adjoints of those whose
/// adjoint isn't plus or minus themselves; and the relations of the marked identities.
#[derive(Drop)]
pub struct Problem {
    /// What the statement says.
    pub parts: Parts,
    /// The generators, from which the claims should follow. They are numbered from 1.
    pub generators: Listing<Poly>,
    /// How many of them are relations of identities, which are the last ones.
    pub unit_count: usize,
    pub ghost posed: { IsPosed parts } by { Prim.hlevel props },
    pub ghost closed: { IsClosed parts generators } by { Prim.hlevel props },
    pub ghost few: { length generators ≤ generator_limit },
    pub ghost counted: { unit_count ≡ length (units_in parts) },
}

/// The problem of the parts.
pub fn close_problem(alloc: Global, parts: Parts) -> Result<Problem, AllocError>
    requires { IsPosed parts }
    ensures parts { IfOk result (λ problem. problem.parts ≡ parts) }
    ensures closed { IfOk result (λ problem. IsClosed problem.parts problem.generators) }
    ensures few { IfOk result (λ problem. length problem.generators ≤ generator_limit) }
    ensures counted { IfOk result (λ problem. problem.unit_count ≡ length (units_in problem.parts)) }
{
    match generators_of(alloc, &parts) {
        Ok((generators, unit_count)) => Ok(Problem {
            parts,
            generators,
            unit_count,
        }),
        Err(failed) => {
            drop(parts);
            Err(failed)
        }
    }
}

// The generators, and how many of them are relations of identities.
fn generators_of(alloc: Global, parts: &Parts) -> Result<(Listing<Poly>, usize), AllocError>
    requires { IsPosed parts.now }
    ensures closed { IfOk result (λ made. IsClosed parts.now made.0) }
    ensures counted { IfOk result (λ made. made.1 ≡ length (units_in parts.now)) }
{
    let mut generators = parts.assumptions.duplicate()?;
    if let Err(failed) = push_adjoints(alloc, &mut generators, parts) {
        drop(generators);
        return Err(failed);
    }
    let others = generators.len();
    if let Err(failed) = push_all_units(alloc, &mut generators, parts) {
        drop(generators);
        return Err(failed);
    }
    let unit_count = generators.len() - others;
    Ok((generators, unit_count))
}
