//! The greedy solution of linear equations.

ghost use Rattle.std.specs.Prelude.{◌≡◌, ◌↔◌, None, IfOk, IfSome, IfNone};
ghost use Rattle.matrix_models.specs.Systems.{IsSystem, AreValues, HasNoSolution};
ghost use Rattle.matrix_models.specs.Greedy.{IsGreedy};
ghost use Rattle.matrix_models.specs.Elimination.{row_of};
ghost use Rattle.matrix_models.specs.Pivots.{StandFor};

use crate::{LinearRow, Pivots, System};
use lists::Listing;
use std::alloc::{AllocError, Global};

/// The greedy solution of a system: each unknown in order takes its preferred value where a solution has that and what was
/// chosen before it, and else the least value for which a solution has that and what was chosen before it. `None` comes
/// exactly where there is no solution, and `AllocError` where memory is short.
pub fn solve(
    alloc: Global,
    system: &System,
    prefer: &[u32],
) -> Result<Option<Listing<u32>>, AllocError>
    requires system { IsSystem system.now }
    requires prefer { AreValues system.now prefer.now }
    ensures none { IfOk result (λ found. (found ≡ None) ↔ HasNoSolution system.now) }
    ensures greedy { IfOk result (λ found. IfSome found (IsGreedy system.now prefer.now)) }
{
    match pivots_of(alloc, system)? {
        Some(pivots) => Ok(Some(pivots.values(alloc, prefer)?)),
        None => Ok(None),
    }
}

// Pivots that say what the equations do, and `None` where there is no solution.
fn pivots_of(alloc: Global, system: &System) -> Result<Option<Pivots>, AllocError>
    requires { IsSystem system.now }
    ensures pivots { IfOk result (λ found. IfSome found (λ pivots. StandFor pivots system.now)) }
    ensures none { IfOk result (λ found. IfNone found (HasNoSolution system.now)) }
{
    let mut pivots = Pivots::new(alloc, system.modulus, system.unknowns)?;
    for equation in system.rows.as_slice() {
        let row = row_of(alloc, equation)?;
        if !pivots.add(row) {
            return Ok(None);
        }
    }
    Ok(Some(pivots))
}

// The factors, and the right side behind them.
fn row_of(alloc: Global, equation: &LinearRow) -> Result<Vec<u32>, AllocError>
    ensures { IfOk result (λ v. v.items ≡ row_of equation.now) }
{
    let mut row = Vec::from_slice(alloc, equation.factors.as_slice())?;
    row.push(equation.right)?;
    Ok(row)
}
