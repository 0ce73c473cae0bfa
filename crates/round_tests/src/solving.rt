//! Linear equations modulo a prime, and which of their solutions is given.
ghost use Rattle.std.specs.Prelude.{◌<◌, All, IsTrue};
ghost use Rattle.matrix_models.specs.Systems.{IsEquation, IsSystem, AreValues};

use crate::comparing::equal;
use adjoint_rules::is_field_modulus;
use lists::Listing;
use matrix_models::{LinearRow, System, solve};
use std::alloc::Global;
use std::process::Abort;

// The factors of an equation, and its right side.
type Equation = (&'static [u32], u32);

// A modulus, the number of unknowns, equations, preferred values, and the greedy solution, or None.
type Row = (
    u32,
    u32,
    &'static [Equation],
    &'static [u32],
    Option<&'static [u32]>,
);

const ROWS: &[Row] = &[
    (7, 2, &[(&[1, 1], 3)], &[1, 5], Some(&[1, 2])),
    (5, 1, &[(&[2], 4)], &[0], Some(&[2])),
    (2, 2, &[], &[1, 0], Some(&[1, 0])),
    (7, 1, &[(&[0], 1)], &[0], None),
    // the same equation twice, and one that contradicts it
    (5, 2, &[(&[1, 2], 3), (&[2, 4], 1)], &[4, 0], Some(&[4, 2])),
    (5, 2, &[(&[1, 2], 3), (&[2, 4], 2)], &[4, 0], None),
    // no unknowns
    (3, 0, &[], &[], Some(&[])),
    (3, 0, &[(&[], 0)], &[], Some(&[])),
    (3, 0, &[(&[], 2)], &[], None),
];

// Whether all values are below the modulus.
fn are_below(modulus: u32, values: &[u32]) -> bool
    ensures { IsTrue result → All (λ value. value < modulus) values.now }
{
    values.iter().all(|value| *value < modulus)
}

// Whether there is a factor for each unknown, and all numbers are below the modulus.
fn is_equation(modulus: u32, unknowns: u32, row: &LinearRow) -> bool
    ensures { IsTrue result → IsEquation modulus unknowns row.now }
{
    row.factors.len() == unknowns as usize
        && are_below(modulus, row.factors.as_slice())
        && row.right < modulus
}

// Whether all rows are equations.
fn are_equations(modulus: u32, unknowns: u32, rows: &[LinearRow]) -> bool
    ensures { IsTrue result → All (IsEquation modulus unknowns) rows.now }
{
    rows.iter().all(|row| is_equation(modulus, unknowns, row))
}

// Whether it is a system that can be solved for.
fn is_system(system: &System) -> bool
    ensures { IsTrue result → IsSystem system.now }
{
    is_field_modulus(u128::from(system.modulus))
        && are_equations(system.modulus, system.unknowns, system.rows.as_slice())
}

// Whether there is a value for each unknown.
fn are_values(system: &System, values: &[u32]) -> bool
    ensures { IsTrue result → AreValues system.now values.now }
{
    values.len() == system.unknowns as usize && are_below(system.modulus, values)
}

fn equation_of(rt: &impl Abort, alloc: Global, equation: &Equation) -> LinearRow {
    let (factors, right) = equation;
    LinearRow {
        factors: Listing::from_vec(factors.to_vec(alloc).expect(rt, "memory")),
        right: *right,
    }
}

fn equations_of(rt: &impl Abort, alloc: Global, equations: &[Equation]) -> Listing<LinearRow> {
    let mut rows = Listing::new(alloc);
    for equation in equations {
        let row = equation_of(rt, alloc, equation);
        rows.push(row).expect(rt, "memory");
    }
    rows
}

// Ends the test where the solution of a row's equations isn't the row's.
fn tell_solution(rt: &impl Abort, alloc: Global, system: &System, row: &Row) {
    let (_, _, _, preferred, want) = row;
    let is_posed = is_system(system) && are_values(system, preferred);
    assert!(rt; is_posed, "no system with values");
    match solve(alloc, system, preferred).expect(rt, "memory") {
        Some(values) => equal(rt, &Some(values.as_slice()), want, "a solution"),
        None => equal(rt, &None, want, "no solution"),
    }
}

fn tell(rt: &impl Abort, alloc: Global, row: &Row) {
    let system = System {
        modulus: row.0,
        unknowns: row.1,
        rows: equations_of(rt, alloc, row.2),
    };
    tell_solution(rt, alloc, &system, row);
}

#[test]
fn preferred_values_are_taken_in_order(rt: HostRuntime) {
    for row in ROWS {
        tell(&rt, rt.alloc(), row);
    }
}
