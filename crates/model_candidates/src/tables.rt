//! The tables by which values of the entries of a shape are tested.
ghost use Rattle.std.specs.Prelude.{◌≡◌, ◌<◌, IfOk, map};
ghost use Rattle.quiver.specs.Declarations.{object_count};
ghost use Rattle.adjoint_rules.specs.Problem.{IsShape};
ghost use Rattle.model_candidates.specs.Residues.{residue, residues};
ghost use Rattle.model_candidates.specs.Tables.{AreTables};

use crate::letter_tables::{LetterTable, letter_tables};
use adjoint_rules::{Problem, Shape};
use lists::Listing;
use nc_polynomial::Poly;
use std::alloc::{AllocError, Global};

/// What tests of the values of the entries go by.
#[derive(Drop)]
pub struct Tables {
    /// For each letter where the values stand in its matrix: an identity has no table.
    pub letters: Listing<Option<LetterTable>>,
    /// The coefficients of each assumption modulo the modulus.
    pub assumptions: Listing<Listing<u32>>,
    /// Those of each claim.
    pub claims: Listing<Listing<u32>>,
}

/// The tables of the shape.
pub(crate) fn tables_of(
    alloc: Global,
    problem: &Problem,
    shape: &Shape,
) -> Result<Tables, AllocError>
    requires { IsShape (object_count problem.now.parts.quiver) shape.now }
    ensures { IfOk result (AreTables problem.now shape.now) }
{
    let parts = &problem.parts;
    let letters = letter_tables(alloc, &parts.quiver, shape)?;
    let assumptions = residues_of_each(alloc, shape.modulus, parts.assumptions.as_slice())?;
    let claims = residues_of_each(alloc, shape.modulus, parts.claims.as_slice())?;
    Ok(Tables {
        letters,
        assumptions,
        claims,
    })
}

// The coefficients of each of the polynomials modulo the modulus.
fn residues_of_each(
    alloc: Global,
    modulus: u32,
    polys: &[Poly],
) -> Result<Listing<Listing<u32>>, AllocError>
    requires { 0 < modulus }
    ensures { IfOk result (λ each. each ≡ map (λ p. residues modulus p.terms) polys.now) }
{
    let mut each = Listing::new(alloc);
    for poly in polys {
        each.push(residues_of(alloc, modulus, poly)?)?;
    }
    Ok(each)
}

// The coefficients of the polynomial modulo the modulus.
fn residues_of(alloc: Global, modulus: u32, poly: &Poly) -> Result<Listing<u32>, AllocError>
    requires { 0 < modulus }
    ensures { IfOk result (λ found. found ≡ residues modulus poly.now.terms) }
{
    let mut found = Listing::new(alloc);
    for place in 0..poly.terms() {
        found.push(residue_of(modulus, poly.term(place).0))?;
    }
    Ok(found)
}

/// The coefficient modulo the modulus.
pub(crate) fn residue_of(modulus: u32, coefficient: i128) -> u32
    requires { 0 < modulus }
    ensures value { result ≡ residue modulus coefficient }
    ensures below { result < modulus }
{
    let rest = (coefficient.unsigned_abs() % u128::from(modulus)) as u32;
    if coefficient < 0 {
        (modulus - rest) % modulus
    } else {
        rest
    }
}
