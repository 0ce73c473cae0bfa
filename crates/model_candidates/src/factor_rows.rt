//! The equations that say that a value is zero, by what each unknown adds to its entries.
ghost use Rattle.std.specs.Prelude.{◌≡◌, ◌<◌, ◌+◌, ◌*◌, ◌%◌, ℕ, length, get_or, map, IfOk, IsTrue, IsFalse};
ghost use Rattle.std.specs.List.{All, range_with_len};
ghost use Rattle.matrix_models.specs.Matrix.{IsMatrix};
ghost use Rattle.matrix_models.specs.Elimination.{row_of};
ghost use Rattle.matrix_models.specs.Pivots.{Add, AreAgainst};
ghost use Rattle.model_candidates.specs.Factors.{FitsTerm, HasSides, line_factor, term_factor, terms_factor, row_with, rows_with};

use crate::shape_matrices::ShapeMatrix;
use crate::solved_terms::SolvedTerm;
use matrix_models::Pivots;
use std::alloc::{AllocError, Global};

/// Adds the equations that say that each entry of the value is zero, row by row, up to the first that contradicts those before
/// it, and tells whether there is none such. What the unknowns add to an entry is what they add in the terms.
pub(crate) fn add_rows(
    alloc: Global,
    unknowns: u32,
    value: &ShapeMatrix,
    terms: &[SolvedTerm],
    pivots: &mut Pivots,
) -> Result<bool, AllocError>
    requires value { IsMatrix value.now.modulus value.now }
    requires terms { All (FitsTerm value.now.modulus unknowns) terms.now }
    requires sides { All (HasSides value.now.rows value.now.columns) terms.now }
    requires unknowns { length pivots.old.rows ≡ unknowns }
    requires modulus { pivots.old.modulus ≡ value.now.modulus }
    ensures unknowns { length pivots.new.rows ≡ length pivots.old.rows }
    ensures modulus { pivots.new.modulus ≡ pivots.old.modulus }
    ensures added { IfOk result (λ fit. IsTrue fit → Add (rows_with unknowns value.now terms.now) pivots.old pivots.new) }
    ensures against { IfOk result (λ fit. IsFalse fit → AreAgainst (rows_with unknowns value.now terms.now) pivots.old) }
{
    for place in 0..value.rows() * value.columns() {
        let row = row_at(alloc, unknowns, value, terms, place)?;
        if !pivots.add(row) {
            return Ok(false);
        }
    }
    Ok(true)
}

// The row of the equation that says that the entry at this place is zero: the right side stands behind the factors.
fn row_at(
    alloc: Global,
    unknowns: u32,
    value: &ShapeMatrix,
    terms: &[SolvedTerm],
    place: u32,
) -> Result<Vec<u32>, AllocError>
    requires value { IsMatrix value.now.modulus value.now }
    requires terms { All (FitsTerm value.now.modulus unknowns) terms.now }
    requires sides { All (HasSides value.now.rows value.now.columns) terms.now }
    requires place { place < value.now.rows * value.now.columns }
    ensures { IfOk result (λ row. row.items ≡ row_of (row_with unknowns value.now terms.now place)) }
{
    let modulus = value.modulus();
    let (row, column) = (place / value.columns(), place % value.columns());
    let constant = value.entry(row, column);
    let factors = unknowns as usize;
    let mut equation = sums_at(alloc, modulus, factors + 1, terms, row, column)?;
    equation[factors] = (modulus - constant) % modulus;
    Ok(equation)
}

// What each of so many unknowns adds to the entry in this row and column.
fn sums_at(
    alloc: Global,
    modulus: u32,
    count: usize,
    terms: &[SolvedTerm],
    row: u32,
    column: u32,
) -> Result<Vec<u32>, AllocError>
    requires modulus { 0 < modulus }
    requires terms { All (FitsTerm modulus count) terms.now }
    requires row { All (λ t. row < t.left.rows) terms.now }
    requires column { All (λ t. column < t.right.columns) terms.now }
    ensures { IfOk result (λ sums. sums.items ≡ map (λ k. terms_factor terms.now row column k % modulus) (range_with_len 0 count)) }
{
    let mut sums = vec![in alloc; 0; count]?;
    for term in terms {
        add_products(modulus, &mut sums, term, row, column);
    }
    Ok(sums)
}

// Adds to the factor of each unknown what it adds to the entry in the term.
fn add_products(modulus: u32, factors: &mut [u32], term: &SolvedTerm, row: u32, column: u32)
    requires term { FitsTerm modulus (length factors.old) term.now }
    requires row { row < term.now.left.rows }
    requires column { column < term.now.right.columns }
    requires below { All (λ factor. factor < modulus) factors.old }
    ensures len { length factors.new ≡ length factors.old }
    ensures below { All (λ factor. factor < modulus) factors.new }
    ensures each { (k : ℕ) → k < length factors.old
        → get_or factors.new k 0 % modulus ≡ (get_or factors.old k 0 + term_factor term.now row column k) % modulus }
{
    for inner in 0..term.left.columns() {
        add_line(modulus, factors, term, row, inner, column);
    }
}

// Adds to the factor of each unknown what it adds to the entry where it stands in this row of the letter's matrix.
fn add_line(modulus: u32, factors: &mut [u32], term: &SolvedTerm, row: u32, inner: u32, column: u32)
    requires term { FitsTerm modulus (length factors.old) term.now }
    requires row { row < term.now.left.rows }
    requires inner { inner < term.now.left.columns }
    requires column { column < term.now.right.columns }
    requires below { All (λ factor. factor < modulus) factors.old }
    ensures len { length factors.new ≡ length factors.old }
    ensures below { All (λ factor. factor < modulus) factors.new }
    ensures each { (k : ℕ) → k < length factors.old → get_or factors.new k 0 % modulus
        ≡ (get_or factors.old k 0 + term.now.coefficient * line_factor term.now row column k inner term.now.right.rows) % modulus }
{
    let before = term.left.entry(row, inner);
    if before == 0 {
        return;
    }
    let times = u64::from(term.coefficient) * u64::from(before) % u64::from(modulus);
    let width = term.right.rows();
    for other in 0..width {
        let behind = term.right.entry(other, column);
        if behind == 0 {
            continue;
        }
        let number = *term.numbers.at((inner * width + other) as usize) as usize;
        factors[number] = with_multiple(modulus, factors[number], times as u32, behind);
    }
}

// The number with a multiple of another number, modulo the modulus. A multiple of 0 costs no division.
fn with_multiple(modulus: u32, number: u32, times: u32, other: u32) -> u32
    requires { number < modulus }
    ensures value { result ≡ (number + times * other) % modulus }
    ensures below { result < modulus }
{
    if other == 0 {
        return number;
    }
    let sum = u64::from(number) + u64::from(times) * u64::from(other);
    (sum % u64::from(modulus)) as u32
}
