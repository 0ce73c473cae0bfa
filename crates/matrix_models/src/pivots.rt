//! Linear equations that are taken one after another, and their greedy solution.

ghost use Rattle.std.specs.Prelude.{◌≡◌, ◌+◌, ◌-◌, ◌*◌, ◌%◌, ◌<◌, ◌≤◌, ◌∷◌, [], length, get_or, replicate, None, All, IfOk, IsTrue, IsFalse};
ghost use Rattle.definitions.specs.Moduli.{IsFieldModulus};
ghost use Rattle.matrix_models.specs.Matrices.{total};
ghost use Rattle.matrix_models.specs.Elimination.{HasNoFactor, equation_of};
ghost use Rattle.matrix_models.specs.Pivots.{no_equations, StandFor, HasRowSize, Add, AreAgainst, AreGreedyFor};

use crate::elimination::insert;
use crate::matrices::add_product;
use lists::Listing;
use std::alloc::{AllocError, Global};
use std::marker::Model;

/// What linear equations over the integers modulo a prime say, while they are added one after another.
#[derive(Drop)]
pub struct Pivots {
    modulus: u32,
    // for each unknown its pivot, where it has one
    rows: Vec<Option<Listing<u32>>>,
    // for each unknown that has a pivot a place before which the pivot's factors are 0
    firsts: Vec<usize>,
    // room for a row that isn't reduced
    wide: Vec<u64>,
}

impl Model for Pivots {
    ghost use Rattle.matrix_models.specs.Pivots.{Pivots as PivotsValue, AreRows};

    ghost Value = { PivotsValue };

    ghost view = { λ p. record { modulus = p.modulus; rows = p.rows.items } };

    ghost invariant = { λ p. AreRows (record { modulus = p.modulus; rows = p.rows.items }) p.firsts.items p.wide.items };
}

impl Pivots {
    /// The pivots for so many unknowns while there is no equation. It fails only where memory is short.
    pub fn new(alloc: Global, modulus: u32, unknowns: u32) -> Result<Pivots, AllocError>
        requires { IsFieldModulus modulus }
        ensures { IfOk result (λ pivots. StandFor pivots (no_equations modulus unknowns)) }
    {
        Ok(Pivots {
            modulus,
            rows: no_rows(alloc, unknowns)?,
            firsts: vec![in alloc; 0; unknowns as usize]?,
            wide: vec![in alloc; 0; unknowns as usize + 1]?,
        })
    }

    /// Adds an equation, whose row is its factors with its right side behind them, and tells whether there still is a
    /// solution. Where there is none, all stays as it was.
    pub fn add(&mut self, row: Vec<u32>) -> bool
        requires size { HasRowSize self.old row.items }
        requires below { All (λ entry. entry < self.old.modulus) row.items }
        ensures modulus { self.new.modulus ≡ self.old.modulus }
        ensures unknowns { length self.new.rows ≡ length self.old.rows }
        ensures added { IsTrue result → Add (equation_of row.items ∷ []) self.old self.new }
        ensures against { IsFalse result → AreAgainst (equation_of row.items ∷ []) self.old }
        ensures unchanged { IsFalse result → self.new ≡ self.old }
    {
        let (rows, firsts, wide) = (&mut self.rows, &mut self.firsts, &mut self.wide);
        insert(self.modulus, rows, firsts, wide, row)
    }

    /// The greedy solution of all equations that were added, by preferred values: from the first unknown to the last, one
    /// with no pivot takes its preferred value, and one with a pivot the value that its pivot leaves for it. It fails only
    /// where memory is short.
    pub fn values(&self, alloc: Global, prefer: &[u32]) -> Result<Listing<u32>, AllocError>
        requires size { length prefer.now ≡ length self.now.rows }
        requires below { All (λ value. value < self.now.modulus) prefer.now }
        ensures { IfOk result (AreGreedyFor self.now prefer.now) }
    {
        let mut values = Vec::with_capacity(alloc, self.rows.len())?;
        for place in 0..self.rows.len() {
            let value = match &self.rows[place] {
                Some(row) => value_left(
                    self.modulus,
                    row.as_slice(),
                    self.firsts[place],
                    values.as_slice(),
                ),
                None => prefer[place],
            };
            values.push(value)?;
        }
        Ok(Listing::from_vec(values))
    }
}

// No pivot for any unknown.
fn no_rows(alloc: Global, unknowns: u32) -> Result<Vec<Option<Listing<u32>>>, AllocError>
    ensures { IfOk result (λ v. v.items ≡ replicate unknowns None) }
{
    let mut rows = Vec::with_capacity(alloc, unknowns as usize)?;
    for _ in 0..unknowns {
        rows.push(None)?;
    }
    Ok(rows)
}

// What the values leave of the row's right side, which stands at its end, where the row has no factor before the first place.
// The sum is reduced once.
fn value_left(modulus: u32, row: &[u32], first: usize, values: &[u32]) -> u32
    requires modulus { IsFieldModulus modulus }
    requires within { length values.now < length row.now }
    requires first { first ≤ length values.now }
    requires none { HasNoFactor first row.now }
    requires small { All (λ entry. entry < modulus) row.now }
    requires values_below { All (λ value. value < modulus) values.now }
    ensures below { result < modulus }
    ensures left { (total (length values.now) (λ k. get_or row.now k 0 * get_or values.now k 0) + result) % modulus
        ≡ get_or row.now (length row.now - 1) 0 % modulus }
{
    let modulus = u64::from(modulus);
    let mut sum = 0;
    for k in first..values.len() {
        sum = add_product(modulus, sum, row[k], values[k]);
    }
    let left = u64::from(row[row.len() - 1]) + modulus - sum % modulus;
    (left % modulus) as u32
}
