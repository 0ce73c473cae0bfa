//! Matrices over the integers modulo a number, as an involutive category.

ghost use Rattle.std.specs.Prelude.{◌≡◌, ◌+◌, ◌-◌, ◌*◌, ◌%◌, ◌<◌, ◌≤◌};
ghost use Rattle.matrix_models.specs.Limits.{modulus_limit};
ghost use Rattle.matrix_models.specs.Matrix.{entry_at, IsMatrix};
ghost use Rattle.matrix_models.specs.Matrices.{matrices, transpose, total};
ghost use Rattle.matrix_models.specs.Laws.{matrices_laws, transpose_laws};

use crate::Matrix;
use category_laws::{Category, Involutive, Preadditive};
use std::alloc::{AllocError, Global};

/// The matrices over the integers modulo a number from 2 to 2^31 - 1. An object is a side from 1 to 64, and a map from U to V
/// has as many rows as the side of V and as many columns as the side of U.
#[derive(Clone, Copy)]
pub struct Matrices {
    pub modulus: u32,
}

impl Preadditive for Matrices {
    type Object = u32;

    type Arrow = Matrix;

    ghost structure = { λ c. matrices c.modulus };

    ghost laws = { λ c. matrices_laws c.modulus };
}

impl Category for Matrices {
    fn source(&self, _alloc: Global, arrow: &Matrix) -> Result<u32, AllocError> {
        Ok(arrow.columns())
    }

    fn target(&self, _alloc: Global, arrow: &Matrix) -> Result<u32, AllocError> {
        Ok(arrow.rows())
    }

    fn identity(&self, alloc: Global, object: &u32) -> Result<Matrix, AllocError> {
        let side = *object;
        Matrix::build(alloc, self.modulus, side, side, |row, column| {
            u32::from(row == column)
        })
    }

    fn zero(&self, alloc: Global, source: &u32, target: &u32) -> Result<Matrix, AllocError> {
        Matrix::build(alloc, self.modulus, *target, *source, |_row, _column| 0)
    }

    fn add(&self, alloc: Global, left: &Matrix, right: &Matrix) -> Result<Matrix, AllocError> {
        let modulus = self.modulus;
        Matrix::build(alloc, modulus, left.rows(), left.columns(), |row, column| {
            sum_of(modulus, left.entry(row, column), right.entry(row, column))
        })
    }

    fn negate(&self, alloc: Global, arrow: &Matrix) -> Result<Matrix, AllocError> {
        let modulus = self.modulus;
        Matrix::build(
            alloc,
            modulus,
            arrow.rows(),
            arrow.columns(),
            |row, column| { negative_of(modulus, arrow.entry(row, column)) },
        )
    }

    fn compose(&self, alloc: Global, after: &Matrix, first: &Matrix) -> Result<Matrix, AllocError> {
        Matrix::build(
            alloc,
            self.modulus,
            after.rows(),
            first.columns(),
            |row, column| { product_entry(after, first, row, column) },
        )
    }

    fn same(&self, left: &Matrix, right: &Matrix) -> bool {
        left.is_same(right)
    }
}

impl Involutive for Matrices {
    ghost involution = { λ c. transpose c.modulus };

    ghost involution_laws = { λ c. transpose_laws c.modulus };

    fn adjoint(&self, alloc: Global, arrow: &Matrix) -> Result<Matrix, AllocError> {
        Matrix::build(
            alloc,
            self.modulus,
            arrow.columns(),
            arrow.rows(),
            |row, column| { arrow.entry(column, row) },
        )
    }
}

// The sum of two numbers below the modulus, modulo it.
fn sum_of(modulus: u32, left: u32, right: u32) -> u32
    requires modulus { modulus ≤ modulus_limit }
    requires left_below { left < modulus }
    requires right_below { right < modulus }
    ensures value { result ≡ (left + right) % modulus }
    ensures below { result < modulus }
{
    let sum = left + right;
    if sum < modulus { sum } else { sum - modulus }
}

// The negative of a number below the modulus, modulo it.
fn negative_of(modulus: u32, number: u32) -> u32
    requires { number < modulus }
    ensures value { result ≡ (modulus - number) % modulus }
    ensures below { result < modulus }
{
    if number == 0 { 0 } else { modulus - number }
}

// The entry in this row and column of the product. Its sum is reduced once.
fn product_entry(left: &Matrix, right: &Matrix, row: u32, column: u32) -> u32
    requires fits { left.now.columns ≡ right.now.rows }
    requires one_modulus { left.now.modulus ≡ right.now.modulus }
    requires row_in_range { row < left.now.rows }
    requires column_in_range { column < right.now.columns }
    ensures value { result ≡ total left.now.columns (λ k. entry_at left.now row k * entry_at right.now k column) % left.now.modulus }
    ensures below { result < left.now.modulus }
{
    let modulus = u64::from(left.modulus());
    let mut sum = 0;
    for k in 0..left.columns() {
        sum = add_product(modulus, sum, left.entry(row, k), right.entry(k, column));
    }
    (sum % modulus) as u32
}

/// The sum with the product of two numbers below the modulus, up to a multiple of it, and below its square as the sum is.
pub(crate) fn add_product(modulus: u64, sum: u64, left: u32, right: u32) -> u64
    requires modulus { modulus ≤ modulus_limit }
    requires sum_below { sum < modulus * modulus }
    requires left_below { left < modulus }
    requires right_below { right < modulus }
    ensures below { result < modulus * modulus }
    ensures alike { result % modulus ≡ (sum + left * right) % modulus }
{
    let square = modulus * modulus;
    let more = sum + u64::from(left) * u64::from(right);
    if more < square { more } else { more - square }
}
