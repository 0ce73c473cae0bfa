//! Matrices whose entries are below a modulus.

ghost use Rattle.std.specs.Prelude.{◌≡◌, ◌≢◌, ◌↔◌, ℕ, ◌<◌, ◌≤◌, ◌^◌, length, Some, All, IfOk, IfNone, IsTrue, IsErrOf, refl};
ghost use Rattle.matrix_models.specs.Matrix.{entry_at, matrix_of, first_too_large, IsModulus, IsSide, HasShape, IsMatrix};
ghost use Rattle.matrix_models.specs.Matrices.{IsObject};
ghost use Rattle.matrix_models.specs.declared.fault.MatrixFault.TheVariants.{BadShape, EntryTooLarge};

use crate::MatrixFault;
use lists::Duplicate;
use std::alloc::{AllocError, Global};
use std::marker::Model;

/// The greatest modulus.
pub const MODULUS_LIMIT: u32 = 2_147_483_647;

/// The greatest side.
pub const SIDE_LIMIT: u32 = 64;

/// A matrix over the integers modulo a number from 2 to 2^31 - 1, with sides from 1 to 64. Its entries are below the modulus.
#[derive(Drop)]
pub struct Matrix {
    modulus: u32,
    rows: u32,
    columns: u32,
    // row by row
    entries: Vec<u32>,
}

impl Model for Matrix {
    ghost use Rattle.matrix_models.specs.Matrix.{Matrix as MatrixValue, IsMatrix};

    ghost Value = { MatrixValue };

    ghost view = { λ a. record { modulus = a.modulus; rows = a.rows; columns = a.columns; entries = a.entries.items } };

    ghost invariant = { λ a. IsMatrix a.modulus (record { modulus = a.modulus; rows = a.rows; columns = a.columns; entries = a.entries.items }) };
}

impl Matrix {
    /// The matrix with these entries, row by row. The modulus is from 2 to 2^31 - 1.
    ///
    /// `BadShape` comes exactly where a side isn't from 1 to 64 or the number of entries isn't rows times columns,
    /// and `EntryTooLarge` exactly where, else, an entry isn't below the modulus, with the first such place.
    pub fn new(
        alloc: Global,
        modulus: u32,
        rows: u32,
        columns: u32,
        entries: &[u32],
    ) -> Result<Matrix, MatrixFault>
        requires { IsModulus modulus }
        ensures made { IfOk result (λ a. a ≡ record { modulus = modulus; rows = rows; columns = columns; entries = entries.now }) }
        ensures is_matrix { IfOk result (IsMatrix modulus) }
        ensures bad_shape { IsErrOf result BadShape ↔ (¬ HasShape rows columns (length entries.now)) }
        ensures entry_too_large { (place : ℕ) → IsErrOf result (EntryTooLarge place)
            ↔ (HasShape rows columns (length entries.now) × (first_too_large modulus entries.now ≡ Some place)) }
    {
        if !has_shape(rows, columns, entries.len()) {
            return Err(MatrixFault::BadShape);
        }
        if let Some(place) = place_too_large(modulus, entries) {
            return Err(MatrixFault::EntryTooLarge { place });
        }
        match Vec::from_slice(alloc, entries) {
            Ok(entries) => Ok(Matrix {
                modulus,
                rows,
                columns,
                entries,
            }),
            Err(failed) => Err(MatrixFault::Memory(failed)),
        }
    }

    // The matrix whose entry in each row and column is what `entry` answers there.
    pub(crate) fn build<F: Fn(u32, u32) -> u32>(
        alloc: Global,
        modulus: u32,
        rows: u32,
        columns: u32,
        entry: F,
    ) -> Result<Matrix, AllocError>
        requires rows_side { IsObject modulus rows }
        requires columns_side { IsObject modulus columns }
        requires callable { (row column : ℕ) → row < rows → column < columns → F.pre entry row column }
        requires below { (row column value : ℕ) → row < rows → column < columns → F.post entry row column value → value < modulus }
        ensures { IfOk result (λ a. (f : ℕ → ℕ → ℕ)
            → ((row column value : ℕ) → row < rows → column < columns → F.post entry row column value → value ≡ f row column)
            → a ≡ matrix_of modulus rows columns f) }
    {
        let mut entries = Vec::with_capacity(alloc, (rows * columns) as usize)?;
        for row in 0..rows {
            for column in 0..columns {
                entries.push(entry(row, column))?;
            }
        }
        Ok(Matrix {
            modulus,
            rows,
            columns,
            entries,
        })
    }

    /// The entry in this row and column, both counted from 0.
    pub fn entry(&self, row: u32, column: u32) -> u32
        requires row_in_range { row < self.now.rows }
        requires column_in_range { column < self.now.columns }
        ensures value { result ≡ entry_at self.now row column }
        ensures below { result < self.now.modulus }
    {
        self.entries[row as usize * self.columns as usize + column as usize]
    }

    /// The modulus of the matrix.
    pub fn modulus(&self) -> u32
        ensures value { result ≡ self.now.modulus }
        ensures is_matrix { IsMatrix self.now.modulus self.now }
    {
        self.modulus
    }

    /// The number of rows.
    pub fn rows(&self) -> u32
        ensures { result ≡ self.now.rows }
    {
        self.rows
    }

    /// The number of columns.
    pub fn columns(&self) -> u32
        ensures { result ≡ self.now.columns }
    {
        self.columns
    }

    // Whether the two have the same modulus, sides and entries.
    pub(crate) fn is_same(&self, other: &Matrix) -> bool
        ensures { IsTrue result ↔ (self.now ≡ other.now) }
    {
        self.modulus == other.modulus
            && self.rows == other.rows
            && self.columns == other.columns
            && self.entries.as_slice() == other.entries.as_slice()
    }
}

impl Duplicate for Matrix {
    fn duplicate(&self) -> Result<Matrix, AllocError> {
        Ok(Matrix {
            modulus: self.modulus,
            rows: self.rows,
            columns: self.columns,
            entries: self.entries.clone()?,
        })
    }
}

// Whether matrices with these sides have so many entries.
fn has_shape(rows: u32, columns: u32, count: usize) -> bool
    ensures { IsTrue result ↔ HasShape rows columns count }
{
    (1..=SIDE_LIMIT).contains(&rows)
        && (1..=SIDE_LIMIT).contains(&columns)
        && count == rows as usize * columns as usize
}

// The first place at which an entry isn't below the modulus.
fn place_too_large(modulus: u32, entries: &[u32]) -> Option<usize>
    ensures first { result ≡ first_too_large modulus entries.now }
    ensures absent { IfNone result (All (λ entry. entry < modulus) entries.now) }
{
    entries.iter().position(|entry| *entry >= modulus)
}
