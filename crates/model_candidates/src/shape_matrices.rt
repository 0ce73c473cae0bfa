//! Matrices of a shape and numbers of their entries, which lie in the value itself: no memory is taken for them.
ghost use Rattle.std.specs.Prelude.{◌≡◌, ◌*◌, ◌<◌, ◌≤◌, Some, length, slice_get};
ghost use Rattle.std.specs.List.{All};
ghost use Rattle.adjoint_rules.specs.Limits.{shape_side_limit};
ghost use Rattle.matrix_models.specs.Matrix.{HasShape, IsModulus, entry_at};

use adjoint_rules::SHAPE_SIDE_LIMIT;
use arrayvec::ArrayVec;
use std::marker::Model;

// The greatest number of entries of such a matrix.
const ENTRY_LIMIT: usize = (SHAPE_SIDE_LIMIT * SHAPE_SIDE_LIMIT) as usize;

/// Entries, row by row.
pub(crate) type Entries = ArrayVec<u32, ENTRY_LIMIT>;

/// A number for each entry of a matrix of a shape, row by row.
#[derive(Drop)]
pub(crate) struct EntryNumbers {
    numbers: Entries,
}

impl Model for EntryNumbers {
    ghost use Rattle.std.specs.Prelude.{ℕ, List};

    ghost Value = { List ℕ };

    ghost view = { λ n. n.numbers.items };
}

impl EntryNumbers {
    // These numbers.
    pub(crate) fn copy_of(numbers: &[u32]) -> EntryNumbers
        requires { length numbers.now ≤ shape_side_limit * shape_side_limit }
        ensures { result ≡ numbers.now }
    {
        let mut copy = Entries::new();
        for number in numbers {
            copy.push(*number);
        }
        EntryNumbers { numbers: copy }
    }

    // The number at this place, counted from 0.
    pub(crate) fn at(&self, place: usize) -> &u32
        requires { place < length self.now }
        ensures { slice_get self.now place ≡ Some result.now }
    {
        &self.numbers.as_slice()[place]
    }
}

/// A matrix whose sides are those of objects of a shape.
#[derive(Drop)]
pub(crate) struct ShapeMatrix {
    modulus: u32,
    rows: u32,
    columns: u32,
    entries: Entries,
}

impl Model for ShapeMatrix {
    ghost use Rattle.matrix_models.specs.Matrix.{Matrix as MatrixValue, IsMatrix};

    ghost Value = { MatrixValue };

    ghost view = { λ a. record { modulus = a.modulus; rows = a.rows; columns = a.columns; entries = a.entries.items } };

    ghost invariant = { λ a. IsMatrix a.modulus (record { modulus = a.modulus; rows = a.rows; columns = a.columns; entries = a.entries.items }) };
}

impl ShapeMatrix {
    // The matrix with these entries, which fit it.
    pub(crate) fn new(modulus: u32, rows: u32, columns: u32, entries: Entries) -> ShapeMatrix
        requires modulus { IsModulus modulus }
        requires shape { HasShape rows columns (length entries.items) }
        requires below { All (λ entry. entry < modulus) entries.items }
        ensures { result ≡ record { modulus = modulus; rows = rows; columns = columns; entries = entries.items } }
    {
        ShapeMatrix {
            modulus,
            rows,
            columns,
            entries,
        }
    }

    // The modulus of the matrix.
    pub(crate) fn modulus(&self) -> u32
        ensures { result ≡ self.now.modulus }
    {
        self.modulus
    }

    // The number of rows.
    pub(crate) fn rows(&self) -> u32
        ensures { result ≡ self.now.rows }
    {
        self.rows
    }

    // The number of columns.
    pub(crate) fn columns(&self) -> u32
        ensures { result ≡ self.now.columns }
    {
        self.columns
    }

    // The entry in this row and column, both counted from 0.
    pub(crate) fn entry(&self, row: u32, column: u32) -> u32
        requires row_in_range { row < self.now.rows }
        requires column_in_range { column < self.now.columns }
        ensures value { result ≡ entry_at self.now row column }
        ensures below { result < self.now.modulus }
    {
        self.entries.as_slice()[(row * self.columns + column) as usize]
    }
}
