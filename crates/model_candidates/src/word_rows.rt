//! Rows of the products of matrices of letters, by the values of the entries: no matrix is made.
ghost use Rattle.std.specs.Prelude.{◌≡◌, ◌+◌, ◌*◌, ◌%◌, ◌<◌, ◌≤◌, true, ℕ, drop, get_or, length, nat_eq, take, if◌then◌else◌};
ghost use Rattle.std.specs.List.{All};
ghost use Rattle.definitions.specs.Quiver.{leads, source, target};
ghost use Rattle.quiver.specs.Declarations.{letter_count, object_count};
ghost use Rattle.adjoint_rules.specs.Limits.{shape_side_limit};
ghost use Rattle.matrix_models.specs.Matrix.{IsModulus, entry_at};
ghost use Rattle.matrix_models.specs.Matrices.{total};
ghost use Rattle.model_candidates.specs.Candidates.{side_in};
ghost use Rattle.model_candidates.specs.LetterTables.{IsTable, value_in_table};
ghost use Rattle.model_candidates.specs.WordRows.{AreTabled, IsRow, matrix_in, product_in, quiver_in};

use crate::letter_tables::LetterTable;
use adjoint_rules::{Problem, SHAPE_SIDE_LIMIT, Shape};
use lists::Listing;
use quiver::Sig;
use word_core::{Letter, Word};

/// A row of a matrix, with zeros behind it.
pub(crate) type Row = [u32; SHAPE_SIDE_LIMIT as usize];

/// Values of the entries of a shape, and where they stand in the matrices of the letters.
#[derive(Clone, Copy)]
pub(crate) struct EntryValues<'a> {
    pub problem: &'a Problem,
    pub shape: &'a Shape,
    pub tables: &'a [Option<LetterTable>],
    pub values: &'a [u32],
}

/// A row of the product of the matrices of the letters from one place on to before another, which lead from the source to
/// the target. It is multiplied from the left, letter by letter.
pub(crate) fn word_row(
    given: &EntryValues,
    word: &Word,
    from: usize,
    to: usize,
    ends: Sig,
    row: u32,
) -> Row
    requires given { AreTabled given.now }
    requires order { from ≤ to }
    requires in_range { to ≤ length word.now }
    requires source { ends.source.0 < object_count given.now.problem.now.parts.quiver }
    requires leads { leads (quiver_in given.now) ends.source.0 ends.target.0 (drop from (take to word.now)) ≡ true }
    requires row { row < side_in given.now.shape.now ends.target.0 }
    ensures row { IsRow (product_in given.now ends.source.0 (drop from (take to word.now))) row
        (side_in given.now.shape.now ends.source.0) result }
    ensures below { All (λ entry. entry < given.now.shape.now.modulus) result }
{
    if from == to {
        return unit_row(row);
    }
    let mut product = letter_row(given, word.letter(from), row);
    for place in from + 1..to {
        product = row_times(given, &product, word.letter(place));
    }
    product
}

// The row of the matrix of a letter.
fn letter_row(given: &EntryValues, letter: Letter, row: u32) -> Row
    requires given { AreTabled given.now }
    requires letter { letter.0 < letter_count given.now.problem.now.parts.quiver }
    requires row { row < side_in given.now.shape.now (target (quiver_in given.now) letter.0) }
    ensures row { IsRow (matrix_in given.now letter.0) row
        (side_in given.now.shape.now (source (quiver_in given.now) letter.0)) result }
    ensures below { All (λ entry. entry < given.now.shape.now.modulus) result }
{
    match &given.tables[usize::from(letter.0)] {
        Some(table) => table_row(given.values, table, row),
        None => unit_row(row),
    }
}

// The row times the matrix of a letter.
fn row_times(given: &EntryValues, row: &Row, letter: Letter) -> Row
    requires given { AreTabled given.now }
    requires letter { letter.0 < letter_count given.now.problem.now.parts.quiver }
    requires below { All (λ entry. entry < given.now.shape.now.modulus) row.now }
    ensures each { (k : ℕ) → k < side_in given.now.shape.now (source (quiver_in given.now) letter.0)
        → get_or result k 0 ≡ total (side_in given.now.shape.now (target (quiver_in given.now) letter.0))
        (λ j. get_or row.now j 0 * entry_at (matrix_in given.now letter.0) j k) % given.now.shape.now.modulus }
    ensures below { All (λ entry. entry < given.now.shape.now.modulus) result }
{
    match &given.tables[usize::from(letter.0)] {
        Some(table) => table_product(given.shape.modulus, given.values, row, table),
        None => *row,
    }
}

// The row of an identity.
fn unit_row(row: u32) -> Row
    requires { row < shape_side_limit }
    ensures each { (k : ℕ) → get_or result k 0 ≡ (if nat_eq row k then 1 else 0) }
    ensures below { All (λ entry. entry < 2) result }
{
    let mut entries = [0; SHAPE_SIDE_LIMIT as usize];
    entries[row as usize] = 1;
    entries
}

// The row of the matrix with this table.
fn table_row(values: &[u32], table: &LetterTable, row: u32) -> Row
    requires table { IsTable (length values.now) table.now }
    requires row { row < table.now.rows }
    ensures each { (k : ℕ) → k < table.now.columns → get_or result k 0 ≡ value_in_table values.now table.now row k }
    ensures rest { (k : ℕ) → table.now.columns ≤ k → get_or result k 0 ≡ 0 }
{
    let mut entries = [0; SHAPE_SIDE_LIMIT as usize];
    for column in 0..table.columns {
        entries[column as usize] = value_in_table(values, table, row, column);
    }
    entries
}

// The row times the matrix with this table.
fn table_product(modulus: u32, values: &[u32], row: &Row, table: &LetterTable) -> Row
    requires modulus { IsModulus modulus }
    requires table { IsTable (length values.now) table.now }
    requires values_below { All (λ value. value < modulus) values.now }
    requires row_below { All (λ entry. entry < modulus) row.now }
    ensures each { (k : ℕ) → k < table.now.columns
        → get_or result k 0 ≡ total table.now.rows (λ j. get_or row.now j 0 * value_in_table values.now table.now j k) % modulus }
    ensures below { All (λ entry. entry < modulus) result }
{
    let mut entries = [0; SHAPE_SIDE_LIMIT as usize];
    for column in 0..table.columns {
        entries[column as usize] = product_entry(modulus, values, row, table, column);
    }
    entries
}

// The entry in this column of the row times the matrix with this table. Its sum is reduced once.
fn product_entry(modulus: u32, values: &[u32], row: &Row, table: &LetterTable, column: u32) -> u32
    requires modulus { IsModulus modulus }
    requires table { IsTable (length values.now) table.now }
    requires values_below { All (λ value. value < modulus) values.now }
    requires row_below { All (λ entry. entry < modulus) row.now }
    requires column { column < table.now.columns }
    ensures { result ≡ total table.now.rows (λ j. get_or row.now j 0 * value_in_table values.now table.now j column) % modulus }
{
    let modulus = u64::from(modulus);
    let mut sum = 0;
    for k in 0..table.rows {
        let value = value_in_table(values, table, k, column);
        sum = add_product(modulus, sum, row[k as usize], value);
    }
    (sum % modulus) as u32
}

// The value in this row and column.
fn value_in_table(values: &[u32], table: &LetterTable, row: u32, column: u32) -> u32
    requires table { IsTable (length values.now) table.now }
    requires row { row < table.now.rows }
    requires column { column < table.now.columns }
    ensures { result ≡ value_in_table values.now table.now row column }
{
    let place = *table.places.at((row * table.columns + column) as usize);
    values[place as usize]
}

/// The sum with the product of two numbers below the modulus, up to a multiple of it, and below its square as the sum is.
pub(crate) fn add_product(modulus: u64, sum: u64, left: u32, right: u32) -> u64
    requires modulus { IsModulus modulus }
    requires sum_below { sum < modulus * modulus }
    requires left_below { left < modulus }
    requires right_below { right < modulus }
    ensures below { result < modulus * modulus }
    ensures alike { result % modulus ≡ (sum + left * right) % modulus }
{
    let square = modulus * modulus;
    let more = sum + u64::from(left) * u64::from(right);
    if more < square { more } else { more - square }
}
