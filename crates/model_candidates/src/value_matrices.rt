//! Matrices of products of letters, row by row from the values of the entries.
ghost use Rattle.std.specs.Prelude.{◌≡◌, ◌+◌, ◌*◌, ◌++◌, ◌%◌, ◌<◌, ◌≤◌, true, drop, get_or, length, map, take};
ghost use Rattle.std.specs.List.{range_with_len};
ghost use Rattle.definitions.specs.Quiver.{leads};
ghost use Rattle.quiver.specs.Declarations.{object_count};
ghost use Rattle.adjoint_rules.specs.Limits.{shape_side_limit};
ghost use Rattle.model_candidates.specs.WordRows.{AreTabled, product_in, quiver_in};

use crate::entries::side_at;
use crate::shape_matrices::{Entries, ShapeMatrix};
use crate::value_rows::Sums;
use crate::word_rows::{EntryValues, Row, word_row};
use quiver::Sig;
use word_core::Word;

/// The product of the matrices of the letters from one place on to before another, which lead from the source to the target.
pub(crate) fn product_of(
    given: &EntryValues,
    word: &Word,
    from: usize,
    to: usize,
    ends: Sig,
) -> ShapeMatrix
    requires given { AreTabled given.now }
    requires order { from ≤ to }
    requires in_range { to ≤ length word.now }
    requires source { ends.source.0 < object_count given.now.problem.now.parts.quiver }
    requires target { ends.target.0 < object_count given.now.problem.now.parts.quiver }
    requires leads { leads (quiver_in given.now) ends.source.0 ends.target.0 (drop from (take to word.now)) ≡ true }
    ensures { result ≡ product_in given.now ends.source.0 (drop from (take to word.now)) }
{
    let rows = side_at(given.shape, ends.target);
    let columns = side_at(given.shape, ends.source);
    let mut entries = Entries::new();
    for row in 0..rows {
        let product = word_row(given, word, from, to, ends, row);
        push_row(&mut entries, &product, columns);
    }
    ShapeMatrix::new(given.shape.modulus, rows, columns, entries)
}

// The list with the row's first entries behind it.
fn push_row(entries: &mut Entries, row: &Row, columns: u32)
    requires side { columns ≤ shape_side_limit }
    requires room { length entries.old.items + columns ≤ shape_side_limit * shape_side_limit }
    ensures { entries.new.items ≡ entries.old.items ++ map (λ k. get_or row.now k 0) (range_with_len 0 columns) }
{
    for column in 0..columns as usize {
        entries.push(row[column]);
    }
}

/// The list with the first of these numbers behind it, modulo the modulus.
pub(crate) fn push_residues(entries: &mut Entries, modulus: u32, sums: &Sums, columns: u32)
    requires modulus { 0 < modulus }
    requires side { columns ≤ shape_side_limit }
    requires room { length entries.old.items + columns ≤ shape_side_limit * shape_side_limit }
    ensures { entries.new.items ≡ entries.old.items ++ map (λ k. get_or sums.now k 0 % modulus) (range_with_len 0 columns) }
{
    for column in 0..columns as usize {
        entries.push((sums[column] % u64::from(modulus)) as u32);
    }
}
