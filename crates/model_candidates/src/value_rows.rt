//! Whether values of polynomials are zero, by the values of the entries: no matrix is made.
ghost use Rattle.std.specs.Prelude.{◌≡◌, ◌↔◌, ◌+◌, ◌*◌, ◌%◌, ◌<◌, ◌≤◌, ℕ, get_or, length, IsTrue};
ghost use Rattle.std.specs.List.{All};
ghost use Rattle.definitions.specs.Quiver.{IsTyped};
ghost use Rattle.definitions.specs.Soundness.{HasValueZeroAt};
ghost use Rattle.quiver.specs.Declarations.{object_count};
ghost use Rattle.adjoint_rules.specs.Limits.{shape_side_limit};
ghost use Rattle.matrix_models.specs.Matrix.{IsModulus, entry_at};
ghost use Rattle.matrix_models.specs.Matrices.{matrices};
ghost use Rattle.model_checker.specs.Representations.{representation_of};
ghost use Rattle.model_candidates.specs.Candidates.{side_in};
ghost use Rattle.model_candidates.specs.Residues.{residues};
ghost use Rattle.model_candidates.specs.WordRows.{AreTabled, model_in, quiver_in, value_in};

use crate::entries::side_at;
use crate::word_rows::{EntryValues, Row, add_product, word_row};
use adjoint_rules::SHAPE_SIDE_LIMIT;
use nc_polynomial::Poly;
use quiver::Sig;

/// The entries in a row, up to multiples of the modulus.
pub(crate) type Sums = [u64; SHAPE_SIDE_LIMIT as usize];

/// Whether the value of the polynomial at the signature is zero. Its rows are made one after another, up to the first that
/// isn't zero.
pub(crate) fn is_zero(given: &EntryValues, poly: &Poly, coefficients: &[u32], ends: Sig) -> bool
    requires given { AreTabled given.now }
    requires source { ends.source.0 < object_count given.now.problem.now.parts.quiver }
    requires target { ends.target.0 < object_count given.now.problem.now.parts.quiver }
    requires typed { IsTyped (quiver_in given.now) ends.source.0 ends.target.0 poly.now.terms }
    requires coefficients { coefficients.now ≡ residues given.now.shape.now.modulus poly.now.terms }
    ensures { IsTrue result ↔ HasValueZeroAt (matrices given.now.shape.now.modulus) (quiver_in given.now)
        (representation_of (quiver_in given.now) (model_in given.now)) ends.source.0 ends.target.0 poly.now.terms }
{
    for row in 0..side_at(given.shape, ends.target) {
        if !is_row_zero(given, poly, coefficients, ends, row) {
            return false;
        }
    }
    true
}

// Whether this row of the value is zero.
fn is_row_zero(given: &EntryValues, poly: &Poly, coefficients: &[u32], ends: Sig, row: u32) -> bool
    requires given { AreTabled given.now }
    requires source { ends.source.0 < object_count given.now.problem.now.parts.quiver }
    requires target { ends.target.0 < object_count given.now.problem.now.parts.quiver }
    requires typed { IsTyped (quiver_in given.now) ends.source.0 ends.target.0 poly.now.terms }
    requires coefficients { coefficients.now ≡ residues given.now.shape.now.modulus poly.now.terms }
    requires row { row < side_in given.now.shape.now ends.target.0 }
    ensures { IsTrue result ↔ ((k : ℕ) → k < side_in given.now.shape.now ends.source.0
        → entry_at (value_in given.now ends.source.0 ends.target.0 poly.now.terms) row k ≡ 0) }
{
    let modulus = u64::from(given.shape.modulus);
    let sums = row_sums(given, poly, coefficients, ends, row);
    for column in 0..side_at(given.shape, ends.source) {
        if sums[column as usize] % modulus != 0 {
            return false;
        }
    }
    true
}

// The entries in this row of the value, up to multiples of the modulus.
fn row_sums(given: &EntryValues, poly: &Poly, coefficients: &[u32], ends: Sig, row: u32) -> Sums
    requires given { AreTabled given.now }
    requires source { ends.source.0 < object_count given.now.problem.now.parts.quiver }
    requires target { ends.target.0 < object_count given.now.problem.now.parts.quiver }
    requires typed { IsTyped (quiver_in given.now) ends.source.0 ends.target.0 poly.now.terms }
    requires coefficients { coefficients.now ≡ residues given.now.shape.now.modulus poly.now.terms }
    requires row { row < side_in given.now.shape.now ends.target.0 }
    ensures { (k : ℕ) → k < side_in given.now.shape.now ends.source.0 → get_or result k 0 % given.now.shape.now.modulus
        ≡ entry_at (value_in given.now ends.source.0 ends.target.0 poly.now.terms) row k }
{
    let modulus = u64::from(given.shape.modulus);
    let columns = side_at(given.shape, ends.source);
    let mut sums = [0; SHAPE_SIDE_LIMIT as usize];
    for place in 0..poly.terms() {
        let word = poly.term(place).1;
        let product = word_row(given, word, 0, word.len(), ends, row);
        add_multiple(modulus, columns, &mut sums, coefficients[place], &product);
    }
    sums
}

/// Adds a multiple of the row's first entries.
pub(crate) fn add_multiple(modulus: u64, columns: u32, sums: &mut [u64], times: u32, row: &Row)
    requires modulus { IsModulus modulus }
    requires size { length sums.old ≡ shape_side_limit }
    requires columns { columns ≤ shape_side_limit }
    requires times { times < modulus }
    requires row_below { All (λ entry. entry < modulus) row.now }
    requires sums_below { All (λ sum. sum < modulus * modulus) sums.old }
    ensures size { length sums.new ≡ shape_side_limit }
    ensures below { All (λ sum. sum < modulus * modulus) sums.new }
    ensures each { (k : ℕ) → k < columns
        → get_or sums.new k 0 % modulus ≡ (get_or sums.old k 0 + times * get_or row.now k 0) % modulus }
{
    for column in 0..columns as usize {
        sums[column] = add_product(modulus, sums[column], times, row[column]);
    }
}
