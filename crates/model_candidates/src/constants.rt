//! Values of assumptions where the entries that are solved for are 0: a term with a solved letter adds nothing to them.
ghost use Rattle.std.specs.Prelude.{◌≡◌, ◌%◌, ◌<◌, ℕ, get_or, IsTrue};
ghost use Rattle.definitions.specs.Quiver.{IsTyped};
ghost use Rattle.quiver.specs.Declarations.{object_count};
ghost use Rattle.matrix_models.specs.Matrix.{entry_at};
ghost use Rattle.model_candidates.specs.Candidates.{side_in};
ghost use Rattle.model_candidates.specs.Known.{IsKnown};
ghost use Rattle.model_candidates.specs.Plans.{has_few};
ghost use Rattle.model_candidates.specs.Residues.{residues};
ghost use Rattle.model_candidates.specs.WordRows.{quiver_in, value_in};

use crate::entries::side_at;
use crate::shape_matrices::{Entries, ShapeMatrix};
use crate::solved_terms::{Known, solved_place};
use crate::value_matrices::push_residues;
use crate::value_rows::{Sums, add_multiple};
use crate::word_rows::word_row;
use adjoint_rules::SHAPE_SIDE_LIMIT;
use nc_polynomial::Poly;
use quiver::Sig;

/// The value of the polynomial, which is linear in the solved maps, at the signature.
pub(crate) fn constant_of(
    known: &Known,
    poly: &Poly,
    coefficients: &[u32],
    ends: Sig,
) -> ShapeMatrix
    requires known { IsKnown known.now }
    requires few { IsTrue (has_few (quiver_in known.now.given) known.now.given.problem.now.parts.solved 1 poly.now.terms) }
    requires source { ends.source.0 < object_count known.now.given.problem.now.parts.quiver }
    requires target { ends.target.0 < object_count known.now.given.problem.now.parts.quiver }
    requires typed { IsTyped (quiver_in known.now.given) ends.source.0 ends.target.0 poly.now.terms }
    requires coefficients { coefficients.now ≡ residues known.now.given.shape.now.modulus poly.now.terms }
    ensures { result ≡ value_in known.now.given ends.source.0 ends.target.0 poly.now.terms }
{
    let shape = known.given.shape;
    let rows = side_at(shape, ends.target);
    let columns = side_at(shape, ends.source);
    let mut entries = Entries::new();
    for row in 0..rows {
        let sums = constant_sums(known, poly, coefficients, ends, row);
        push_residues(&mut entries, shape.modulus, &sums, columns);
    }
    ShapeMatrix::new(shape.modulus, rows, columns, entries)
}

// The entries in this row of the value, up to multiples of the modulus.
fn constant_sums(known: &Known, poly: &Poly, coefficients: &[u32], ends: Sig, row: u32) -> Sums
    requires known { IsKnown known.now }
    requires few { IsTrue (has_few (quiver_in known.now.given) known.now.given.problem.now.parts.solved 1 poly.now.terms) }
    requires source { ends.source.0 < object_count known.now.given.problem.now.parts.quiver }
    requires target { ends.target.0 < object_count known.now.given.problem.now.parts.quiver }
    requires typed { IsTyped (quiver_in known.now.given) ends.source.0 ends.target.0 poly.now.terms }
    requires coefficients { coefficients.now ≡ residues known.now.given.shape.now.modulus poly.now.terms }
    requires row { row < side_in known.now.given.shape.now ends.target.0 }
    ensures { (k : ℕ) → k < side_in known.now.given.shape.now ends.source.0 → get_or result k 0 % known.now.given.shape.now.modulus
        ≡ entry_at (value_in known.now.given ends.source.0 ends.target.0 poly.now.terms) row k }
{
    let given = &known.given;
    let modulus = u64::from(given.shape.modulus);
    let columns = side_at(given.shape, ends.source);
    let mut sums = [0; SHAPE_SIDE_LIMIT as usize];
    for place in 0..poly.terms() {
        let word = poly.term(place).1;
        if let Some(_) = solved_place(known, word) {
            continue;
        }
        let product = word_row(given, word, 0, word.len(), ends, row);
        add_multiple(modulus, columns, &mut sums, coefficients[place], &product);
    }
    sums
}
