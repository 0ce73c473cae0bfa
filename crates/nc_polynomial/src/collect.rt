//! Sums of terms in any order.
ghost use Rattle.std.specs.Prelude.{◌≡◌, ◌+ℤ◌, ℕ, List, [], ◌∷◌, IfOk, OnOk, MatchResult, Ok};
ghost use Rattle.std.specs.List.{All};
ghost use Rattle.std.specs.BTreeMap.{IsOrdered};
ghost use Rattle.coef_int.specs.Range.{IsCoefficient};
ghost use Rattle.coef_int.specs.Operations.{sum_of};
ghost use Rattle.definitions.specs.Poly.{SamePolynomial, coefficient_of};
ghost use Rattle.word_core.specs.Canonical.{word_cmp};
ghost use Rattle.nc_polynomial.specs.Faults.{Explains, checked};
ghost use Rattle.nc_polynomial.specs.Collected.{collection_result, coefficient_in};

use crate::table::descending;
use crate::{Poly, PolyFault};
use std::alloc::Global;
use std::collections::BTreeMap;
use word_core::Word;

impl Poly {
    /// The sum of terms in any order, in which a word may occur more than once. The terms are added one by
    /// one, each to the coefficient that its word has so far, which is the left operand. `Overflow` is the
    /// first such sum that is no coefficient; `Size` is returned exactly where none is and the result is too large.
    pub fn from_terms(alloc: Global, terms: &[(i128, Word)]) -> Result<Poly, PolyFault>
        requires { All (λ t. IsCoefficient t.0) terms.now }
        ensures exact { MatchResult result (λ r. collection_result terms.now ≡ Ok r.terms) (Explains (collection_result terms.now)) }
        ensures sum { IfOk result (λ r. SamePolynomial r.terms terms.now) }
    {
        let mut table = BTreeMap::new(alloc);
        for term in terms {
            add_term(&mut table, term.0, &term.1)?;
        }
        Poly::from_descending(descending(alloc, table)?)
    }
}

// Adds to the coefficient of a word.
fn add_term(
    table: &mut BTreeMap<Word, i128>,
    coefficient: i128,
    word: &Word,
) -> Result<(), PolyFault>
    requires coefficient_in { IsCoefficient coefficient }
    requires table_in { (w : List ℕ) → IsCoefficient (coefficient_in table.old w) }
    ensures exact { MatchResult result (λ _. IsCoefficient (coefficient_in table.old word.now +ℤ coefficient))
        (Explains (checked (sum_of (coefficient_in table.old word.now) coefficient ∷ []) coefficient)) }
    ensures added { OnOk result ((w : List ℕ) → coefficient_in table.new w ≡ coefficient_of ((coefficient, word.now) ∷ []) w +ℤ coefficient_in table.old w) }
    ensures ordered { OnOk result (IsOrdered word_cmp table.new) }
{
    let sum = match table.get_mut(word) {
        None => {
            table.insert(word.copy()?, coefficient)?;
            return Ok(());
        }
        Some(sum) => sum,
    };
    *sum = coef_int::plus(*sum, coefficient)?;
    Ok(())
}
