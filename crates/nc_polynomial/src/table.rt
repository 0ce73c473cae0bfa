//! A sum in an ordered map of words: a term costs a look-up, and never a pass over the sum so far.
ghost use Rattle.std.specs.Prelude.{◌≡◌, ◌≤◌, ◌+ℤ◌, [], ◌∷◌, length, IfOk, OnOk, MatchResult, Ok};
ghost use Rattle.std.specs.List.{All};
ghost use Rattle.std.specs.BTreeMap.{IsOrdered};
ghost use Rattle.coef_int.specs.Range.{IsCoefficient};
ghost use Rattle.coef_int.specs.Operations.{sum_of, first_overflow};
ghost use Rattle.word_core.specs.Canonical.{word_cmp};
ghost use Rattle.nc_polynomial.specs.Arithmetic.{sum_result};
ghost use Rattle.nc_polynomial.specs.Collected.{coefficient_in};
ghost use Rattle.nc_polynomial.specs.Faults.{Explains, checked};
ghost use Rattle.nc_polynomial.specs.Limits.{word_limit};
ghost use Rattle.nc_polynomial.specs.Running.{IsRunning, Adds, terms_in};
ghost use Rattle.nc_polynomial.specs.Shape.{IsShaped};
ghost use Rattle.nc_polynomial.specs.Stops.{IsStoppedBy};
ghost use Rattle.nc_polynomial.specs.Terms.{added, sums};

use crate::push::push_nonzero;
use crate::size::TERM_LIMIT;
use crate::{PolyFault, SizeFault};
use coef_int::Overflow;
use lists::{Listing, Stop};
use std::alloc::{AllocError, Global};
use std::collections::BTreeMap;
use std::collections::btree_map::Entry;
use word_core::Word;

/// Adds to the coefficient of a word, and removes the word where that becomes zero.
pub fn add_term(
    table: &mut BTreeMap<Word, i128>,
    coefficient: i128,
    word: Word,
) -> Result<(), Stop<Overflow>>
    requires running { IsRunning table.old }
    requires ordered { IsOrdered word_cmp table.old }
    requires coefficient_in { IsCoefficient coefficient }
    ensures running { IsRunning table.new }
    ensures ordered { IsOrdered word_cmp table.new }
    ensures added { OnOk result (Adds table.old table.new ((coefficient, word) ∷ [])) }
    ensures exact { MatchResult result (λ _. IsCoefficient (coefficient_in table.old word +ℤ coefficient))
        (IsStoppedBy (first_overflow (sum_of (coefficient_in table.old word) coefficient ∷ []))) }
{
    if coefficient == 0 {
        return Ok(());
    }
    match table.entry(word)? {
        Entry::Vacant(entry) => {
            entry.insert(coefficient);
        }
        Entry::Occupied(mut entry) => {
            let total = coef_int::plus(*entry.get(), coefficient).map_err(Stop::Fault)?;
            if total == 0 {
                entry.remove();
            } else {
                entry.insert(total);
            }
        }
    }
    Ok(())
}

// Adds descending terms, whose words are moved. `Overflow` is the first sum, in descending order, that is no
// coefficient, with that of the table as its left operand.
pub(crate) fn add_terms(
    table: &mut BTreeMap<Word, i128>,
    terms: Listing<(i128, Word)>,
) -> Result<(), PolyFault>
    requires running { IsRunning table.old }
    requires ordered { IsOrdered word_cmp table.old }
    requires shaped { IsShaped terms }
    ensures running { IsRunning table.new }
    ensures ordered { IsOrdered word_cmp table.new }
    ensures exact { MatchResult result (λ _. checked (sums (terms_in table.old) terms) (added (terms_in table.old) terms) ≡ Ok
        (terms_in table.new)) (Explains (checked (sums (terms_in table.old) terms) (added (terms_in table.old) terms))) }
{
    for (coefficient, word) in terms.into_vec() {
        add_term(table, coefficient, word)?;
    }
    Ok(())
}

// Adds descending terms with at most 500 letters to a sum of such terms, and refuses a sum of more than 20,000.
pub(crate) fn add_within(
    table: &mut BTreeMap<Word, i128>,
    terms: Listing<(i128, Word)>,
) -> Result<(), PolyFault>
    requires running { IsRunning table.old }
    requires ordered { IsOrdered word_cmp table.old }
    requires short_sum { All (λ t. length t.1 ≤ word_limit) (terms_in table.old) }
    requires shaped { IsShaped terms }
    requires short { All (λ t. length t.1 ≤ word_limit) terms }
    ensures running { IsRunning table.new }
    ensures ordered { IsOrdered word_cmp table.new }
    ensures exact { MatchResult result (λ _. sum_result (terms_in table.old) terms ≡ Ok (terms_in table.new))
        (Explains (sum_result (terms_in table.old) terms)) }
{
    add_terms(table, terms)?;
    if table.len() > TERM_LIMIT {
        return Err(PolyFault::Size(SizeFault { letters: false }));
    }
    Ok(())
}

/// The nonzero coefficients with their words, descending.
pub fn descending(
    alloc: Global,
    mut table: BTreeMap<Word, i128>,
) -> Result<Listing<(i128, Word)>, AllocError>
    ensures { IfOk result (λ terms. terms ≡ terms_in table) }
{
    let mut terms = Listing::new(alloc);
    while let Some((word, coefficient)) = table.pop_last() {
        push_nonzero(&mut terms, coefficient, word)?;
    }
    Ok(terms)
}
