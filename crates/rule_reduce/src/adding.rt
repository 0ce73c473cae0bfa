//! Sums of descending terms, which are made in the place of the first ones as long as few terms come and go.

ghost use Rattle.std.specs.Prelude.{◌≡◌, List, ◌↔◌, ◌+◌, ◌<◌, ◌≤◌, ◌+ℤ◌, ◌∷◌, length};
ghost use Rattle.std.specs.Prelude.{take, drop, slice_get, IfSome, IfOk, IfErr, IsOk, MatchResult, Ok};
ghost use Rattle.std.specs.List.{All};
ghost use Rattle.std.specs.List.Sorted.{IsBinarySearchResult, IsSearchInRange};
ghost use Rattle.std.specs.declared.cmp.Ordering.TheVariants.{Greater};
ghost use Rattle.coef_int.specs.Range.{IsCoefficient};
ghost use Rattle.coef_int.specs.Operations.{sum_of};
ghost use Rattle.definitions.specs.Poly.{Term};
ghost use Rattle.word_core.specs.Canonical.{word_cmp};
ghost use Rattle.nc_polynomial.specs.Shape.{IsShaped};
ghost use Rattle.nc_polynomial.specs.Terms.{IsDescending, added, sums};
ghost use Rattle.nc_polynomial.specs.Faults.{checked, Explains};
ghost use Rattle.rule_reduce.specs.Adding.{sum_from, term_at, IsPut};

use coef_int::Overflow;
use lists::Listing;
use nc_polynomial::{PolyFault, merge_terms};
use std::alloc::{AllocError, Global};
use std::collections::VecDeque;
use word_core::Word;

// How many terms come and go one by one before the others are merged.
const MOVE_LIMIT: u32 = 16;

// The sum of two descending lists, for which the first one is changed.
pub(crate) fn add_terms(
    alloc: Global,
    terms: Listing<(i128, Word)>,
    others: Listing<(i128, Word)>,
) -> Result<Listing<(i128, Word)>, PolyFault>
    requires shaped { IsShaped terms }
    requires others_in { All (λ t. IsCoefficient t.0) others }
    ensures { MatchResult result (λ v. checked (sums terms others) (added terms others) ≡ Ok v)
        (Explains (checked (sums terms others) (added terms others))) }
{
    let mut sum = terms.into_vec();
    let mut others = VecDeque::from_vec(others.into_vec());
    let place = add_in_place(&mut sum, &mut others)?;
    let rest = Listing::from_vec(others.into_vec());
    if rest.len() == 0 {
        return Ok(Listing::from_vec(sum));
    }
    let behind = Listing::from_vec(sum.split_off(place)?);
    let mut changed = merge_terms(alloc, behind, rest)?.into_vec();
    sum.append(&mut changed)?;
    Ok(Listing::from_vec(sum))
}

// Adds the first of the other terms, whose words are moved: all, unless too many come or go. The place behind the last one.
fn add_in_place(
    terms: &mut Vec<(i128, Word)>,
    others: &mut VecDeque<(i128, Word)>,
) -> Result<usize, PolyFault>
    requires shaped { IsShaped terms.old.items }
    requires others_in { All (λ t. IsCoefficient t.0) others.old.items }
    ensures in_range { IfOk result (λ place. place ≤ length terms.new.items) }
    ensures shaped { IfOk result (λ place. IsShaped (drop place terms.new.items)) }
    ensures others_in { IfOk result (λ _. All (λ t. IsCoefficient t.0) others.new.items) }
    ensures exact { MatchResult result
        (λ place. sum_from 0 terms.old.items others.old.items ≡ sum_from place terms.new.items others.new.items)
        (Explains (sum_from 0 terms.old.items others.old.items)) }
{
    let mut place = 0;
    let mut moves = 0;
    while let Some((coefficient, word)) = others.pop_front() {
        let length = terms.len();
        place = add_term(terms, place, coefficient, word)?;
        if terms.len() != length {
            moves += 1;
        }
        if moves == MOVE_LIMIT {
            return Ok(place);
        }
    }
    Ok(place)
}

// Adds a term to those from a place on. The place behind it.
fn add_term(
    terms: &mut Vec<(i128, Word)>,
    from: usize,
    coefficient: i128,
    word: Word,
) -> Result<usize, PolyFault>
    requires in_range { from ≤ length terms.old.items }
    requires shaped { IsShaped (drop from terms.old.items) }
    requires coefficient_in { IsCoefficient coefficient }
    ensures in_range { IfOk result (λ next. next ≤ length terms.new.items) }
    ensures shaped { IfOk result (λ next. IsShaped (drop next terms.new.items)) }
    ensures exact { MatchResult result
        (λ next. (q : List Term) → sum_from from terms.old.items ((coefficient, word) ∷ q) ≡ sum_from next terms.new.items q)
        (λ e. (q : List Term) → Explains (sum_from from terms.old.items ((coefficient, word) ∷ q)) e) }
{
    match place_of(&terms[from..], &word) {
        Ok(place) => Ok(add_at(terms, from + place, coefficient)?),
        Err(place) => Ok(put_at(terms, from + place, coefficient, word)?),
    }
}

// The place of the word, or else the one at which it would stand.
fn place_of(terms: &[(i128, Word)], word: &Word) -> Result<usize, usize>
    ensures in_range { IsSearchInRange result (length terms.now) }
    ensures place { IsBinarySearchResult (λ t. word_cmp word.now t.1) terms.now result }
{
    terms.binary_search_by(|term| word.cmp_degree(&term.1))
}

// Adds to the coefficient of the term at the place, which goes where that makes zero. The place behind it.
fn add_at(terms: &mut Vec<(i128, Word)>, place: usize, value: i128) -> Result<usize, Overflow>
    requires in_range { place < length terms.old.items }
    requires term_in { IsCoefficient (term_at terms.old.items place).0 }
    requires value_in { IsCoefficient value }
    ensures put { IfOk result (λ next. IsPut (take place terms.old.items) ((term_at terms.old.items place).0 +ℤ value)
        (term_at terms.old.items place).1 (drop (place + 1) terms.old.items) next terms.new.items) }
    ensures fits { IsOk result ↔ IsCoefficient ((term_at terms.old.items place).0 +ℤ value) }
    ensures operands { IfErr result (λ e. e ≡ sum_of (term_at terms.old.items place).0 value) }
{
    let total = coef_int::plus(terms[place].0, value)?;
    if total == 0 {
        terms.remove(place);
        return Ok(place);
    }
    terms[place].0 = total;
    Ok(place + 1)
}

// Puts the term in at the place, unless its coefficient is zero. The place behind it.
fn put_at(
    terms: &mut Vec<(i128, Word)>,
    place: usize,
    coefficient: i128,
    word: Word,
) -> Result<usize, AllocError>
    requires { place ≤ length terms.old.items }
    ensures { IfOk result (λ next. IsPut (take place terms.old.items) coefficient word (drop place terms.old.items) next
        terms.new.items) }
{
    if coefficient == 0 {
        return Ok(place);
    }
    terms.insert(place, (coefficient, word))?;
    Ok(place + 1)
}

// The number of the first terms that are above the word.
pub(crate) fn count_above(terms: &[(i128, Word)], word: &Word) -> usize
    requires descending { IsDescending terms.now }
    ensures in_range { result ≤ length terms.now }
    ensures above { All (λ t. word_cmp t.1 word.now ≡ Greater) (take result terms.now) }
{
    terms.partition_point(|term| term.1.cmp_degree(word).is_gt())
}
