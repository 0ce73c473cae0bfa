//! Sums of two polynomials: one term is inserted at its place, and more are merged.
ghost use Rattle.std.specs.Prelude.{◌≡◌, ◌<◌, [], ◌∷◌, length, MatchResult, Ok};
ghost use Rattle.std.specs.List.{HoldsAt};
ghost use Rattle.std.specs.List.Sorted.{IsBinarySearchResult, IsSearchInRange};
ghost use Rattle.coef_int.specs.Range.{IsCoefficient};
ghost use Rattle.word_core.specs.Canonical.{word_cmp};
ghost use Rattle.nc_polynomial.specs.Arithmetic.{sum_result};
ghost use Rattle.nc_polynomial.specs.Faults.{checked, Explains};
ghost use Rattle.nc_polynomial.specs.Shape.{IsShaped};
ghost use Rattle.nc_polynomial.specs.Terms.{added, sums};

use lists::Listing;
use nc_polynomial::{Poly, PolyFault, merge_terms};
use std::alloc::Global;
use std::cmp::Ordering;
use word_core::Word;

/// The sum, or its first fault. The terms of both are moved and not copied.
pub(crate) fn add(alloc: Global, left: Poly, right: Poly) -> Result<Poly, PolyFault>
    ensures { MatchResult result (λ p. sum_result left.terms right.terms ≡ Ok p.terms) (Explains (sum_result left.terms right.terms)) }
{
    let terms = add_terms(alloc, left.terms, right.terms)?;
    Poly::from_descending(terms)
}

fn add_terms(
    alloc: Global,
    left: Listing<(i128, Word)>,
    right: Listing<(i128, Word)>,
) -> Result<Listing<(i128, Word)>, PolyFault>
    requires left { IsShaped left }
    requires right { IsShaped right }
    ensures { let sum = checked (sums left right) (added left right) in
        MatchResult result (λ terms. sum ≡ Ok terms) (Explains sum) }
{
    if right.len() != 1 {
        return merge_terms(alloc, left, right);
    }
    let term = right.into_vec().remove(0);
    add_term(left.into_vec(), term)
}

// The terms and one more: its word is looked up, and the terms after it are moved as a whole.
fn add_term(
    mut terms: Vec<(i128, Word)>,
    term: (i128, Word),
) -> Result<Listing<(i128, Word)>, PolyFault>
    requires shaped { IsShaped terms.items }
    requires nonzero { IsShaped (term ∷ []) }
    ensures { let sum = checked (sums terms.items (term ∷ [])) (added terms.items (term ∷ [])) in
        MatchResult result (λ terms. sum ≡ Ok terms) (Explains sum) }
{
    match place_of(&terms, &term.1) {
        Ok(place) => add_at(terms, place, term),
        Err(place) => {
            terms.insert(place, term)?;
            Ok(Listing::from_vec(terms))
        }
    }
}

// The place of the word, or the one where it would be inserted.
fn place_of(terms: &[(i128, Word)], word: &Word) -> Result<usize, usize>
    ensures in_range { IsSearchInRange result (length terms.now) }
    ensures place { IsBinarySearchResult (λ t. word_cmp word.now t.1) terms.now result }
{
    terms.binary_search_by(|term| word.cmp_degree(&term.1))
}

// The terms with this added to the coefficient of the one at this place, which is removed where that becomes zero.
fn add_at(
    mut terms: Vec<(i128, Word)>,
    place: usize,
    term: (i128, Word),
) -> Result<Listing<(i128, Word)>, PolyFault>
    requires shaped { IsShaped terms.items }
    requires in_range { IsCoefficient term.0 }
    requires place { place < length terms.items }
    requires word { HoldsAt (λ t. word_cmp term.1 t.1 ≡ Ordering.Equal) terms.items place }
    ensures { let sum = checked (sums terms.items (term ∷ [])) (added terms.items (term ∷ [])) in
        MatchResult result (λ terms. sum ≡ Ok terms) (Explains sum) }
{
    let (coefficient, word) = term;
    let total = coef_int::plus(terms[place].0, coefficient)?;
    if total == 0 {
        terms.remove(place);
    } else {
        terms[place] = (total, word);
    }
    Ok(Listing::from_vec(terms))
}
