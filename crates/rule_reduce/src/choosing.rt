//! The choice of a step: the greatest word that can be reduced, the least rule for it, and its leftmost place.

ghost use Rattle.std.specs.Prelude.{◌≡◌, ◌↔◌, ◌≤◌, length, take, IfOk, IfSome, IfNone, IsSomeAnd, IsTrue, None};
ghost use Rattle.std.specs.List.{All};
ghost use Rattle.std.specs.Option.{option_map};
ghost use Rattle.std.specs.declared.cmp.Ordering.TheVariants.{Greater};
ghost use Rattle.coef_int.specs.Range.{IsCoefficient};
ghost use Rattle.word_core.specs.Canonical.{word_cmp};
ghost use Rattle.word_core.specs.Letters.{IsOver};
ghost use Rattle.word_orders.specs.Admissible.{Compare};
ghost use Rattle.word_orders.specs.Limits.{measured_letters};
ghost use Rattle.nc_polynomial.specs.Shape.{IsCanonical};
ghost use Rattle.nc_polynomial.specs.Terms.{IsDescending};
ghost use Rattle.rule_index.specs.Matches.{match_of};
ghost use Rattle.rule_reduce.specs.Choices.{better_choice, choice_of, IsPlain, IsSettled};
ghost use Rattle.rule_reduce.specs.Passing.{Passes};

use crate::adding::count_above;
use crate::state::Choice;
use rule_index::Index;
use std::alloc::AllocError;
use std::marker::Model;
use word_core::Word;
use word_orders::WordOrder;

// A choice whose term is borrowed, so that a better one copies no word.
#[derive(Drop)]
struct Found<'a> {
    term: &'a (i128, Word),
    number: u32,
    place: usize,
}

impl<'a> Model for Found<'a> {
    ghost use Rattle.rule_reduce.specs.declared.state.Choice.{Choice};

    ghost Value = { Choice };

    ghost view = { λ f. record { coefficient = f.term.now.0; word = f.term.now.1; number = f.number; place = f.place } };
}

impl<'a> Found<'a> {
    // The choice with a copy of its word.
    fn choice(&self) -> Result<Choice, AllocError>
        ensures { IfOk result (λ c. c ≡ self.now) }
    {
        Ok(Choice {
            coefficient: self.term.0,
            word: self.term.1.copy()?,
            number: self.number,
            place: self.place,
        })
    }
}

// The greatest word in which a leading word occurs, the least rule for it, and its leftmost place. Words above the last
// one that was reduced are not searched again.
pub(crate) fn choose<O: WordOrder>(
    order: &O,
    index: &Index,
    last: Option<&Word>,
    terms: &[(i128, Word)],
) -> Result<Option<Choice>, AllocError>
    requires canonical { IsCanonical terms.now }
    requires over { All (λ t. IsOver (O.letters order.now) t.1) terms.now }
    requires last_short { IfSome last (λ w. length w.now ≤ measured_letters) }
    requires settled { IfSome last (λ w. All (λ t. IsSettled (O.compare order.now) index.now w.now t.1) terms.now) }
    ensures in_range { IfOk result (λ b. IfSome b (λ c. IsCoefficient c.coefficient)) }
    ensures over { IfOk result (λ b. IfSome b (λ c. IsOver (O.letters order.now) c.word)) }
    ensures short { IfOk result (λ b. IfSome b (λ c. length c.word ≤ measured_letters)) }
    ensures exact { IfOk result (λ b. b ≡ choice_of (O.compare order.now) index.now terms.now) }
{
    let above = count_above_last(terms, last);
    match best_choice(order, index, last, above, terms) {
        Some(found) => Ok(Some(found.choice()?)),
        None => Ok(None),
    }
}

// The same choice, with its term borrowed. So many of the first terms are canonically above the last word that was reduced.
fn best_choice<'a, O: WordOrder>(
    order: &O,
    index: &Index,
    last: Option<&Word>,
    above: usize,
    terms: &'a [(i128, Word)],
) -> Option<Found<'a>>
    requires canonical { IsCanonical terms.now }
    requires over { All (λ t. IsOver (O.letters order.now) t.1) terms.now }
    requires last_short { IfSome last (λ w. length w.now ≤ measured_letters) }
    requires above_in { above ≤ length terms.now }
    requires above { IfSome last (λ w. All (λ t. word_cmp t.1 w.now ≡ Greater) (take above terms.now)) }
    requires none_above { IfNone last (above ≡ 0) }
    requires settled { IfSome last (λ w. All (λ t. IsSettled (O.compare order.now) index.now w.now t.1) terms.now) }
    ensures in_range { IfSome result (λ c. IsCoefficient c.coefficient) }
    ensures over { IfSome result (λ c. IsOver (O.letters order.now) c.word) }
    ensures short { IfSome result (λ c. length c.word ≤ measured_letters) }
    ensures exact { result ≡ choice_of (O.compare order.now) index.now terms.now }
{
    if order.is_canonical() {
        return first_choice(index, terms, above);
    }
    let bound = last_measure(order, last);
    let mut best = Best {
        found: None,
        measure: 0,
    };
    for place in 0..terms.len() {
        let (better, is_last) = improve(order, index, bound, place < above, best, &terms[place]);
        best = better;
        if is_last {
            return best.found;
        }
    }
    best.found
}

// The measure of the last word that was reduced, if there is one.
fn last_measure<O: WordOrder>(order: &O, last: Option<&Word>) -> Option<u32>
    requires { IfSome last (λ w. length w.now ≤ measured_letters) }
    ensures { result ≡ option_map (λ w. O.measure_of order.now w.now) last.entry }
{
    match last {
        Some(last) => Some(order.measure(last)),
        None => None,
    }
}

// The first term from the place on that can be reduced, which in the canonical order is the greatest one.
fn first_choice<'a>(index: &Index, terms: &'a [(i128, Word)], from: usize) -> Option<Found<'a>>
    requires canonical { IsCanonical terms.now }
    requires in_range { from ≤ length terms.now }
    requires settled { All (λ t. match_of index.now t.1 ≡ None) (take from terms.now) }
    ensures { (compare : Compare) → IsPlain compare → result ≡ choice_of compare index.now terms.now }
{
    for place in from..terms.len() {
        let term = &terms[place];
        if let Some((number, place)) = index.first_match(&term.1) {
            return Some(Found {
                term,
                number,
                place,
            });
        }
    }
    None
}

// The number of the first terms that are canonically above the last word that was reduced, if there is one.
fn count_above_last(terms: &[(i128, Word)], last: Option<&Word>) -> usize
    requires descending { IsDescending terms.now }
    ensures in_range { result ≤ length terms.now }
    ensures above { IfSome last.entry (λ w. All (λ t. word_cmp t.1 w.now ≡ Greater) (take result terms.now)) }
    ensures none { IfNone last.entry (result ≡ 0) }
{
    match last {
        Some(last) => count_above(terms, last),
        None => 0,
    }
}

// The choice so far, and the measure of its word.
#[derive(Drop)]
struct Best<'a> {
    found: Option<Found<'a>>,
    measure: u32,
}

// The better of the choice so far and a term behind it, and whether no term behind is better still. The term's word is searched
// only where it is greater.
fn improve<'a, O: WordOrder>(
    order: &O,
    index: &Index,
    bound: Option<u32>,
    is_above: bool,
    best: Best<'a>,
    term: &'a (i128, Word),
) -> (Best<'a>, bool)
    requires short { length term.now.1 ≤ measured_letters }
    requires settled { IfSome bound (λ b. Passes b (O.measure_of order.now term.now.1) is_above → match_of index.now term.now.1 ≡ None) }
    requires most { IfSome best.found (λ c. best.measure ≡ O.measure_of order.now c.word) }
    requires behind { IfSome best.found (λ c. word_cmp c.word term.now.1 ≡ Greater) }
    ensures better { result.0.found ≡ better_choice (O.compare order.now) index.now best.entry.found term.now }
    ensures most { IfSome result.0.found (λ c. result.0.measure ≡ O.measure_of order.now c.word) }
    ensures last { IsTrue result.1 → IsSomeAnd bound (λ b. IsSomeAnd result.0.found (λ c. b ≤ O.measure_of order.now c.word)) }
{
    let measure = order.measure(&term.1);
    if best.found.is_some() && measure <= best.measure {
        return (best, false);
    }
    match first_match(index, bound, is_above, measure, &term.1) {
        Some((number, place)) => {
            let found = Some(Found {
                term,
                number,
                place,
            });
            (Best { found, measure }, reaches(measure, bound))
        }
        None => (best, false),
    }
}

// The first rule whose leading word occurs in the word, and its leftmost place.
fn first_match(
    index: &Index,
    bound: Option<u32>,
    is_above: bool,
    measure: u32,
    word: &Word,
) -> Option<(u32, usize)>
    requires settled { IfSome bound (λ b. Passes b measure is_above → match_of index.now word.now ≡ None) }
    ensures { result ≡ match_of index.now word.now }
{
    if passes(measure, bound, is_above) {
        return None;
    }
    index.first_match(word)
}

// Whether a measure shows that a word is greater than the last one, whose measure is the bound. Where `is_above` is set, it is
// canonically above it.
fn passes(measure: u32, bound: Option<u32>, is_above: bool) -> bool
    ensures { IsTrue result → IsSomeAnd bound (λ b. Passes b measure is_above) }
{
    match bound {
        Some(bound) => measure > bound || is_above && measure == bound,
        None => false,
    }
}

// Whether there is a last word and the measure is at least its own. Then no word canonically below that of the measure that
// can be reduced is greater.
fn reaches(measure: u32, bound: Option<u32>) -> bool
    ensures { IsTrue result → IsSomeAnd bound (λ b. b ≤ measure) }
{
    match bound {
        Some(bound) => measure >= bound,
        None => false,
    }
}
