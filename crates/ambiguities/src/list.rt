//! The list of all ambiguities of rules, each once and in order.

ghost use Rattle.std.specs.Prelude.{◌≡◌, ◌↔◌, ◌≤◌, ◌<◌, ◌+◌, ◌^◌, map, length, Contains, IfOk, OnOk};
ghost use Rattle.std.specs.List.{All, AllPairs};
ghost use Rattle.nc_polynomial.specs.Limits.{word_limit};
ghost use Rattle.ambiguities.specs.Agreement.{HasMarks, first_of, IsAgreement};
ghost use Rattle.ambiguities.specs.Ambiguities.{lead_at};
ghost use Rattle.ambiguities.specs.Listed.{IsBefore, ListsExactly, IsAmbiguityFrom, IsOfFirst, IsOfPair, IsGrown};

use crate::marks::{MARKS, first_letters, has_mark, marks_of};
use crate::places::agree;
use crate::{Ambiguity, Kind};
use lists::Listing;
use rule_reduce::{Rule, Rules, rule_with};
use std::alloc::{AllocError, Global};
use word_core::Word;
use word_orders::WordOrder;

/// The ambiguities in which the number of a rule is at least `from`, each once: by the first rule, then the second,
/// overlaps before inclusions, then by the place, ascending.
pub fn between<O: WordOrder>(rules: &Rules<O>, from: u32) -> Result<Listing<Ambiguity>, AllocError>
    ensures members { IfOk result (λ found. (a : Ambiguity) → Contains found a ↔ IsAmbiguityFrom from rules.now.rules a) }
    ensures ascending { IfOk result (AllPairs IsBefore) }
{
    list_all(rules.rules.allocator(), rules.rules.as_slice(), from)
}

// Those of all first rules.
fn list_all(alloc: Global, rules: &[Rule], from: u32) -> Result<Listing<Ambiguity>, AllocError>
    requires few { length rules.now < 2 ^ 32 }
    requires short { All (λ g. length g.lead ≤ word_limit) rules.now }
    requires nonempty { All (λ g. 0 < length g.lead) rules.now }
    ensures { IfOk result (ListsExactly IsBefore (IsAmbiguityFrom from rules.now)) }
{
    let firsts = first_letters(alloc, rules)?;
    let mut found = Listing::new(alloc);
    for i in 1..=rules.len() as u32 {
        push_first(&mut found, rules, firsts.as_slice(), from, i)?;
    }
    Ok(found)
}

// Those with this first rule. Second rules are skipped by the first letters of their leading words.
fn push_first(
    found: &mut Listing<Ambiguity>,
    rules: &[Rule],
    firsts: &[u16],
    from: u32,
    i: u32,
) -> Result<(), AllocError>
    requires few { length rules.now < 2 ^ 32 }
    requires short { All (λ g. length g.lead ≤ word_limit) rules.now }
    requires nonempty { All (λ g. 0 < length g.lead) rules.now }
    requires firsts { firsts.now ≡ map (λ g. first_of g.lead) rules.now }
    requires first { 0 < i }
    requires last { i ≤ length rules.now }
    ensures { OnOk result (IsGrown (IsOfFirst from rules.now i) found.old found.new) }
{
    let marks = marks_of(&rule_with(rules, i).lead);
    let least = if i < from { from } else { 1 };
    for j in least..=rules.len() as u32 {
        push_marked(found, rules, &marks, firsts[j as usize - 1], i, j)?;
    }
    Ok(())
}

// Those of two rules, by the marks of the letters of the first one's leading word and the first letter of the second one's.
fn push_marked(
    found: &mut Listing<Ambiguity>,
    rules: &[Rule],
    marks: &[bool; MARKS],
    first_letter: u16,
    i: u32,
    j: u32,
) -> Result<(), AllocError>
    requires short { All (λ g. length g.lead ≤ word_limit) rules.now }
    requires i_first { 0 < i }
    requires i_last { i ≤ length rules.now }
    requires j_first { 0 < j }
    requires j_last { j ≤ length rules.now }
    requires marked { HasMarks marks.now (lead_at rules.now i) }
    requires some { 0 < length (lead_at rules.now j) }
    requires first { first_letter ≡ first_of (lead_at rules.now j) }
    ensures { OnOk result (IsGrown (IsOfPair rules.now i j) found.old found.new) }
{
    if !has_mark(marks, first_letter) {
        return Ok(());
    }
    push_pair(found, rules, i, j)
}

// Those of two rules: overlaps where the second word ends after the first, and inclusions where it doesn't.
fn push_pair(
    found: &mut Listing<Ambiguity>,
    rules: &[Rule],
    i: u32,
    j: u32,
) -> Result<(), AllocError>
    requires short { All (λ g. length g.lead ≤ word_limit) rules.now }
    requires i_first { 0 < i }
    requires i_last { i ≤ length rules.now }
    requires j_first { 0 < j }
    requires j_last { j ≤ length rules.now }
    ensures { OnOk result (IsGrown (IsOfPair rules.now i j) found.old found.new) }
{
    let word = &rule_with(rules, i).lead;
    let other = &rule_with(rules, j).lead;
    let pair = Pair { i, j, word, other };
    let ends = (word.len() + 1).saturating_sub(other.len());
    push_places(found, &pair, Kind::Overlap, ends.max(1), word.len())?;
    if i != j {
        push_places(found, &pair, Kind::Inclusion, 0, ends)?;
    }
    Ok(())
}

// Two rules, by their numbers, and their leading words.
#[derive(Clone, Copy)]
struct Pair<'a> {
    i: u32,
    j: u32,
    word: &'a Word,
    other: &'a Word,
}

// Those of one kind at the places from one on up to another at which the words agree.
fn push_places(
    found: &mut Listing<Ambiguity>,
    pair: &Pair,
    kind: Kind,
    low: usize,
    high: usize,
) -> Result<(), AllocError>
    requires within { high ≤ length pair.now.word.now + 1 }
    requires short { length pair.now.word.now ≤ word_limit }
    ensures { OnOk result (IsGrown (IsAgreement pair.now.i pair.now.j kind pair.now.word.now pair.now.other.now low high)
        found.old found.new) }
{
    for place in low..high {
        if agree(pair.word, pair.other, place) {
            found.push(Ambiguity {
                i: pair.i,
                j: pair.j,
                kind,
                place: place as u32,
            })?;
        }
    }
    Ok(())
}
