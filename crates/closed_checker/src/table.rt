//! Leading words with the numbers of their rules, sorted letter by letter, and the parts of such a table.

ghost use Rattle.std.specs.Prelude.{◌≡◌, ◌<◌, ◌≤◌, ◌^◌, suc, length, filter, not, nat_lt, nat_eq, IfOk, OnOk, IsTrue};
ghost use Rattle.std.specs.Ordering.{on, nat_cmp};
ghost use Rattle.std.specs.Cmp.Lexicographic.{slice_cmp};
ghost use Rattle.std.specs.List.Sorted.{IsNonDecreasingBy, IsPermutation, IsSorted};
ghost use Rattle.ambiguities.specs.Listed.{ListsExactly};
ghost use Rattle.closed_checker.specs.Table.{IsLeadOf, IsTableOf, IsRankPoint, rank_at};

use lists::Listing;
use rule_reduce::Rule;
use std::alloc::{AllocError, Global};
use word_core::Word;

/// The leading word of a rule, letter by letter, with the number of the rule.
#[derive(Drop)]
pub(crate) struct Lead {
    pub letters: Listing<u16>,
    pub number: u32,
}

// The leading words of the rules, sorted.
pub(crate) fn make_table(alloc: Global, rules: &[Rule]) -> Result<Vec<Lead>, AllocError>
    requires { length rules.now < 2 ^ 32 }
    ensures { IfOk result (λ table. IsTableOf rules.now table.items) }
{
    let mut leads = list_leads(alloc, rules)?;
    sort_leads(&mut leads)?;
    Ok(leads)
}

// The leading words of the rules, by their numbers.
fn list_leads(alloc: Global, rules: &[Rule]) -> Result<Vec<Lead>, AllocError>
    requires { length rules.now < 2 ^ 32 }
    ensures { IfOk result (λ leads. ListsExactly (λ a b. a.number < b.number) (IsLeadOf rules.now) leads.items) }
{
    let mut leads = Vec::with_capacity(alloc, rules.len())?;
    for rule in rules {
        let number = leads.len() as u32 + 1;
        let letters = letters_of(alloc, &rule.lead)?;
        leads.push(Lead { letters, number })?;
    }
    Ok(leads)
}

// The letters of the word.
fn letters_of(alloc: Global, word: &Word) -> Result<Listing<u16>, AllocError>
    ensures { IfOk result (λ letters. letters ≡ word.now) }
{
    let mut letters = Listing::with_room(alloc, word.len())?;
    for place in 0..word.len() {
        letters.push(word.letter(place).0)?;
    }
    Ok(letters)
}

// Puts the leading words into the order of their letters, from the left.
fn sort_leads(leads: &mut Vec<Lead>) -> Result<(), AllocError>
    ensures permutation { IsPermutation leads.old.items leads.new.items }
    ensures sorted { OnOk result (IsSorted (on (λ l. l.letters) (slice_cmp nat_cmp)) leads.new.items) }
{
    leads.sort_by(|left, right| left.letters.as_slice().cmp(&right.letters.as_slice()))
}

// One more than the letter at the depth, and 0 where the word ends before it.
fn rank(letters: &[u16], depth: usize) -> u32
    ensures { result ≡ rank_at depth letters.now }
{
    match letters.get(depth) {
        Some(letter) => u32::from(*letter) + 1,
        None => 0,
    }
}

// Whether the rank of the last one, and so of each, is below the bound.
fn are_below(leads: &[Lead], depth: usize, bound: u32) -> bool
    requires { IsNonDecreasingBy (λ l. rank_at depth l.letters) leads.now }
    ensures { IsTrue result → IsRankPoint depth bound leads.now (length leads.now) }
{
    match leads.last() {
        Some(last) => rank(last.letters.as_slice(), depth) < bound,
        None => true,
    }
}

// Whether the rank of the first one, and so of each, isn't.
fn are_past(leads: &[Lead], depth: usize, bound: u32) -> bool
    requires { IsNonDecreasingBy (λ l. rank_at depth l.letters) leads.now }
    ensures { IsTrue result → IsRankPoint depth bound leads.now 0 }
{
    match leads.first() {
        Some(first) => rank(first.letters.as_slice(), depth) >= bound,
        None => true,
    }
}

// How many have a rank below the bound. Where all have, or none has, the ends tell it.
fn count_below(leads: &[Lead], depth: usize, bound: u32) -> usize
    requires { IsNonDecreasingBy (λ l. rank_at depth l.letters) leads.now }
    ensures within { result ≤ length leads.now }
    ensures point { IsRankPoint depth bound leads.now result }
{
    if are_below(leads, depth, bound) {
        return leads.len();
    }
    if are_past(leads, depth, bound) {
        return 0;
    }
    leads.partition_point(|lead| rank(lead.letters.as_slice(), depth) < bound)
}

// Those whose rank at the depth is below the bound, and the others.
fn split(leads: &[Lead], depth: usize, bound: u32) -> (&[Lead], &[Lead])
    requires { IsNonDecreasingBy (λ l. rank_at depth l.letters) leads.now }
    ensures below { result.0.now ≡ filter (λ l. nat_lt (rank_at depth l.letters) bound) leads.now }
    ensures others { result.1.now ≡ filter (λ l. not (nat_lt (rank_at depth l.letters) bound)) leads.now }
{
    leads.split_at(count_below(leads, depth, bound))
}

// Those that end at the depth, and the longer ones.
pub(crate) fn split_ended(leads: &[Lead], depth: usize) -> (&[Lead], &[Lead])
    requires { IsNonDecreasingBy (λ l. rank_at depth l.letters) leads.now }
    ensures ended { result.0.now ≡ filter (λ l. nat_eq (rank_at depth l.letters) 0) leads.now }
    ensures longer { result.1.now ≡ filter (λ l. not (nat_eq (rank_at depth l.letters) 0)) leads.now }
{
    split(leads, depth, 1)
}

// Those that have the letter at the depth.
pub(crate) fn narrow(leads: &[Lead], depth: usize, letter: u16) -> &[Lead]
    requires { IsNonDecreasingBy (λ l. rank_at depth l.letters) leads.now }
    ensures { result.now ≡ filter (λ l. nat_eq (rank_at depth l.letters) (suc letter)) leads.now }
{
    let least = u32::from(letter) + 1;
    let (_, from_letter) = split(leads, depth, least);
    let (with_letter, _) = split(from_letter, depth, least + 1);
    with_letter
}
