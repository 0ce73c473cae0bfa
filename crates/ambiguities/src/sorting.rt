//! Ambiguities with their overlap words, in order: each overlap word is measured once.
ghost use Rattle.std.specs.Prelude.{◌≡◌, ◌≢◌, ◌+◌, ◌<◌, ◌^◌, map, slice_index_or, Contains, IfOk, OnOk};
ghost use Rattle.std.specs.List.{All, AllPairs};
ghost use Rattle.std.specs.List.Sorted.{IsPermutation, IsSorted};
ghost use Rattle.word_core.specs.Letters.{IsOver};
ghost use Rattle.ambiguities.specs.Ambiguities.{IsAmbiguity};
ghost use Rattle.ambiguities.specs.Order.{AreInOrder};
ghost use Rattle.ambiguities.specs.Keys.{front_of, key_of, key_cmp};

use crate::key::Key;
use crate::order::compare_canonically;
use crate::{Ambiguity, Waiting, overlap_word};
use rule_reduce::Rules;
use std::alloc::{AllocError, Global};
use std::cmp::Ordering;
use word_core::Word;
use word_orders::WordOrder;

/// Ambiguities of the rules with their overlap words, by these, then by the first rule, then the second, overlaps before
/// inclusions, then by the place, ascending. No ambiguity is given twice.
pub fn in_order<O: WordOrder>(
    alloc: Global,
    rules: &Rules<O>,
    found: &[Ambiguity],
) -> Result<Vec<Waiting>, AllocError>
    requires of_rules { All (IsAmbiguity rules.now.rules) found.now }
    requires distinct { AllPairs (λ a b. a ≢ b) found.now }
    ensures { IfOk result (λ items. AreInOrder (O.compare rules.now.order) rules.now.rules (Contains found.now) items.items) }
{
    let mut keys = make_keys(alloc, rules, found)?;
    sort_keys(&mut keys)?;
    take_waiting(alloc, keys)
}

// The word's letter at a place, or 0 where it has none there.
fn letter_at(word: &Word, place: usize) -> u64
    ensures exact { result ≡ slice_index_or word.now place 0 }
    ensures below { result < 65536 }
{
    if place < word.len() {
        u64::from(word.letter(place).0)
    } else {
        0
    }
}

// The number of the word's first letters.
fn front(word: &Word) -> u64
    ensures exact { result ≡ front_of word.now }
    ensures over { IsOver (2 ^ 16) word.now }
{
    // its clause bounds the length of the word
    let _ = word.len();
    let first = letter_at(word, 0) * 65536 + letter_at(word, 1);
    let second = letter_at(word, 2) * 65536 + letter_at(word, 3);
    first * 4294967296 + second
}

// The key of an ambiguity of the rules.
fn make_key<O: WordOrder>(rules: &Rules<O>, which: &Ambiguity) -> Result<Key, AllocError>
    requires { IsAmbiguity rules.now.rules which.now }
    ensures exact { IfOk result (λ k. k ≡ key_of (O.measure_of rules.now.order) rules.now.rules which.now) }
    ensures over { IfOk result (λ k. IsOver (2 ^ 16) k.waiting.word) }
{
    let word = overlap_word(rules, which)?;
    let measure = rules.order.measure(&word);
    let front = front(&word);
    let waiting = Waiting {
        which: *which,
        word,
    };
    Ok(Key {
        measure,
        front,
        waiting,
    })
}

// The keys of ambiguities of the rules.
fn make_keys<O: WordOrder>(
    alloc: Global,
    rules: &Rules<O>,
    found: &[Ambiguity],
) -> Result<Vec<Key>, AllocError>
    requires { All (IsAmbiguity rules.now.rules) found.now }
    ensures exact { IfOk result (λ keys. keys.items ≡ map (key_of (O.measure_of rules.now.order) rules.now.rules) found.now) }
    ensures over { IfOk result (λ keys. All (λ k. IsOver (2 ^ 16) k.waiting.word) keys.items) }
{
    let mut keys = Vec::with_capacity(alloc, found.len())?;
    for which in found {
        keys.push(make_key(rules, which)?)?;
    }
    Ok(keys)
}

// How two keys compare.
fn compare_keys(left: &Key, right: &Key) -> Ordering
    ensures { result ≡ key_cmp left.now right.now }
{
    let by_measure = left.measure.cmp(&right.measure);
    let by_length = left.waiting.word.len().cmp(&right.waiting.word.len());
    let by_front = left.front.cmp(&right.front);
    let by_numbers = by_measure.then(by_length).then(by_front);
    by_numbers.then_with(|| compare_canonically(&left.waiting, &right.waiting))
}

// Sorts the keys.
fn sort_keys(keys: &mut Vec<Key>) -> Result<(), AllocError>
    ensures permutation { IsPermutation keys.old.items keys.new.items }
    ensures sorted { OnOk result (IsSorted key_cmp keys.new.items) }
{
    keys.sort_by(|left, right| compare_keys(left, right))
}

// The ambiguities of the keys, which are moved.
fn take_waiting(alloc: Global, keys: Vec<Key>) -> Result<Vec<Waiting>, AllocError>
    ensures { IfOk result (λ items. items.items ≡ map (λ k. k.waiting) keys.items) }
{
    let mut items = Vec::with_capacity(alloc, keys.len())?;
    for key in keys {
        items.push(key.waiting)?;
    }
    Ok(items)
}
