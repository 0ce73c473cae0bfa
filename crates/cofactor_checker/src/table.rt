//! A sum in a hash table of words: a term costs a look-up, however many words the table has.
ghost use Rattle.std.specs.Prelude.{◌≡◌, ◌+ℤ◌, ℕ, List, [], ◌∷◌, IfOk, OnOk, MatchResult};
ghost use Rattle.std.specs.BTreeMap.{IsOrdered};
ghost use Rattle.std.specs.Cmp.{IsEquivalence, partial_equiv_from_equiv};
ghost use Rattle.std.proofs.Common.{ap, sym, subst};
ghost use Rattle.std.proofs.lemmas.Cmp.{eq_by_cmp_equiv};
ghost use Rattle.std.specs.Hash as fed;
ghost use Rattle.coef_int.specs.Range.{IsCoefficient};
ghost use Rattle.coef_int.specs.Operations.{sum_of, first_overflow};
ghost use Rattle.word_core.specs.Canonical.{word_cmp, word_cmp_total};
ghost use Rattle.definitions.specs.Poly.{word_eq};
ghost use Rattle.definitions.proofs.Linear.{word_eq-true};
ghost use Rattle.nc_polynomial.specs.Collected.{coefficient_in};
ghost use Rattle.nc_polynomial.proofs.Words.{word_eq-cmp};
ghost use Rattle.cofactor_checker.specs.Running.{IsRunning, IsStoppedBy};
ghost use Rattle.cofactor_checker.specs.Table.{digest, mixed, coefficient_at, IsTable, Adds};

use coef_int::Overflow;
use lists::Stop;
use std::alloc::{AllocError, Global};
use std::collections::hash_map::Entry;
use std::collections::{BTreeMap, HashMap};
use std::hash::{Hash, Hasher};
use std::marker::Model;
use word_core::Word;

/// A word as the key of a table.
#[derive(Drop)]
pub(crate) struct Key {
    word: Word,
}

impl Model for Key {
    ghost use Rattle.std.specs.Prelude.{List, ℕ};

    ghost Value = { List ℕ };

    ghost view = { λ k. k.word };
}

impl PartialEq for Key {
    ghost eq = { word_eq };

    ghost laws = { partial_equiv_from_equiv (subst IsEquivalence (λ i v w. sym (word_eq-cmp v w) i) (eq_by_cmp_equiv word_cmp_total)) };

    fn eq(&self, other: &Key) -> bool {
        are_same(&self.word, &other.word)
    }
}

impl Eq for Key {
    ghost laws = { subst IsEquivalence (λ i v w. sym (word_eq-cmp v w) i) (eq_by_cmp_equiv word_cmp_total) };
}

impl Hash for Key {
    ghost hash_input = { λ w. fed.u64 (digest w) };

    ghost respects_eq = { λ v w same. ap (λ x. fed.u64 (digest x)) (word_eq-true v w same) };

    fn hash<H: Hasher>(&self, state: &mut H) {
        state.write_u64(digest(&self.word));
    }
}

// An odd number near 2^64 divided by the golden ratio.
const FACTOR: u64 = 0x9e37_79b9_7f4a_7c15;

// The number of a word with a letter more. Its upper half is mixed into the lower one, so that no sums of letters tell which words
// have one number.
fn mixed(digest: u64, letter: u64) -> u64
    ensures { result ≡ mixed digest letter }
{
    let sum = digest.wrapping_mul(FACTOR).wrapping_add(letter);
    sum ^ (sum >> 32)
}

// The number by which a word is hashed: one pass over its letters, and one write to the hasher.
fn digest(word: &Word) -> u64
    ensures { result ≡ digest word.now }
{
    let mut digest = 0u64;
    for place in 0..word.len() {
        digest = mixed(digest, u64::from(word.letter(place).0));
    }
    digest
}

// Whether two words have the same letters, which is quicker to tell than their order.
fn are_same(word: &Word, other: &Word) -> bool
    ensures { result ≡ word_eq word.now other.now }
{
    let length = word.len();
    if length != other.len() {
        return false;
    }
    for place in 0..length {
        if word.letter(place) != other.letter(place) {
            return false;
        }
    }
    true
}

/// Adds to the coefficient of a word, and takes the word out where that becomes zero.
pub(crate) fn add_term(
    table: &mut HashMap<Key, i128>,
    coefficient: i128,
    word: Word,
) -> Result<(), Stop<Overflow>>
    requires kept { IsTable table.old }
    requires coefficient_in { IsCoefficient coefficient }
    ensures kept { IsTable table.new }
    ensures added { OnOk result (Adds table.old table.new ((coefficient, word) ∷ [])) }
    ensures exact { MatchResult result (λ _. IsCoefficient (coefficient_at table.old word +ℤ coefficient))
        (IsStoppedBy (first_overflow (sum_of (coefficient_at table.old word) coefficient ∷ []))) }
{
    if coefficient == 0 {
        return Ok(());
    }
    match table.entry(Key { word })? {
        Entry::Vacant(entry) => {
            entry.insert(coefficient);
        }
        Entry::Occupied(mut entry) => {
            let total = coef_int::plus(*entry.get(), coefficient).map_err(Stop::Fault)?;
            if total == 0 {
                entry.remove();
            } else {
                entry.insert(total);
            }
        }
    }
    Ok(())
}

/// The same sum in the order of the words.
pub(crate) fn in_order(
    alloc: Global,
    table: HashMap<Key, i128>,
) -> Result<BTreeMap<Word, i128>, AllocError>
    requires { IsTable table }
    ensures running { IfOk result IsRunning }
    ensures ordered { IfOk result (IsOrdered word_cmp) }
    ensures same { IfOk result (λ sum. (w : List ℕ) → coefficient_in sum w ≡ coefficient_at table w) }
{
    let mut sum = BTreeMap::new(alloc);
    for (key, coefficient) in table {
        sum.insert(key.word, coefficient)?;
    }
    Ok(sum)
}
