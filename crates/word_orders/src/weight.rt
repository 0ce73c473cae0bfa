//! The order of words by the sums of their letters' weights.

ghost use Rattle.std.specs.Prelude.{◌≡◌, ◌≤◌, ◌*◌, ℕ, length, replicate, set, sum_by, MatchResult, IfOk, OnOk, OnErr, Some, None};
ghost use Rattle.std.specs.Prelude.{false, refl};
ghost use Rattle.std.proofs.lemmas.Bool.{false≢true};
ghost use Rattle.word_orders.specs.Faults.{entry_fault, Explains, HasNoFault};
ghost use Rattle.word_orders.specs.Limits.{weight_limit};
ghost use Rattle.word_orders.specs.Tables.{weight_in, fault_in};
ghost use Rattle.word_orders.specs.Lists.{weight_of};
ghost use Rattle.word_orders.specs.Measured.{weight_cmp, weight_rank};
ghost use Rattle.word_core.proofs.MeasuredLaws.{weight_cmp-admissible};

use crate::{OrderFault, WordOrder};
use std::alloc::{AllocError, Global};
use std::cmp::Ordering;
use std::marker::Model;
use word_core::{Letter, Word};

/// The greatest weight of a letter.
pub const WEIGHT_LIMIT: u32 = 1000;

/// The order by the sum of the letters' weights, and canonically where two sums are equal.
#[derive(Drop)]
pub struct WeightLex {
    // The weights of the list, in the order of the letters' numbers.
    weights: Vec<Option<u32>>,
}

impl Model for WeightLex {
    ghost use Rattle.std.specs.Prelude.{List, ℕ, Option};
    ghost use Rattle.word_orders.specs.Tables.{IsWithinWeights};

    ghost Value = { List (Option ℕ) };

    ghost view = { λ o. o.weights.items };

    ghost invariant = { λ o. IsWithinWeights o.weights.items };
}

impl WeightLex {
    /// The order by these weights, for words over the letters below `letters`. A letter that isn't listed weighs 1.
    /// The fault is that of the first entry that has one: that its number is no letter's, else that its letter is
    /// listed before, else that its weight is 0 or above 1,000.
    pub fn new(
        alloc: Global,
        weights: &[(Letter, u32)],
        letters: u32,
    ) -> Result<WeightLex, OrderFault>
        ensures weights { IfOk result (λ o. (letter : ℕ) → weight_in o letter ≡ weight_of weights.now letter) }
        ensures letters { IfOk result (λ o. length o ≡ letters) }
        ensures first_fault { MatchResult result (λ _. HasNoFault (entry_fault letters) weights.now)
            (Explains (entry_fault letters) weights.now) }
    {
        let mut order = WeightLex::empty(alloc, letters)?;
        for entry in weights {
            order.put(entry)?;
        }
        Ok(order)
    }

    // The order in which no letter has a weight of its own.
    fn empty(alloc: Global, letters: u32) -> Result<WeightLex, AllocError>
        ensures { IfOk result (λ o. o ≡ replicate letters None) }
    {
        Ok(WeightLex {
            weights: vec![in alloc; None; letters as usize]?,
        })
    }

    // Gives a letter its weight, unless the letter has one or the entry is none of a list of weights; then nothing changes.
    fn put(&mut self, entry: &(Letter, u32)) -> Result<(), OrderFault>
        ensures ok { OnOk result (self.new ≡ set self.old entry.now.0.0 (Some entry.now.1)) }
        ensures fault { MatchResult result (λ _. fault_in self.old entry.now ≡ None)
            (λ fault. fault_in self.old entry.now ≡ Some fault) }
        ensures err { OnErr result (self.new ≡ self.old) }
    {
        let (letter, weight) = *entry;
        let number = usize::from(letter.0);
        match self.weights.get(number) {
            None => Err(OrderFault::NoSuchLetter { letter }),
            Some(Some(_)) => Err(OrderFault::RepeatedLetter { letter }),
            Some(None) if weight == 0 || weight > WEIGHT_LIMIT => {
                Err(OrderFault::BadWeight { letter })
            }
            Some(None) => {
                self.weights[number] = Some(weight);
                Ok(())
            }
        }
    }

    // The sum of the weights of the word's letters.
    fn sum(&self, word: &Word) -> u128
        ensures exact { result ≡ sum_by (weight_in self.now) word.now }
        ensures within { result ≤ length word.now * weight_limit }
    {
        let mut sum = 0;
        for place in 0..word.len() {
            sum += u128::from(self.weight(word.letter(place)));
        }
        sum
    }

    // The weight of a letter.
    fn weight(&self, letter: Letter) -> u32
        ensures exact { result ≡ weight_in self.now letter.0 }
        ensures within { result ≤ weight_limit }
    {
        match self.weights.get(usize::from(letter.0)) {
            Some(Some(weight)) => *weight,
            _ => 1,
        }
    }
}

impl WordOrder for WeightLex {
    ghost compare = { λ o. weight_cmp (weight_in o) };

    ghost letters = { λ o. length o };

    ghost rank = { λ o. weight_rank (weight_in o) (length o) };

    ghost measure_of = { λ o. sum_by (weight_in o) };

    ghost is_plain = { λ _. false };

    fn cmp(&self, left: &Word, right: &Word) -> Ordering {
        let by_weight = self.sum(left).cmp(&self.sum(right));
        by_weight.then_with(|| left.cmp_degree(right))
    }

    fn measure(&self, word: &Word) -> u32 {
        self.sum(word) as u32
    }

    fn is_canonical(&self) -> bool {
        false
    }

    ghost admissible = { λ o. weight_cmp-admissible (weight_in o) (length o) };

    ghost by_measure = { λ _ u v. refl };

    ghost unmeasured = { λ _ w plain. absurd (false≢true plain) };
}
