//! The order of words by the numbers of letters of a block.

ghost use Rattle.std.specs.Prelude.{◌≡◌, ℕ, length, replicate, set, count_by, MatchResult, IfOk, OnOk, OnErr, Some, None};
ghost use Rattle.std.specs.Prelude.{true, false, refl};
ghost use Rattle.std.proofs.lemmas.Bool.{false≢true};
ghost use Rattle.word_orders.specs.Faults.{block_fault, Explains, HasNoFault};
ghost use Rattle.word_orders.specs.Tables.{is_in, fault_in_block};
ghost use Rattle.word_orders.specs.Lists.{is_listed};
ghost use Rattle.word_orders.specs.Measured.{block_cmp, block_rank};
ghost use Rattle.word_core.proofs.MeasuredLaws.{block_cmp-admissible};

use crate::{OrderFault, WordOrder};
use std::alloc::{AllocError, Global};
use std::cmp::Ordering;
use std::marker::Model;
use word_core::{Letter, Word};

/// The order by the number of letters of a block, and canonically where two numbers are equal.
#[derive(Drop)]
pub struct BlockLex {
    // Whether each letter is in the block, in the order of the letters' numbers.
    block: Vec<bool>,
}

impl Model for BlockLex {
    ghost use Rattle.std.specs.Prelude.{List, Bool};

    ghost Value = { List Bool };

    ghost view = { λ o. o.block.items };
}

impl BlockLex {
    /// The order by this block, for words over the letters below `letters`. The fault is that of the first letter that
    /// has one: that its number is no letter's, or else that it is listed before.
    pub fn new(alloc: Global, block: &[Letter], letters: u32) -> Result<BlockLex, OrderFault>
        ensures block { IfOk result (λ o. (letter : ℕ) → is_in o letter ≡ is_listed block.now letter) }
        ensures letters { IfOk result (λ o. length o ≡ letters) }
        ensures first_fault { MatchResult result (λ _. HasNoFault (block_fault letters) block.now)
            (Explains (block_fault letters) block.now) }
    {
        let mut order = BlockLex::empty(alloc, letters)?;
        for letter in block {
            order.put(*letter)?;
        }
        Ok(order)
    }

    // The order in which no letter is in the block.
    fn empty(alloc: Global, letters: u32) -> Result<BlockLex, AllocError>
        ensures { IfOk result (λ o. o ≡ replicate letters false) }
    {
        Ok(BlockLex {
            block: vec![in alloc; false; letters as usize]?,
        })
    }

    // Puts a letter into the block, unless it is there or is no letter; then nothing changes.
    fn put(&mut self, letter: Letter) -> Result<(), OrderFault>
        ensures ok { OnOk result (self.new ≡ set self.old letter.0 true) }
        ensures fault { MatchResult result (λ _. fault_in_block self.old letter ≡ None)
            (λ fault. fault_in_block self.old letter ≡ Some fault) }
        ensures err { OnErr result (self.new ≡ self.old) }
    {
        let number = usize::from(letter.0);
        match self.block.get(number) {
            None => Err(OrderFault::NoSuchLetter { letter }),
            Some(true) => Err(OrderFault::RepeatedLetter { letter }),
            Some(false) => {
                self.block[number] = true;
                Ok(())
            }
        }
    }

    // How many letters of the word are in the block.
    fn count(&self, word: &Word) -> usize
        ensures { result ≡ count_by (is_in self.now) word.now }
    {
        let mut count = 0;
        for place in 0..word.len() {
            if self.has(word.letter(place)) {
                count += 1;
            }
        }
        count
    }

    // Whether the letter is in the block.
    fn has(&self, letter: Letter) -> bool
        ensures { result ≡ is_in self.now letter.0 }
    {
        match self.block.get(usize::from(letter.0)) {
            Some(is_in_block) => *is_in_block,
            None => false,
        }
    }
}

impl WordOrder for BlockLex {
    ghost compare = { λ o. block_cmp (is_in o) };

    ghost letters = { λ o. length o };

    ghost rank = { λ o. block_rank (is_in o) (length o) };

    ghost measure_of = { λ o. count_by (is_in o) };

    ghost is_plain = { λ _. false };

    fn cmp(&self, left: &Word, right: &Word) -> Ordering {
        let by_block = self.count(left).cmp(&self.count(right));
        by_block.then_with(|| left.cmp_degree(right))
    }

    fn measure(&self, word: &Word) -> u32 {
        self.count(word) as u32
    }

    fn is_canonical(&self) -> bool {
        false
    }

    ghost admissible = { λ o. block_cmp-admissible (is_in o) (length o) };

    ghost by_measure = { λ _ u v. refl };

    ghost unmeasured = { λ _ w plain. absurd (false≢true plain) };
}
