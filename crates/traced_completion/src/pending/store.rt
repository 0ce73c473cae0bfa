//! The ordered store of pending ambiguities.
ghost use Rattle.std.specs.Prelude.{◌≡◌, ◌+◌, ◌<◌, ◌≤◌, [], length, take, IfOk, OnOk, OnErr, slice_get, Some};
ghost use Rattle.std.specs.List.{All, AllPairs};
ghost use Rattle.std.specs.Option.{option_copied};
ghost use Rattle.word_core.specs.Letters.{IsOver};
ghost use Rattle.ambiguities.specs.Listed.{IsAmbiguityFrom};
ghost use Rattle.ambiguities.specs.Order.{AreInOrder};
ghost use Rattle.traced_completion.specs.Blocks.{IsUpTo};
ghost use Rattle.traced_completion.specs.Pending.{IsNextStore, ambiguities_of, first_word};

use super::block::Block;
use super::blocks::{at_place, renew};
use ambiguities::{Ambiguity, Waiting, between, in_order};
use rule_reduce::Rules;
use std::alloc::{AllocError, Global};
use std::marker::Model;
use word_core::Word;
use word_orders::WordOrder;

/// The pending ambiguities with their overlap words, in the order in which they are taken.
#[derive(Drop)]
pub struct Pending {
    blocks: Vec<Block>,
    count: usize,
}

impl Model for Pending {
    ghost use Rattle.std.specs.Prelude.{List};
    ghost use Rattle.ambiguities.specs.declared.waiting.Waiting.{Waiting};
    ghost use Rattle.std.specs.Prelude.{◌≡◌, ◌<◌, length};
    ghost use Rattle.std.specs.List.{All};
    ghost use Rattle.traced_completion.specs.Blocks.{joined};

    ghost Value = { List Waiting };

    ghost view = { λ p. joined p.blocks.items };

    ghost invariant = { λ p. (p.count ≡ length (joined p.blocks.items)) × All (λ b. 0 < length b) p.blocks.items };
}

impl Pending {
    /// Nothing is pending. It takes no memory.
    pub fn new(alloc: Global) -> Pending
        ensures { result ≡ [] }
    {
        Pending {
            blocks: Vec::new(alloc),
            count: 0,
        }
    }

    /// The number of pending ambiguities.
    pub fn len(&self) -> usize
        ensures { result ≡ length self.now }
    {
        self.count
    }

    /// The pending ambiguity at this place, counted from 0.
    pub fn at(&self, place: usize) -> &Waiting
        requires { place < length self.now }
        ensures { slice_get self.now place ≡ Some result.now }
    {
        at_place(self.blocks.as_slice(), place)
    }

    /// The first `count` ambiguities.
    pub fn first(&self, alloc: Global, count: usize) -> Result<Vec<Ambiguity>, AllocError>
        requires { count ≤ length self.now }
        ensures { IfOk result (λ first. first.items ≡ ambiguities_of (take count self.now)) }
    {
        let mut first = Vec::with_capacity(alloc, count)?;
        for place in 0..count {
            first.push(self.at(place).which)?;
        }
        Ok(first)
    }

    /// The least overlap word, or None where nothing is pending.
    pub fn least(&self) -> Option<&Word>
        ensures { option_copied result ≡ first_word self.now }
    {
        match self.blocks.first() {
            Some(block) => Some(&block.as_slice()[0].word),
            None => None,
        }
    }

    /// The store after a round in which its first `taken` ambiguities were treated, and all rules after the first `known`
    /// were appended. Where memory is short, the store is unchanged.
    pub fn advance<O: WordOrder>(
        &mut self,
        rules: &Rules<O>,
        known: u32,
        taken: usize,
    ) -> Result<(), AllocError>
        requires taken { taken ≤ length self.old }
        requires over { All (λ w. IsOver (O.letters rules.now.order) w.word) self.old }
        ensures ok { OnOk result (IsNextStore (O.compare rules.now.order) rules.now.rules known taken self.old self.new) }
        ensures over { OnOk result (All (λ w. IsOver (O.letters rules.now.order) w.word) self.new) }
        ensures err { OnErr result (self.new ≡ self.old) }
    {
        let others = new_waiting(*self.blocks.allocator(), rules, known)?;
        let rest = self.count - taken;
        match rest.checked_add(others.len()) {
            Some(count) => {
                renew(&rules.order, &mut self.blocks, taken, others)?;
                self.count = count;
                Ok(())
            }
            None => Err(AllocError),
        }
    }
}

// The ambiguities of which one rule is after the known ones, with their overlap words, in order.
fn new_waiting<O: WordOrder>(
    alloc: Global,
    rules: &Rules<O>,
    known: u32,
) -> Result<Vec<Waiting>, AllocError>
    ensures new { IfOk result (λ items. AreInOrder (O.compare rules.now.order) rules.now.rules (IsAmbiguityFrom (known + 1) rules.now.rules) items.items) }
    ensures sorted { IfOk result (λ items. AllPairs (IsUpTo (O.compare rules.now.order)) items.items) }
    ensures over { IfOk result (λ items. All (λ w. IsOver (O.letters rules.now.order) w.word) items.items) }
{
    if known as usize >= rules.rules.len() {
        return Ok(Vec::new(alloc));
    }
    let found = between(rules, known + 1)?;
    in_order(alloc, rules, found.as_slice())
}
