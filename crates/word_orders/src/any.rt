//! The order that a statement asks for, one of three.

ghost use Rattle.std.specs.Prelude.{◌≡◌, ◌≤◌, ◌^◌, ℕ, List, length, IfOk, MatchResult, refl};
ghost use Rattle.std.proofs.lemmas.Bool.{false≢true};
ghost use Rattle.word_orders.specs.Specified.{asked_cmp, IsSound, ExplainsSpec, made_cmp, letters_of, made_rank, made_measure};
ghost use Rattle.word_orders.specs.Specified.{is_made_canonical};
ghost use Rattle.word_core.proofs.CanonicalLaws.{word_cmp-admissible};
ghost use Rattle.word_core.proofs.MeasuredLaws.{weight_cmp-admissible, block_cmp-admissible};
ghost use Rattle.word_orders.specs.Tables.{is_in, weight_in};
ghost use Rattle.word_orders.specs.declared.any.AnyOrder.TheVariants as made;

use crate::{BlockLex, DegLex, OrderFault, WeightLex, WordOrder};
use lists::Listing;
use std::alloc::Global;
use std::cmp::Ordering;
use word_core::{Letter, Word};

/// What an order compares first.
#[derive(Drop)]
pub enum OrderSpec {
    /// Nothing: the canonical order.
    Degree,
    /// The sums of these weights; a letter that isn't listed weighs 1.
    Weight(Listing<(Letter, u32)>),
    /// The numbers of letters of this block.
    Block(Listing<Letter>),
}

/// One of the orders.
#[derive(Drop)]
pub enum AnyOrder {
    /// The canonical order.
    Degree(DegLex),
    /// By weights.
    Weight(WeightLex),
    /// By a block of letters.
    Block(BlockLex),
}

impl AnyOrder {
    /// The order that is asked for, for words over the letters below `letters`; no word has a letter past 65,535. The
    /// fault is that of the first item of the list that has one; for one item a number that is no letter's comes
    /// before a repetition, and that before a weight that is 0 or above 1,000.
    pub fn new(alloc: Global, spec: &OrderSpec, letters: u32) -> Result<AnyOrder, OrderFault>
        ensures order { IfOk result (λ o. (u v : List ℕ) → made_cmp o u v ≡ asked_cmp spec.now u v) }
        ensures letters { IfOk result (λ o. letters ≤ 2 ^ 16 → letters ≤ letters_of o) }
        ensures first_fault { MatchResult result (λ _. IsSound letters spec.now) (ExplainsSpec letters spec.now) }
    {
        match spec {
            OrderSpec::Degree => Ok(AnyOrder::Degree(DegLex::new())),
            OrderSpec::Weight(weights) => {
                let order = WeightLex::new(alloc, weights.as_slice(), letters)?;
                Ok(AnyOrder::Weight(order))
            }
            OrderSpec::Block(block) => {
                let order = BlockLex::new(alloc, block.as_slice(), letters)?;
                Ok(AnyOrder::Block(order))
            }
        }
    }
}

impl WordOrder for AnyOrder {
    ghost compare = { made_cmp };

    ghost letters = { letters_of };

    ghost rank = { made_rank };

    ghost measure_of = { made_measure };

    ghost is_plain = { is_made_canonical };

    fn cmp(&self, left: &Word, right: &Word) -> Ordering {
        match self {
            AnyOrder::Degree(order) => order.cmp(left, right),
            AnyOrder::Weight(order) => order.cmp(left, right),
            AnyOrder::Block(order) => order.cmp(left, right),
        }
    }

    fn measure(&self, word: &Word) -> u32 {
        match self {
            AnyOrder::Degree(order) => order.measure(word),
            AnyOrder::Weight(order) => order.measure(word),
            AnyOrder::Block(order) => order.measure(word),
        }
    }

    fn is_canonical(&self) -> bool {
        matches!(self, AnyOrder::Degree(_))
    }

    ghost admissible = { elim [
      | made.Degree order ↦ word_cmp-admissible (2 ^ 16)
      | made.Weight order ↦ weight_cmp-admissible (weight_in order) (length order)
      | made.Block order ↦ block_cmp-admissible (is_in order) (length order)
    ] };

    ghost by_measure = { elim [
      | made.Degree order ↦ λ u v. refl
      | made.Weight order ↦ λ u v. refl
      | made.Block order ↦ λ u v. refl
    ] };

    ghost unmeasured = { elim [
      | made.Degree order ↦ λ w _. refl
      | made.Weight order ↦ λ w plain. absurd (false≢true plain)
      | made.Block order ↦ λ w plain. absurd (false≢true plain)
    ] };
}
