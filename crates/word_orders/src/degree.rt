//! The canonical order of words: shorter words first, and then letter by letter.

ghost use Rattle.std.specs.Prelude.{◌^◌, true, refl};
ghost use Rattle.word_core.specs.Canonical.{word_cmp};
ghost use Rattle.word_orders.specs.Rank.{rank_of};
ghost use Rattle.word_core.proofs.CanonicalLaws.{word_cmp-admissible};

use crate::WordOrder;
use std::cmp::Ordering;
use word_core::Word;

/// The canonical order: length first, and then letter by letter from the left.
#[derive(Clone, Copy)]
pub struct DegLex;

impl DegLex {
    /// The order.
    pub fn new() -> DegLex {
        DegLex
    }
}

impl WordOrder for DegLex {
    ghost compare = { λ _. word_cmp };

    ghost letters = { λ _. 2 ^ 16 };

    ghost rank = { λ _. rank_of (2 ^ 16) };

    ghost measure_of = { λ _ _. 0 };

    ghost is_plain = { λ _. true };

    fn cmp(&self, left: &Word, right: &Word) -> Ordering {
        left.cmp_degree(right)
    }

    fn measure(&self, _word: &Word) -> u32 {
        0
    }

    fn is_canonical(&self) -> bool {
        true
    }

    ghost admissible = { λ _. word_cmp-admissible (2 ^ 16) };

    ghost by_measure = { λ _ u v. refl };

    ghost unmeasured = { λ _ w _. refl };
}
