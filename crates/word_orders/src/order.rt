//! Admissible orders of words, as a trait whose laws each order proves.

ghost use Rattle.std.specs.Prelude.{◌≡◌, ◌≤◌, List, ℕ, length, Bool, true};
ghost use Rattle.std.specs.declared.cmp.Ordering.{Ordering};
ghost use Rattle.word_core.specs.Letters.{IsOver};
ghost use Rattle.word_orders.specs.Admissible.{IsAdmissible};
ghost use Rattle.word_orders.specs.Limits.{measured_letters};
ghost use Rattle.word_orders.specs.Measured.{measured_cmp};

use std::cmp::Ordering;
use word_core::Word;

/// The most letters of a word that is measured.
pub const MEASURED_LETTERS: usize = 4_194_304;

/// An admissible order of words.
pub trait WordOrder {
    // How two words compare.
    ghost compare: { Self → List ℕ → List ℕ → Ordering };

    // Words are over the letters below this number.
    ghost letters: { Self → ℕ };

    // At most three numbers, whose lexicographic order is the order of the words.
    ghost rank: { Self → List ℕ → List ℕ };

    // The number of a word that is compared first.
    ghost measure_of: { Self → List ℕ → ℕ };

    // Whether the order is the canonical one.
    ghost is_plain: { Self → Bool };

    /// How two words over the order's letters compare. It takes no memory.
    fn cmp(&self, left: &Word, right: &Word) -> Ordering
        requires left_over { IsOver (letters self.now) left.now }
        requires right_over { IsOver (letters self.now) right.now }
        ensures { result ≡ compare self.now left.now right.now };

    /// The number of a word that is compared first, before a canonical comparison: 0 by degree, the sum of the weights, or how
    /// many letters are in the block. It takes no memory.
    fn measure(&self, word: &Word) -> u32
        requires short { length word.now ≤ measured_letters }
        ensures { result ≡ measure_of self.now word.now };

    /// Whether the order is the canonical one, in which the measure of each word is 0.
    fn is_canonical(&self) -> bool
        ensures { result ≡ is_plain self.now };

    // The order is total and agrees with equality, the empty word is least, words around two words keep their order,
    // and the order is that of the ranks.
    ghost admissible: { (o : Self) → IsAdmissible (letters o) (compare o) (rank o) };

    // Comparing words is comparing their measures, and then the words canonically.
    ghost by_measure: { (o : Self) (u v : List ℕ) → compare o u v ≡ measured_cmp (measure_of o) u v };

    // In the canonical order each measure is 0.
    ghost unmeasured: { (o : Self) (w : List ℕ) → is_plain o ≡ true → measure_of o w ≡ 0 };
}
