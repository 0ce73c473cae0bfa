//! The scales of a proof's lemmas: whether they are positive, and whether they divide the denominator.
ghost use Rattle.cofactor_checker.specs.LemmaAcceptance.{HasScale, IsTight};
ghost use Rattle.cancel_rules.specs.Acceptance.{OfLemma};

use crate::Item;
use cofactor_checker::Scaled;

// A cancellation has no scale.
impl Scaled for Item {
    ghost positive = { OfLemma HasScale };

    ghost tight = { λ d. OfLemma (IsTight d) };

    fn is_positive(&self) -> bool {
        match self {
            Item::Lemma(lemma) => lemma.is_positive(),
            Item::Cancel { .. } => true,
        }
    }

    fn is_tight(&self, denominator: i128) -> bool {
        match self {
            Item::Lemma(lemma) => lemma.is_tight(denominator),
            Item::Cancel { .. } => true,
        }
    }
}
