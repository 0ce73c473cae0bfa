//! Proofs that cancel letters.

use lists::Listing;
use traced_rows::Lemma;
use word_core::Letter;

/// The end of a word at which a letter is taken off.
#[derive(Clone, Copy)]
pub enum Side {
    /// In front: the letter is applied last, and is to be monic.
    Left,
    /// Behind: the letter is applied first, and is to be epic.
    Right,
}

/// A polynomial that follows from those of earlier items.
#[derive(Drop)]
pub enum Item {
    /// The sum of rows over generators and earlier items, divided by its scale.
    Lemma(Lemma),
    /// The polynomial of the item with this number, without the letter at this end of each word.
    Cancel {
        letter: Letter,
        side: Side,
        item: u32,
    },
}

/// A proof whose items are lemmas and cancellations, numbered together from 1.
#[derive(Drop)]
pub struct Cancellation {
    /// The number of the claim, counted from 1.
    pub claim: u32,
    /// A positive integer that each scale divides.
    pub denominator: i128,
    /// The letters that are called monic, in their order.
    pub monic: Listing<Letter>,
    /// The letters that are called epic, in their order.
    pub epic: Listing<Letter>,
    /// The items, of which each is over generators and earlier ones.
    pub items: Listing<Item>,
    /// The claim, by its rows over generators and all items.
    pub goal: Lemma,
}
