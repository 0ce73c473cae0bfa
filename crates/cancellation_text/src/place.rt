//! What a reader has made of the lines before one.

use cancel_rules::Item;
use certificate_text::Size;
use cofactor_trace::Lemma;
use lists::Listing;
use word_core::Letter;

/// How far an open proof was read.
#[derive(Drop)]
pub enum Stage {
    /// After its head.
    Headed,
    /// After its claim.
    Claimed { claim: u32 },
    /// After its denominator, or a letter that it calls monic or epic.
    Called { opened: Opened },
    /// In the rows of a lemma.
    Lemma { opened: Opened, lemma: Lemma },
    /// After a cancellation.
    Cancelled { opened: Opened },
    /// In the rows of the goal.
    Goal { opened: Opened, goal: Lemma },
}

/// What was read of an open proof.
#[derive(Drop)]
pub struct Opened {
    pub claim: u32,
    pub denominator: i128,
    /// Of the rows of all lemmas and of the goal.
    pub size: Size,
    /// The letters that are called monic.
    pub monic: Listing<Letter>,
    /// The letters that are called epic.
    pub epic: Listing<Letter>,
    /// The items all of whose lines were read.
    pub items: Listing<Item>,
}
