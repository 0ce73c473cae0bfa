//! How far a reduction has come, and what its next step takes away.

use lists::Listing;
use traced_rows::Row;
use word_core::Word;

/// How far a reduction has come: the multiplier, the polynomial that is left, the rows and the number of steps.
#[derive(Drop)]
pub struct State {
    pub multiplier: i128,
    pub rest: Listing<(i128, Word)>,
    pub rows: Listing<Row>,
    pub used: u32,
}

/// The same, with a store that keeps something of the rows.
#[derive(Drop)]
pub struct Progress<S> {
    pub multiplier: i128,
    pub rest: Listing<(i128, Word)>,
    pub rows: S,
    pub used: u32,
}

/// A term that can be reduced, with the number of a rule and the place of its leading word.
#[derive(Drop)]
pub struct Choice {
    pub coefficient: i128,
    pub word: Word,
    pub number: u32,
    pub place: usize,
}
