//! What a reader of blocks has made of the lines before one.

use lists::Listing;

/// The place of a line.
#[derive(Drop)]
pub enum Place<B> {
    /// Outside of all blocks.
    Outside,
    /// In a block of another kind.
    Skipped,
    /// In a block of the kind.
    Inside { begun: B },
}

/// The values that were read, and the place of the next line.
#[derive(Drop)]
pub struct Progress<B, V> {
    pub values: Listing<V>,
    pub place: Place<B>,
}
