//! The ambiguities that were not treated, in the order in which they are taken.
mod block;
mod blocks;
mod finding;
mod laws;
mod store;

pub use laws::{
    ambiguities_stay, least_words_are_least, nothing_is_pending_at_first, pending_words_are_over,
    stores_are_unique, taken_ones_are_ambiguities,
};
pub use store::Pending;
