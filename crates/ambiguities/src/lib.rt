//! Ambiguities of rules: where leading words overlap or one is in another, their overlap words and S-polynomials.
#![tactic(auto)]

mod ambiguity;
mod factors;
mod key;
mod laws;
mod list;
mod marks;
mod order;
mod overlap;
mod places;
mod polynomial;
mod sorting;
mod waiting;

pub use ambiguity::{Ambiguity, Kind};
pub use laws::{leading_words_cancel, s_polynomials_are_typed, s_polynomials_balance};
pub use list::between;
pub use order::compare_waiting;
pub use overlap::overlap_word;
pub use polynomial::{SPoly, s_poly};
pub use sorting::in_order;
pub use waiting::Waiting;
