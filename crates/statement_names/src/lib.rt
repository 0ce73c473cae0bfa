//! The names of a statement file: what it declares, its order, its shapes, and the first fault of its names.
#![tactic(auto)]

mod by_kind;
mod declarations;
mod declaring;
mod kinds;
mod literal;
mod marked;
mod names;
mod order;
mod shapes;
mod solved;
mod starred;
mod survey;
mod used;

pub use names::{Names, read_names};
pub use survey::FIRST_MAP_LIMIT;
pub use used::EXPONENT_LIMIT;
