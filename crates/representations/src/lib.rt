//! Representations of a quiver in a category, the values of polynomials in them, and the laws that give certificates their meaning.
#![tactic(auto)]

mod laws;
mod multiple;
mod representation;
mod value;

pub use laws::{
    lemmas_sound, lemmas_star_sound, sound, star_sound, typed_rows_suffice, unit_sound,
};
pub use representation::Representation;
pub use value::value_of;
