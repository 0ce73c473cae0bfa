//! Polynomials in letters that do not commute, with exact arithmetic or the first fault.
#![tactic(auto)]

mod adjoint;
mod collect;
mod combine;
mod content;
mod fault;
mod laws;
mod multiples;
mod poly;
mod product;
mod push;
mod running;
mod size;
pub mod table;
mod terms;

pub use fault::{PolyFault, SizeFault};
pub use laws::canonical_is_unique;
pub use poly::Poly;
pub use running::RunningSum;
pub use size::{TERM_LIMIT, WORD_LIMIT, check_size};
pub use terms::{merge_terms, multiply_terms, negate_terms, scale_terms, shift_terms};
