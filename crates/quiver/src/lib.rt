//! Quivers: objects and maps with their names, the letters that they number, and the signatures of words and polynomials.
#![tactic(auto)]

mod fault;
mod named;
mod quiver;
mod signatures;

pub use fault::QuiverFault;
pub use named::{Named, Sig};
pub use quiver::{MAP_LIMIT, OBJECT_LIMIT, Quiver};
