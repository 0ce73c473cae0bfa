//! Normal forms with fractions: the category that resolved rules make, and what is zero in it.
#![tactic(auto)]

mod laws;

pub use laws::maps_are_finite_sums;
