//! Problems: the parts of a statement with its generators, which are its assumptions, their adjoints and the relations of identities.
#![tactic(auto)]

mod adjoint;
mod basis;
mod laws;
mod limits;
mod parts;
mod problem;
mod shapes;
mod units;

pub use adjoint::{adjoint_poly, adjoint_word};
pub use basis::Basis;
pub use laws::{adjoints_are_an_involution, generators_are_unique, problem_is_typed};
pub use limits::{ASSUMPTION_LIMIT, CLAIM_LIMIT, RULE_LIMIT, SHAPE_LIMIT, SHAPE_SIDE_LIMIT};
pub use parts::{Parts, Shape};
pub use problem::{Problem, close_problem};
pub use shapes::is_field_modulus;
