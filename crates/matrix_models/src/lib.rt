//! Matrices over the integers modulo a number, as an involutive category; and the greedy solution of linear equations modulo a
//! prime.
#![tactic(auto)]

mod elimination;
mod fault;
mod greedy;
mod laws;
mod matrices;
mod matrix;
mod model;
mod pivots;
mod system;

pub use fault::MatrixFault;
pub use greedy::solve;
pub use laws::{
    blocks_are_solved_apart, greedy_solution_is_unique, greedy_solutions_are_joined,
    solvable_systems_have_a_greedy_solution, systems_are_solvable_by_parts,
};
pub use matrices::Matrices;
pub use matrix::{MODULUS_LIMIT, Matrix, SIDE_LIMIT};
pub use model::Model;
pub use pivots::Pivots;
pub use system::{LinearRow, System};
