//! Rules, and normal forms of polynomials by them, with the rows that say what was taken away.
#![tactic(auto)]

mod adding;
mod choosing;
mod fault;
mod laws;
mod making;
mod parts;
mod row_products;
mod rule;
mod rules;
mod state;
mod stepping;
mod store;

pub use fault::ReduceFault;
pub use laws::{
    choices_are_exact, letters_are_kept, multipliers_are_positive, reductions_balance,
    rests_are_irreducible, rows_are_by_rules, types_are_kept, words_stay_below,
};
pub use row_products::multiply_rows;
pub use rule::{Rule, lead_place, leading_place, rule_with};
pub use rules::{Reduced, Remainder, Rules};
