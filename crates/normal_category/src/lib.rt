//! The category of the normal forms of typed rules, as a type whose laws are proved.
#![tactic(auto)]

mod fault;
mod forms;
mod laws;
mod map;
mod passes;

pub use fault::SharpFault;
pub use forms::{NormalForms, normal_forms};
pub use laws::sharp_rules_are_told;
pub use map::{Fraction, NormalMap};
