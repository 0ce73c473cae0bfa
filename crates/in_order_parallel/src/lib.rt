//! A job at each item of a slice, on several threads, with the results in the order of the items.
#![tactic(auto)]

mod crew;
mod gate;
mod job;
mod spread;

pub use crew::Crew;
pub use gate::{Gate, OpenGate};
pub use job::Job;
pub use spread::{WORKER_LIMIT, map_in_order};
