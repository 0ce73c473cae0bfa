//! The commands `prove` and `bench`: each claim of a statement decided.
#![tactic(auto)]

mod prove;

pub use prove::{ASKED_BY_BENCH, Asked, Extent, asked_by, report_claims};
