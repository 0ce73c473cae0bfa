//! The report of a call that decides claims: verdicts, their lines and blocks, and the status.
#![tactic(auto)]

mod bench;
mod head;
mod lines;
mod status;
mod verdict;

pub use bench::write_bench;
pub use head::put_cause;
pub use lines::{heads, report};
pub use status::status_of;
pub use verdict::Verdict;
