//! What commands have in common: the words of a call, read by clap, how a run ends, and blocks of evidence that are judged one after another.
#![tactic(auto)]

mod call;
mod ending;
mod evidence;
mod fault;
mod files;
mod judge;
mod limits;
mod read;
mod set;
pub mod status;
mod usage;

pub use call::{BenchCall, Call, PairCall, ProveCall, RefuteCall};
pub use ending::Ending;
pub use evidence::EvidenceCommand;
pub use fault::{refused_evidence, refused_statement};
pub use files::{FileWord, pair_files, statement_file};
pub use judge::{Judge, Judged, judge_blocks};
pub use limits::{
    DEFAULT_PAIRS, DEFAULT_SEED, DEFAULT_STEPS, FORMAT_LIMIT, PAIR_LIMIT, SIZE_LIMIT, STEP_LIMIT,
};
pub use read::{Refusal, read_words};
pub use usage::usage_text;
