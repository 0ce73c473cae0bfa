//! The ranges of options, and their defaults: as a number, and as the word that clap takes.

/// The greatest number of ambiguities that may be treated.
pub const PAIR_LIMIT: u64 = 1_000_000;

/// The greatest number of steps that a reduction may make.
pub const STEP_LIMIT: u64 = 1_000_000;

/// The greatest number of a format.
pub const FORMAT_LIMIT: u64 = 2;

/// The greatest size of the statement of a bench.
pub const SIZE_LIMIT: u64 = 60;

/// How many ambiguities may be treated where no number is given.
pub const DEFAULT_PAIRS: u32 = 5000;

pub(crate) const DEFAULT_PAIRS_WORD: &str = "5000";

/// How many steps a reduction may make where no number is given.
pub const DEFAULT_STEPS: u32 = 20_000;

pub(crate) const DEFAULT_STEPS_WORD: &str = "20000";

/// The number of threads where none is given.
pub(crate) const DEFAULT_WORKERS_WORD: &str = "4";

/// The seed where none is given.
pub const DEFAULT_SEED: u64 = 1;

pub(crate) const DEFAULT_SEED_WORD: &str = "1";

/// The format where none is given.
pub(crate) const DEFAULT_FORMAT_WORD: &str = "2";
