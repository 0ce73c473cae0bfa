//! The statuses with which a run ends, but for those of verdicts.

/// All evidence is accepted.
pub const ACCEPTED: u8 = 0;

/// The words are no call.
pub const OTHER_WORDS: u8 = 2;

/// The statement has a fault.
pub const FAULTY_STATEMENT: u8 = 3;

/// A file couldn't be loaded, or is longer than its limit.
pub const NOT_LOADED: u8 = 4;

/// The report couldn't be put whole.
pub const SINK_FAILED: u8 = 5;

/// Memory is short; nothing is put.
pub const OUT_OF_MEMORY: u8 = 6;

/// The evidence has a fault, or a block of it is refused.
pub const REFUSED_EVIDENCE: u8 = 7;
