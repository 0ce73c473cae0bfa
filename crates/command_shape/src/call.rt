//! The commands with their files, numbers and options.
use crate::evidence::EvidenceCommand;
use lists::Text;

/// `prove FILE` with its options.
#[derive(Drop)]
pub struct ProveCall {
    /// The statement file.
    pub file: Text,
    /// How many ambiguities may be treated, from 1 to 1,000,000.
    pub pairs: u32,
    /// How many steps a reduction may make, from 1 to 1,000,000.
    pub steps: u32,
    /// The number of threads, from 1 to 64.
    pub workers: u32,
    /// The seed of the search for models.
    pub seed: u64,
    /// The format of certificates, 1 or 2.
    pub format: u32,
    /// Whether models are searched where a claim is left undecided.
    pub models: bool,
}

/// `refute FILE` with its options.
#[derive(Drop)]
pub struct RefuteCall {
    /// The statement file.
    pub file: Text,
    /// The number of threads, from 1 to 64.
    pub workers: u32,
    /// The seed of the search for models.
    pub seed: u64,
}

/// `bench N` with its option.
#[derive(Drop)]
pub struct BenchCall {
    /// The size of the statement, from 1 to 60.
    pub size: u32,
    /// The number of threads, from 1 to 64.
    pub workers: u32,
}

/// A command of a statement file and a file of evidence.
#[derive(Drop)]
pub struct PairCall {
    /// The statement file.
    pub statement: Text,
    /// The file of evidence.
    pub evidence: Text,
}

/// What words name: a command with all that it takes.
#[derive(Drop)]
pub enum Call {
    /// Decides each claim of a statement.
    Prove(ProveCall),
    /// Searches models that refute the claims of a statement.
    Refute(RefuteCall),
    /// Decides the claims of a statement that the program makes.
    Bench(BenchCall),
    /// Judges a file of evidence over a statement.
    Evidence(EvidenceCommand, PairCall),
}
