//! Ambiguities: two rules, and how and where their leading words meet.

/// How the leading words of two rules meet.
#[derive(Clone, Copy)]
pub enum Kind {
    /// A suffix of the first word is a prefix of the second, and neither word is all of it.
    Overlap,
    /// The second word occurs in the first.
    Inclusion,
}

/// Two rules, by their numbers, whose leading words meet at a place of the first one, counted from 0.
#[derive(Clone, Copy)]
pub struct Ambiguity {
    /// The number of the first rule.
    pub i: u32,
    /// The number of the second rule. That of an inclusion differs from the first.
    pub j: u32,
    /// How their leading words meet.
    pub kind: Kind,
    /// Where the second word begins in the first.
    pub place: u32,
}
