//! Why rules make no category of normal forms.

use thiserror::Error;

/// Why rules make no category of normal forms of a statement.
#[derive(Clone, Copy, Debug, Drop, Error)]
pub enum SharpFault {
    /// The words of the rule with this number are no paths of one signature.
    #[error("the words of rule {rule} are not paths of one signature")]
    Untyped { rule: u32 },
    /// All rules are typed, and the one with this number has a letter that isn't in play.
    #[error("rule {rule} has a letter that is not in play")]
    OutOfPlay { rule: u32 },
}
