//! What a proof that cancels letters is refused for.
ghost use Rattle.std.specs.Prelude.{◌≡◌};
ghost use Rattle.cancel_rules.specs.Acceptance.{IsMemory};
ghost use Rattle.cancel_rules.specs.declared.refusal.CancelRefusal.TheVariants.{Common};

use cofactor_checker::Refusal;
use std::alloc::{AllocError, AllocFailed};
use thiserror::Error;

/// The first test that a proof fails. Items are numbered from 1, and a lemma's number is its item's.
#[derive(Debug, Drop, Error)]
pub enum CancelRefusal {
    /// What a certificate with lemmas is refused for as well.
    #[error("{0}")]
    Common(Refusal),
    /// The item with this number takes a letter off one that does not stand before.
    #[error("item {item} takes a letter off no earlier item")]
    NoSuchItem { item: u32 },
    /// The item with this number takes a letter off in front that is not called monic, or behind that is not called epic.
    #[error("item {item} takes off a letter that is not declared for its side")]
    NotDeclared { item: u32 },
    /// The item with this number takes a letter off a polynomial that is not zero and not typed.
    #[error("item {item} takes a letter off a polynomial that is not typed")]
    NotTyped { item: u32 },
    /// The item with this number takes a letter off a polynomial of which a word does not have it at that end, or has no other.
    #[error("item {item} takes off a letter that a word does not have at that end beside others")]
    NotStripped { item: u32 },
}

impl From<Refusal> for CancelRefusal {
    ghost from_gives = { λ refusal e. e ≡ Common refusal };

    fn from(refusal: Refusal) -> CancelRefusal {
        CancelRefusal::Common(refusal)
    }
}

impl From<AllocError> for CancelRefusal {
    ghost from_gives = { λ _ e. IsMemory e };

    fn from(failed: AllocError) -> CancelRefusal {
        CancelRefusal::Common(Refusal::Memory(failed))
    }
}

impl<T: Drop> From<AllocFailed<T>> for CancelRefusal {
    ghost from_gives = { λ _ e. IsMemory e };

    fn from(_failed: AllocFailed<T>) -> CancelRefusal {
        CancelRefusal::Common(Refusal::Memory(AllocError))
    }
}
