//! Why a tree has no problem: the first fault with its code, its place and its values.

ghost use Rattle.std.specs.Prelude.{◌≡◌};
ghost use Rattle.signature_typing.specs.Fault.{IsMemory, fault_at, told, told_stop, told_polynomial, no_claim};

use lists::{Stop, Text};
use nc_polynomial::PolyFault;
use statement_tokens::{Placed, Spot};
use std::alloc::{AllocError, AllocFailed};
use std::fmt;
use thiserror::Error;

/// Why a tree has no problem: its first fault, or want of memory.
#[derive(Drop, Error)]
pub enum TypeFault {
    /// The fault with this code, from 6 to 16. Lines and columns count from 1, and columns count characters; both are 0 where
    /// there is no claim. Codes 10 and 11 have two signatures, each by the names of its source and its target, and code 8
    /// has the limit.
    #[error("fault {code} at line {line}, column {column}")]
    Fault {
        code: u32,
        line: u32,
        column: u32,
        left: Option<(Text, Text)>,
        right: Option<(Text, Text)>,
        limit: u32,
    },
    /// Memory is short.
    #[error(transparent)]
    Memory(AllocError),
}

impl fmt::Debug for TypeFault {
    fn fmt<W: fmt::Write>(&self, f: &mut fmt::Formatter<W>) -> fmt::Result {
        fmt::Display::fmt(self, f)
    }
}

impl From<AllocError> for TypeFault {
    ghost from_gives = { λ _ fault. IsMemory fault };

    fn from(failed: AllocError) -> TypeFault {
        TypeFault::Memory(failed)
    }
}

impl<T: Drop> From<AllocFailed<T>> for TypeFault {
    ghost from_gives = { λ _ fault. IsMemory fault };

    fn from(_failed: AllocFailed<T>) -> TypeFault {
        TypeFault::Memory(AllocError)
    }
}

impl From<Stop<Placed>> for TypeFault {
    ghost from_gives = { λ stopped told. told ≡ told_stop stopped };

    fn from(stopped: Stop<Placed>) -> TypeFault {
        match stopped {
            Stop::Fault(placed) => told(placed, None, None),
            Stop::Memory(failed) => TypeFault::Memory(failed),
        }
    }
}

/// The fault at a place, with the names of the ends of two signatures that do not fit, where there are two.
pub(crate) fn told(
    placed: Placed,
    left: Option<(Text, Text)>,
    right: Option<(Text, Text)>,
) -> TypeFault
    ensures { result ≡ told placed left right }
{
    TypeFault::Fault {
        code: placed.fault.code(),
        line: placed.at.line,
        column: placed.at.column,
        left,
        right,
        limit: placed.fault.limit(),
    }
}

// The fault with this code at a place.
fn fault_at(code: u32, at: Spot) -> TypeFault
    ensures { result ≡ fault_at code at }
{
    TypeFault::Fault {
        code,
        line: at.line,
        column: at.column,
        left: None,
        right: None,
        limit: 0,
    }
}

/// The fault of the arithmetic of an equation, whose statement begins at this place.
pub(crate) fn polynomial_fault(at: Spot, fault: PolyFault) -> TypeFault
    ensures { result ≡ told_polynomial at fault }
{
    match fault {
        PolyFault::Overflow(_) => fault_at(13, at),
        PolyFault::Size(_) => fault_at(14, at),
        PolyFault::Memory(failed) => TypeFault::Memory(failed),
    }
}

/// The fault of a file without a claim.
pub(crate) fn no_claim() -> TypeFault
    ensures { result ≡ no_claim }
{
    fault_at(15, Spot { line: 0, column: 0 })
}
