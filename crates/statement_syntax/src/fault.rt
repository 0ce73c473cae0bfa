//! Why a text has no tree.

ghost use Rattle.std.specs.Prelude.{◌≡◌};
ghost use Rattle.statement_syntax.specs.Fault.{fault_at, TellsScan, IsWantOfMemory};

use lists::Stop;
use statement_tokens::{Fault, Placed, Spot};
use std::alloc::{AllocError, AllocFailed};
use thiserror::Error;

/// Why a text has no tree: its first fault with its place, or want of memory.
#[derive(Debug, Drop, Error)]
pub enum SyntaxFault {
    /// Lines and columns count from 1, and columns count characters. Where the bytes are not UTF-8 the line is 0, and
    /// the column is the number of valid bytes.
    #[error("S{code} line {line} column {column}")]
    Fault { code: u32, line: u32, column: u32 },
    /// Memory is short.
    #[error(transparent)]
    Memory(AllocError),
}

impl From<Stop<Placed>> for SyntaxFault {
    ghost from_gives = { TellsScan };

    fn from(error: Stop<Placed>) -> SyntaxFault {
        match error {
            Stop::Fault(placed) => fault_at(placed.fault, placed.at),
            Stop::Memory(error) => SyntaxFault::Memory(error),
        }
    }
}

impl<T: Drop> From<AllocFailed<T>> for SyntaxFault {
    ghost from_gives = { λ _ refused. IsWantOfMemory refused };

    fn from(_failed: AllocFailed<T>) -> SyntaxFault {
        SyntaxFault::Memory(AllocError)
    }
}

/// The refusal for a fault at a place.
pub fn fault_at(fault: Fault, at: Spot) -> SyntaxFault
    ensures { result ≡ fault_at fault at }
{
    SyntaxFault::Fault {
        code: fault.code(),
        line: at.line,
        column: at.column,
    }
}
