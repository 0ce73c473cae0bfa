//! What can be wrong with a line and with a text, and the fault that is returned.

ghost use Rattle.std.specs.Prelude.{◌≡◌};
ghost use Rattle.lists.specs.declared.stop.Stop.TheVariants as stop;
ghost use Rattle.block_text.specs.declared.fault.CertFault.TheVariants as cert_fault;
ghost use Rattle.block_text.specs.Fault.{code_of, limit_of, told, not_utf8, truncated, no_block, TellsLine, IsMemory};

use lists::Stop;
use std::alloc::AllocError;
use thiserror::Error;

/// Why evidence is not read: its first fault, or want of memory.
#[derive(Debug, Drop, Error)]
pub enum CertFault {
    /// The code is the n of Kn. The line counts from 1, and is 0 for K1, K6 and K7. The limit is the one that is exceeded,
    /// and 0 but for K5.
    #[error("K{code} in line {line}, limit {limit}")]
    Fault { code: u32, line: u32, limit: u32 },
    /// Memory is short.
    #[error(transparent)]
    Memory(AllocError),
}

/// What can be wrong with a line.
#[derive(Clone, Copy)]
pub enum Flaw {
    /// The line does not fit the grammar at its place.
    BadLine,
    /// A name is not of the quiver, or of the other kind.
    UnknownName,
    /// It is valid, but not as it is written.
    NotAsWritten,
    /// A number exceeds its bound.
    NumberTooLarge,
    /// There are more letters, rows or blocks than there may be.
    TooMany(u32),
}

impl From<Flaw> for Stop<Flaw> {
    ghost from_gives = { λ flaw stopped. stopped ≡ stop.Fault flaw };

    fn from(flaw: Flaw) -> Stop<Flaw> {
        Stop::Fault(flaw)
    }
}

impl From<AllocError> for CertFault {
    ghost from_gives = { λ _ e. IsMemory e };

    fn from(failed: AllocError) -> CertFault {
        CertFault::Memory(failed)
    }
}

// The fault with this number of a text as a whole.
fn in_text(code: u32) -> CertFault
    ensures { result ≡ cert_fault.Fault code 0 0 }
{
    CertFault::Fault {
        code,
        line: 0,
        limit: 0,
    }
}

// The text is not UTF-8.
pub(crate) fn not_utf8() -> CertFault
    ensures { result ≡ told not_utf8 }
{
    in_text(1)
}

// The text ends inside a block.
pub(crate) fn truncated() -> CertFault
    ensures { result ≡ told truncated }
{
    in_text(6)
}

// The text has no block.
pub(crate) fn no_block() -> CertFault
    ensures { result ≡ told no_block }
{
    in_text(7)
}

fn code_of(flaw: Flaw) -> u32
    ensures { result ≡ code_of flaw }
{
    match flaw {
        Flaw::BadLine | Flaw::NotAsWritten => 2,
        Flaw::UnknownName => 3,
        Flaw::NumberTooLarge => 4,
        Flaw::TooMany(_) => 5,
    }
}

fn limit_of(flaw: Flaw) -> u32
    ensures { result ≡ limit_of flaw }
{
    match flaw {
        Flaw::TooMany(limit) => limit,
        _ => 0,
    }
}

/// The fault of a line with its number.
pub fn at_line(line: u32, stopped: Stop<Flaw>) -> CertFault
    ensures { TellsLine line stopped result }
{
    match stopped {
        Stop::Fault(flaw) => CertFault::Fault {
            code: code_of(flaw),
            line,
            limit: limit_of(flaw),
        },
        Stop::Memory(failed) => CertFault::Memory(failed),
    }
}
