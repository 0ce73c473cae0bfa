//! The causes of faults, and claims that halt.
ghost use Rattle.std.specs.Prelude.{◌≡◌, IfOk};
ghost use Rattle.claim_decider.specs.Outcomes.{IsCauseOfExpansion, IsCauseOfGathering, halted_at};

use crate::Outcome;
use cofactor_trace::{Cause, ExpandFault, GatherFault, Halt, Place};
use std::alloc::AllocError;

// The cause of a fault of expansion. A word that is too long has the cause `Size`.
pub(crate) fn expansion_cause(fault: ExpandFault) -> Result<Cause, AllocError>
    ensures { IfOk result (IsCauseOfExpansion fault) }
{
    match fault {
        ExpandFault::Overflow(overflow) => Ok(Cause::Overflow(overflow)),
        ExpandFault::Rows { letters } => Ok(Cause::Rows { letters }),
        ExpandFault::Size => Ok(Cause::Size { letters: true }),
        ExpandFault::Memory(failed) => Err(failed),
    }
}

// The cause of a fault of gathering.
pub(crate) fn gathering_cause(fault: GatherFault) -> Result<Cause, AllocError>
    ensures { IfOk result (IsCauseOfGathering fault) }
{
    match fault {
        GatherFault::Overflow(overflow) => Ok(Cause::Overflow(overflow)),
        GatherFault::Rows { letters } => Ok(Cause::Rows { letters }),
        GatherFault::Memory(failed) => Err(failed),
    }
}

// The outcome of a claim that halts in the work on it.
pub(crate) fn halted(place: Place, cause: Cause) -> Outcome
    ensures { result ≡ halted_at place cause }
{
    Outcome::Halted(Halt {
        cause,
        place,
        least: None,
    })
}
