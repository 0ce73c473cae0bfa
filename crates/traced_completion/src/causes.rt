//! The causes of faults of reductions.
ghost use Rattle.std.specs.Prelude.{IfOk, IfErr};
ghost use Rattle.rule_reduce.specs.NormalForms.{IsMemory};
ghost use Rattle.traced_completion.specs.PlainRun.{IsCauseOf};

use cofactor_trace::Cause;
use rule_reduce::ReduceFault;
use std::alloc::AllocError;

/// The cause of a fault of a reduction. Want of memory has none, and is returned.
pub fn reduction_cause(fault: ReduceFault) -> Result<Cause, AllocError>
    ensures cause { IfOk result (IsCauseOf fault) }
    ensures memory { IfErr result (λ _. IsMemory fault) }
{
    match fault {
        ReduceFault::Steps { limit } => Ok(Cause::Steps { limit }),
        ReduceFault::Overflow(overflow) => Ok(Cause::Overflow(overflow)),
        ReduceFault::Size(size) => Ok(Cause::Size {
            letters: size.letters,
        }),
        ReduceFault::Memory(failed) => Err(failed),
    }
}
