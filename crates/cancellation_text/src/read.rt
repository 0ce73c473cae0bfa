//! The proofs that cancel letters of evidence text.

ghost use Rattle.std.specs.Prelude.{◌<◌, IfOk, MatchResult, length};
ghost use Rattle.std.specs.List.{All};
ghost use Rattle.block_text.specs.Fault.{ExplainsBy};
ghost use Rattle.cancel_rules.specs.Acceptance.{IsReadableCancellation};
ghost use Rattle.cancellation_text.specs.Cancellations.{IsCancellations, IsFirstFault};

use crate::step::Cancellations;
use block_text::{ReadText, read_blocks};
use cancel_rules::Cancellation;
use quiver::Quiver;
use std::alloc::Global;

/// The proofs that cancel letters of the text, over the letters of the quiver, or its first fault. Blocks of
/// other kinds are skipped. Any text can fail for want of memory.
pub fn read_cancellations(alloc: Global, bytes: &[u8], quiver: &Quiver) -> ReadText<Cancellation>
    requires { length bytes.now < 4294967295 }
    // They are those of the bytes, or the fault is the first one of the bytes.
    ensures exact { MatchResult result (IsCancellations quiver.now bytes.now) (ExplainsBy (IsFirstFault quiver.now bytes.now)) }
    // Each can be checked.
    ensures readable { IfOk result (All (IsReadableCancellation quiver.now)) }
{
    read_blocks(alloc, &Cancellations { quiver }, bytes)
}
