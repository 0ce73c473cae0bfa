//! The models of evidence text.

ghost use Rattle.std.specs.Prelude.{◌<◌, IfOk, MatchResult, length};
ghost use Rattle.std.specs.List.{All};
ghost use Rattle.block_text.specs.Fault.{ExplainsBy};
ghost use Rattle.model_text.specs.Models.{IsModels, IsFirstFault, IsModel};

use crate::step::Models;
use block_text::{ReadText, read_blocks};
use matrix_models::Model;
use quiver::Quiver;
use std::alloc::Global;

/// The models of the text, over the objects and the maps of the quiver, or its first fault. Blocks of
/// other kinds are skipped. Any text can fail for want of memory.
pub fn read_models(alloc: Global, bytes: &[u8], quiver: &Quiver) -> ReadText<Model>
    requires { length bytes.now < 4294967295 }
    // They are those of the bytes, or the fault is the first one of the bytes.
    ensures exact { MatchResult result (IsModels quiver.now bytes.now) (ExplainsBy (IsFirstFault quiver.now bytes.now)) }
    // The modulus of each is one, its sides are from 1 to 64, and its matrices are those of declared maps.
    ensures models { IfOk result (All (IsModel quiver.now)) }
{
    read_blocks(alloc, &Models { quiver }, bytes)
}
