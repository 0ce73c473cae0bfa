//! What a kind of block has to offer to be read.

ghost use Rattle.std.specs.Prelude.{◌≡◌, map, ⊤, IfOk, IfSome};
ghost use Rattle.lists.specs.Stop.{Gives};
ghost use Rattle.block_text.specs.Steps.{Steps};
ghost use Rattle.block_text.specs.Tokens.{tokens_of};

use crate::fault::Flaw;
use lists::Stop;
use std::alloc::{AllocError, Global};

/// A kind of block, and what is made of its lines.
pub trait BlockKind {
    /// What is read of a block whose lines go on.
    type Begun: Drop;
    /// What a block says.
    type Value: Drop;

    ghost steps: { Self → Steps Self.Begun Self.Value };

    // What holds of an open block, if anything does.
    ghost is_sound: { Self → Self.Begun → Type 0 } = { λ kind begun. ⊤ };

    /// The words that blocks of the other kinds begin with, which are skipped.
    fn others(&self) -> &'static [&'static str]
        ensures { map (λ word. word.now) result.now ≡ (steps self.now).others };

    /// The block that begins with the line, if one of the kind does.
    fn begin(&self, alloc: Global, line: &[u8]) -> Option<Self::Begun>
        ensures exact { result ≡ (steps self.now).begin (tokens_of line.now) }
        ensures sound { IfSome result (is_sound self.now) };

    /// The block with one more line, which is not `end`.
    fn next(
        &self,
        alloc: Global,
        begun: Self::Begun,
        line: &[u8],
    ) -> Result<Self::Begun, Stop<Flaw>>
        requires { is_sound self.now begun }
        ensures exact { Gives (λ b. b) result ((steps self.now).next begun (tokens_of line.now)) }
        ensures sound { IfOk result (is_sound self.now) };

    /// What a finished block says, if it may end.
    fn finish(&self, alloc: Global, begun: Self::Begun) -> Result<Option<Self::Value>, AllocError>
        requires { is_sound self.now begun }
        ensures { IfOk result (λ value. value ≡ (steps self.now).finish begun) };
}
