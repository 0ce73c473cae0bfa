//! Blocks by their lines, as a kind of block.

ghost use Rattle.std.specs.Prelude.{map};
ghost use Rattle.block_lines.specs.SectionSteps.{block_steps};

use crate::section::Section;
use block_text::{BlockKind, Flaw, is_pair};
use lists::Stop;
use std::alloc::{AllocError, Global};

/// Blocks that begin with two words and continue with these lines. Those that begin with the other words are skipped.
#[derive(Drop)]
pub struct Blocks<S> {
    pub first: &'static str,
    pub second: &'static str,
    pub others: &'static [&'static str],
    pub lines: S,
}

impl<S: Section> BlockKind for Blocks<S> {
    type Begun = S::Begun;

    type Value = S::Value;

    ghost steps = { λ b. block_steps b.first.now b.second.now (map (λ word. word.now) b.others.now) (S.steps b.lines) };

    fn others(&self) -> &'static [&'static str] {
        self.others
    }

    fn begin(&self, alloc: Global, line: &[u8]) -> Option<S::Begun> {
        if is_pair(self.first, self.second, line) {
            Some(self.lines.start(alloc))
        } else {
            None
        }
    }

    fn next(&self, alloc: Global, begun: S::Begun, line: &[u8]) -> Result<S::Begun, Stop<Flaw>> {
        self.lines.next(alloc, begun, line)
    }

    fn finish(&self, _alloc: Global, begun: S::Begun) -> Result<Option<S::Value>, AllocError> {
        Ok(self.lines.finish(begun))
    }
}
