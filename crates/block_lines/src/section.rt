//! Lines of a block one after another.

ghost use Rattle.std.specs.Prelude.{◌≡◌};
ghost use Rattle.lists.specs.Stop.{Gives};
ghost use Rattle.block_lines.specs.SectionSteps.{SectionSteps, no_steps, line_steps, grown, lines_steps};
ghost use Rattle.block_text.specs.Tokens.{tokens_of};

use crate::line_kind::{LineKind, fitted};
use block_text::{Flaw, begins};
use lists::{Listing, Stop};
use std::alloc::Global;

/// Lines of a block one after another, and what is made of them.
pub trait Section {
    /// How far they were read.
    type Begun: Drop;
    /// What they say.
    type Value: Drop;

    ghost steps: { Self → SectionSteps Self.Begun Self.Value };

    /// Before the first line.
    fn start(&self, alloc: Global) -> Self::Begun
        ensures { result ≡ (steps self.now).start };

    /// With one more line, which is not `end`.
    fn next(
        &self,
        alloc: Global,
        begun: Self::Begun,
        line: &[u8],
    ) -> Result<Self::Begun, Stop<Flaw>>
        ensures { Gives (λ b. b) result ((steps self.now).next begun (tokens_of line.now)) };

    /// What the lines say, if they may end.
    fn finish(&self, begun: Self::Begun) -> Option<Self::Value>
        ensures { result ≡ (steps self.now).finish begun };
}

/// No more lines.
#[derive(Clone, Copy)]
pub struct NoLines;

impl Section for NoLines {
    type Begun = ();

    type Value = ();

    ghost steps = { λ none. no_steps };

    fn start(&self, _alloc: Global) {}

    fn next(&self, _alloc: Global, _begun: (), _line: &[u8]) -> Result<(), Stop<Flaw>> {
        Err(Stop::Fault(Flaw::BadLine))
    }

    fn finish(&self, _begun: ()) -> Option<()> {
        Some(())
    }
}

/// A line, and others after it.
#[derive(Drop)]
pub struct LineThen<L, R> {
    pub line: L,
    pub rest: R,
}

/// Before a line, or after it.
#[derive(Drop)]
pub enum LinePlace<V, B> {
    Before,
    Behind { value: V, rest: B },
}

impl<L: LineKind, R: Section> Section for LineThen<L, R> {
    type Begun = LinePlace<L::Value, R::Begun>;

    type Value = (L::Value, R::Value);

    ghost steps = { λ s. line_steps (L.reading s.line) (R.steps s.rest) };

    fn start(&self, _alloc: Global) -> LinePlace<L::Value, R::Begun> {
        LinePlace::Before
    }

    fn next(
        &self,
        alloc: Global,
        place: LinePlace<L::Value, R::Begun>,
        line: &[u8],
    ) -> Result<LinePlace<L::Value, R::Begun>, Stop<Flaw>> {
        match place {
            LinePlace::Before => {
                let value = self.line.read(alloc, line)?;
                let rest = self.rest.start(alloc);
                Ok(LinePlace::Behind { value, rest })
            }
            LinePlace::Behind { value, rest } => {
                let rest = self.rest.next(alloc, rest, line)?;
                Ok(LinePlace::Behind { value, rest })
            }
        }
    }

    fn finish(&self, place: LinePlace<L::Value, R::Begun>) -> Option<(L::Value, R::Value)> {
        match place {
            LinePlace::Before => None,
            LinePlace::Behind { value, rest } => {
                let rest = self.rest.finish(rest)?;
                Some((value, rest))
            }
        }
    }
}

/// Lines that begin with the word, at most `limit`, and others after them.
#[derive(Drop)]
pub struct LinesThen<L, R> {
    pub word: &'static str,
    pub limit: u32,
    pub line: L,
    pub rest: R,
}

/// The values of the lines with the word, how far those after them were read, and whether one of them may still come.
#[derive(Drop)]
pub struct LinesPlace<V, B> {
    pub values: Listing<V>,
    pub rest: B,
    pub more: bool,
}

// One more value, where there may be one.
fn grown<V: Drop>(limit: u32, mut values: Listing<V>, value: V) -> Result<Listing<V>, Stop<Flaw>>
    ensures { Gives (λ vs. vs) result (grown limit values value) }
{
    if values.len() >= limit as usize {
        return Err(Stop::Fault(Flaw::TooMany(limit)));
    }
    values.push(value)?;
    Ok(values)
}

impl<L: LineKind, R: Section> Section for LinesThen<L, R> {
    type Begun = LinesPlace<L::Value, R::Begun>;

    type Value = (Listing<L::Value>, R::Value);

    ghost steps = { λ s. lines_steps s.word.now s.limit (L.reading s.line) (R.steps s.rest) };

    fn start(&self, alloc: Global) -> LinesPlace<L::Value, R::Begun> {
        LinesPlace {
            values: Listing::new(alloc),
            rest: self.rest.start(alloc),
            more: true,
        }
    }

    fn next(
        &self,
        alloc: Global,
        place: LinesPlace<L::Value, R::Begun>,
        line: &[u8],
    ) -> Result<LinesPlace<L::Value, R::Begun>, Stop<Flaw>> {
        let LinesPlace { values, rest, more } = place;
        if more && begins(self.word, line) {
            let value = self.line.read(alloc, line)?;
            let values = grown(self.limit, values, value)?;
            return Ok(LinesPlace { values, rest, more });
        }
        let rest = self.rest.next(alloc, rest, line)?;
        let more = false;
        Ok(LinesPlace { values, rest, more })
    }

    fn finish(
        &self,
        place: LinesPlace<L::Value, R::Begun>,
    ) -> Option<(Listing<L::Value>, R::Value)> {
        let LinesPlace { values, rest, .. } = place;
        let rest = self.rest.finish(rest)?;
        Some((fitted(values), rest))
    }
}
