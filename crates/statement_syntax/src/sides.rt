//! Statements of two expressions: `assume`, `claim`.

ghost use Rattle.std.specs.Prelude.{◌≡◌};
ghost use Rattle.lists.specs.Stop.{Gives};
ghost use Rattle.statement_syntax.specs.Lines.{start_reading, left_end, sides_step, sides_end};
ghost use Rattle.statement_syntax.specs.declared.line.Line.TheVariants.{Sides};

use crate::expression::{Focus, Part, Reading, empty_head, token_step, whole_sum};
use crate::line::SidesWord;
use crate::stack::Stack;
use crate::tree::{StatementKind, Sum};
use lists::Stop;
use statement_tokens::{Fault, Spot, Token, TokenKind};
use std::alloc::Global;
use std::mem;

/// An expression before its first token.
pub fn start_reading(alloc: Global) -> Reading
    ensures { result ≡ start_reading }
{
    Reading {
        levels: Stack::new(alloc),
        head: empty_head(alloc),
        part: Part::Nothing,
        focus: Focus::Outside,
    }
}

/// One more token of either side.
pub fn sides_step(
    alloc: Global,
    left: &mut Option<Sum>,
    reading: &mut Reading,
    token: Token,
) -> Result<(), Stop<Fault>>
    ensures { (word : SidesWord) → (at : Spot)
        → Gives (λ done. Sides word at left.new reading.new) result (sides_step word at left.old reading.old token.kind token.at) }
{
    match (&*left, &token.kind) {
        (None, TokenKind::Equals) => end_left(alloc, left, reading),
        _ => token_step(alloc, reading, token),
    }
}

// The left side, where it may end; nothing of the right one is read.
fn end_left(alloc: Global, left: &mut Option<Sum>, reading: &mut Reading) -> Result<(), Stop<Fault>>
    ensures { (word : SidesWord) → (at : Spot) → Gives (λ done. Sides word at left.new reading.new) result (left_end word at reading.old) }
{
    let whole = mem::replace(reading, start_reading(alloc));
    drop(mem::replace(left, Some(whole_sum(alloc, whole)?)));
    Ok(())
}

/// The statement, where the right side may end.
pub fn sides_end(
    alloc: Global,
    word: SidesWord,
    left: Option<Sum>,
    reading: Reading,
) -> Result<StatementKind, Stop<Fault>>
    ensures { Gives (λ read. read) result (sides_end word left reading) }
{
    match left {
        None => {
            drop(reading);
            Err(Stop::Fault(Fault::Expected))
        }
        Some(left) => {
            let right = whole_sum(alloc, reading)?;
            match word {
                SidesWord::Assume => Ok(StatementKind::Assume(left, right)),
                SidesWord::Claim => Ok(StatementKind::Claim(left, right)),
            }
        }
    }
}
