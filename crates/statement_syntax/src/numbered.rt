//! Statements with literals: `order`, `model`.

ghost use Rattle.std.specs.Prelude.{◌≡◌};
ghost use Rattle.lists.specs.Stop.{Gives};
ghost use Rattle.statement_syntax.specs.Lines.{no_pairs, pairs_step, whole_pairs, order_step, weights_end, shape_end};

use crate::expected::{is_word, name_in, number_in};
use crate::line::{Line, Pairs};
use crate::tree::{Name, Number, Statement, StatementKind};
use lists::{Listing, Stop};
use statement_tokens::{Fault, Spot, Token};
use std::alloc::Global;

/// No pair.
pub fn no_pairs(alloc: Global) -> Pairs
    ensures { result ≡ no_pairs }
{
    Pairs {
        whole: Listing::new(alloc),
        half: None,
    }
}

/// One more name, or the literal of the last one.
pub fn pairs_step(pairs: Pairs, token: Token) -> Result<Pairs, Stop<Fault>>
    ensures { Gives (λ read. read) result (pairs_step pairs token.kind token.at) }
{
    let Pairs { mut whole, half } = pairs;
    match half {
        None => Ok(Pairs {
            whole,
            half: Some(name_in(token)?),
        }),
        Some(name) => {
            whole.push((name, number_in(&token)?))?;
            Ok(Pairs { whole, half: None })
        }
    }
}

fn whole_pairs(pairs: Pairs) -> Result<Listing<(Name, Number)>, Fault>
    ensures { result ≡ whole_pairs pairs }
{
    match pairs.half {
        None => Ok(pairs.whole),
        Some(_) => Err(Fault::Expected),
    }
}

/// The word after `order`.
pub fn order_step(alloc: Global, at: Spot, token: &Token) -> Result<Line, Fault>
    ensures { result ≡ order_step at token.now.kind }
{
    if is_word(token, "degree") {
        let kind = StatementKind::Degree;
        return Ok(Line::Whole(Statement { at, kind }));
    }
    if is_word(token, "weight") {
        return Ok(Line::Weights(at, no_pairs(alloc)));
    }
    Err(Fault::Expected)
}

/// The statement, where each of one or more names has its weight.
pub fn weights_end(pairs: Pairs) -> Result<StatementKind, Fault>
    ensures { result ≡ weights_end pairs }
{
    let weights = whole_pairs(pairs)?;
    if weights.len() == 0 {
        return Err(Fault::Expected);
    }
    Ok(StatementKind::Weight(weights))
}

/// The statement, where each name has its side.
pub fn shape_end(modulus: Number, pairs: Pairs) -> Result<StatementKind, Fault>
    ensures { result ≡ shape_end modulus pairs }
{
    let sides = whole_pairs(pairs)?;
    Ok(StatementKind::Shape { modulus, sides })
}
