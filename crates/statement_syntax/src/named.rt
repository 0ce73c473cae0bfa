//! Statements of names alone: `object`, `solve`, `eliminate`, `map`, `pinv`, `inverse`, `inner`, `projection`.

ghost use Rattle.std.specs.Prelude.{◌≡◌};
ghost use Rattle.lists.specs.Stop.{Gives};
ghost use Rattle.statement_syntax.specs.Lines.{list_step, list_end, map_names_step, map_step, map_end, pair_step, projection_step};
ghost use Rattle.statement_syntax.specs.Tree.{pair_kind};

use crate::expected::{is_word, name_in};
use crate::line::{Line, ListWord, MapRest, PairWord};
use crate::tree::{Name, Statement, StatementKind};
use lists::{Listing, Stop};
use statement_tokens::{Fault, Spot, Token, TokenKind};

/// One more name of `object`, `solve` or `eliminate`.
pub fn list_step(
    word: ListWord,
    at: Spot,
    names: Listing<Name>,
    token: Token,
) -> Result<Line, Stop<Fault>>
    ensures { Gives (λ read. read) result (list_step word at names token.kind token.at) }
{
    let mut names = names;
    names.push(name_in(token)?)?;
    Ok(Line::List { word, at, names })
}

/// The statement, where there is a name.
pub fn list_end(word: ListWord, names: Listing<Name>) -> Result<StatementKind, Fault>
    ensures { result ≡ list_end word names }
{
    if names.len() == 0 {
        return Err(Fault::Expected);
    }
    match word {
        ListWord::Object => Ok(StatementKind::Objects(names)),
        ListWord::Solve => Ok(StatementKind::Solve(names)),
        ListWord::Eliminate => Ok(StatementKind::Eliminate(names)),
    }
}

fn map_names_step(at: Spot, names: Listing<Name>, token: Token) -> Result<Line, Stop<Fault>>
    ensures { Gives (λ read. read) result (map_names_step at names token.kind token.at) }
{
    match &token.kind {
        TokenKind::Colon => {
            if names.len() == 0 {
                return Err(Stop::Fault(Fault::Expected));
            }
            let rest = MapRest::Colon;
            Ok(Line::Map { at, names, rest })
        }
        _ => {
            let mut names = names;
            names.push(name_in(token)?)?;
            let rest = MapRest::Names;
            Ok(Line::Map { at, names, rest })
        }
    }
}

/// One more token of `map`.
pub fn map_step(
    at: Spot,
    names: Listing<Name>,
    rest: MapRest,
    token: Token,
) -> Result<Line, Stop<Fault>>
    ensures { Gives (λ read. read) result (map_step at names rest token.kind token.at) }
{
    let rest = match rest {
        MapRest::Names => return map_names_step(at, names, token),
        MapRest::Colon => MapRest::Source(name_in(token)?),
        MapRest::Source(source) => match &token.kind {
            TokenKind::Arrow => MapRest::Arrow(source),
            _ => return Err(Stop::Fault(Fault::Expected)),
        },
        MapRest::Arrow(source) => MapRest::Target(source, name_in(token)?),
        MapRest::Target(source, target) => {
            if !is_word(&token, "self") {
                return Err(Stop::Fault(Fault::Expected));
            }
            let kind = StatementKind::Maps {
                names,
                source,
                target,
                selfmade: true,
            };
            return Ok(Line::Whole(Statement { at, kind }));
        }
    };
    Ok(Line::Map { at, names, rest })
}

/// The map without `self`, where its target is read.
pub fn map_end(names: Listing<Name>, rest: MapRest) -> Result<StatementKind, Fault>
    ensures { result ≡ map_end names rest }
{
    match rest {
        MapRest::Target(source, target) => Ok(StatementKind::Maps {
            names,
            source,
            target,
            selfmade: false,
        }),
        _ => Err(Fault::Expected),
    }
}

fn pair_kind(word: PairWord, first: Name, second: Name) -> StatementKind
    ensures { result ≡ pair_kind word first second }
{
    match word {
        PairWord::Pinv => StatementKind::Pinv(first, second),
        PairWord::Inverse => StatementKind::Inverse(first, second),
        PairWord::Inner => StatementKind::Inner(first, second),
    }
}

/// One of the two names of `pinv`, `inverse` or `inner`.
pub fn pair_step(word: PairWord, at: Spot, first: Option<Name>, token: Token) -> Result<Line, Fault>
    ensures { result ≡ pair_step word at first token.kind token.at }
{
    let name = name_in(token)?;
    match first {
        None => Ok(Line::Pair {
            word,
            at,
            first: Some(name),
        }),
        Some(first) => {
            let kind = pair_kind(word, first, name);
            Ok(Line::Whole(Statement { at, kind }))
        }
    }
}

/// The name of `projection`.
pub fn projection_step(at: Spot, token: Token) -> Result<Line, Fault>
    ensures { result ≡ projection_step at token.kind token.at }
{
    let kind = StatementKind::Projection(name_in(token)?);
    Ok(Line::Whole(Statement { at, kind }))
}
