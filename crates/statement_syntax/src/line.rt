//! Statements, a line each: what has been read of a line, and what may come next.

ghost use Rattle.std.specs.Prelude.{◌≡◌};
ghost use Rattle.lists.specs.Stop.{Gives};
ghost use Rattle.statement_syntax.specs.Lines.{IsPlain, IsBare, line_step, line_end};

use crate::expected::number_in;
use crate::expression::Reading;
use crate::named::{list_end, list_step, map_end, map_step, pair_step, projection_step};
use crate::numbered::{no_pairs, order_step, pairs_step, shape_end, weights_end};
use crate::opening::start_step;
use crate::sides::{sides_end, sides_step};
use crate::tree::{Name, Number, Statement, StatementKind, Sum};
use lists::{Listing, Stop};
use statement_tokens::{Fault, Language, Spot, Token};
use std::alloc::Global;
use std::mem;

/// The words before a list of names.
#[derive(Clone, Copy)]
pub enum ListWord {
    Object,
    Solve,
    Eliminate,
}

/// The words before two sides.
#[derive(Clone, Copy)]
pub enum SidesWord {
    Assume,
    Claim,
}

/// The words before two names.
#[derive(Clone, Copy)]
pub enum PairWord {
    Pinv,
    Inverse,
    Inner,
}

/// The words that begin a statement.
#[derive(Clone, Copy)]
pub enum Opening {
    List(ListWord),
    Map,
    Sides(SidesWord),
    Pair(PairWord),
    Projection,
    Order,
    Model,
}

/// What has been read of `map` after its names.
#[derive(Drop)]
pub enum MapRest {
    Names,
    Colon,
    Source(Name),
    Arrow(Name),
    Target(Name, Name),
}

/// Names with their numbers, and a name whose number has not come yet.
#[derive(Drop)]
pub struct Pairs {
    pub whole: Listing<(Name, Number)>,
    pub half: Option<Name>,
}

/// What has been read of a line.
#[derive(Drop)]
pub enum Line {
    Start,
    List {
        word: ListWord,
        at: Spot,
        names: Listing<Name>,
    },
    Map {
        at: Spot,
        names: Listing<Name>,
        rest: MapRest,
    },
    Sides {
        word: SidesWord,
        at: Spot,
        left: Option<Sum>,
        reading: Reading,
    },
    Pair {
        word: PairWord,
        at: Spot,
        first: Option<Name>,
    },
    Projection(Spot),
    Order(Spot),
    Weights(Spot, Pairs),
    Model(Spot),
    Shape(Spot, Number, Pairs),
    Whole(Statement),
}

/// The line of a file of the language with one more token. An expression, which may be long, is read in its place.
pub fn line_step(
    alloc: Global,
    language: Language,
    line: &mut Line,
    token: Token,
) -> Result<(), Stop<Fault>>
    ensures { Gives (λ done. line.new) result (line_step language line.old token.kind token.at) }
{
    match line {
        Line::Sides { left, reading, .. } => sides_step(alloc, left, reading, token),
        _ => plain_step(alloc, language, line, token),
    }
}

// The same for a line that holds no expression.
fn plain_step(
    alloc: Global,
    language: Language,
    line: &mut Line,
    token: Token,
) -> Result<(), Stop<Fault>>
    requires { IsPlain line.old }
    ensures { Gives (λ done. line.new) result (line_step language line.old token.kind token.at) }
{
    let next = plain_line(alloc, language, mem::replace(line, Line::Start), token)?;
    drop(mem::replace(line, next));
    Ok(())
}

fn plain_line(
    alloc: Global,
    language: Language,
    line: Line,
    token: Token,
) -> Result<Line, Stop<Fault>>
    requires { IsPlain line }
    ensures { Gives (λ read. read) result (line_step language line token.kind token.at) }
{
    match line {
        Line::List { word, at, names } => list_step(word, at, names, token),
        Line::Map { at, names, rest } => map_step(at, names, rest, token),
        Line::Pair { word, at, first } => Ok(pair_step(word, at, first, token)?),
        Line::Weights(at, pairs) => Ok(Line::Weights(at, pairs_step(pairs, token)?)),
        Line::Shape(at, modulus, pairs) => {
            Ok(Line::Shape(at, modulus, pairs_step(pairs, token)?))
        }
        line => {
            let next = bare_line(alloc, language, &line, token);
            drop(line);
            Ok(next?)
        }
    }
}

// The same where nothing of the line so far is kept.
fn bare_line(alloc: Global, language: Language, line: &Line, token: Token) -> Result<Line, Fault>
    requires { IsBare line.now }
    ensures { result ≡ line_step language line.now token.kind token.at }
{
    match line {
        Line::Start => start_step(alloc, language, &token),
        Line::Projection(at) => projection_step(*at, token),
        Line::Order(at) => order_step(alloc, *at, &token),
        Line::Model(at) => Ok(Line::Shape(*at, number_in(&token)?, no_pairs(alloc))),
        _ => Err(Fault::Expected),
    }
}

/// The statement, where the line may end here.
pub fn line_end(alloc: Global, line: Line) -> Result<Statement, Stop<Fault>>
    ensures { Gives (λ read. read) result (line_end line) }
{
    let (at, kind) = match line {
        Line::List { word, at, names } => (at, list_end(word, names)?),
        Line::Map { at, names, rest } => (at, map_end(names, rest)?),
        Line::Sides {
            word,
            at,
            left,
            reading,
        } => (at, sides_end(alloc, word, left, reading)?),
        Line::Weights(at, pairs) => (at, weights_end(pairs)?),
        Line::Shape(at, modulus, pairs) => (at, shape_end(modulus, pairs)?),
        Line::Whole(statement) => return Ok(statement),
        Line::Start | Line::Pair { .. } | Line::Projection(_) | Line::Order(_) | Line::Model(_) =>
            return Err(Stop::Fault(Fault::Expected)),
    };
    Ok(Statement { at, kind })
}
