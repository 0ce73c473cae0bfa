//! What has been read of an expression.

ghost use Rattle.std.specs.Prelude.{◌≡◌, MatchResult, Ok, Err};
ghost use Rattle.lists.specs.Stop.{Gives};
ghost use Rattle.statement_syntax.specs.Steps.{empty_head, close_step, open_step, literal_step, caret_step, signed_step};
ghost use Rattle.statement_syntax.specs.Steps.{outside_step, token_step, whole_sum};
ghost use Rattle.statement_syntax.specs.declared.expression.Focus.TheVariants.{Outside};

use crate::expected::{name_in, number_in};
use crate::part::{ended_part, mark_step, part_with, sign_step, sum_with};
use crate::stack::Stack;
use crate::tree::{Factor, Mark, Name, Number, Primary, Sum, Term};
use lists::{Listing, Stop};
use statement_tokens::{Fault, Spot, Token, TokenKind};
use std::alloc::Global;
use std::mem;

/// The greatest number of open round brackets.
const BRACKET_LIMIT: usize = 64;

/// The sum before the term that is read: the place of its first token, if there is one, and the sign.
#[derive(Drop)]
pub struct Head {
    pub at: Option<Spot>,
    pub terms: Listing<Term>,
    pub negative: bool,
}

/// A product of which the last factor may get marks, and more factors may come.
#[derive(Drop)]
pub struct OpenProduct {
    pub at: Spot,
    pub literal: Option<Number>,
    pub factors: Listing<Factor>,
    pub last: Factor,
}

/// What has been read of the term.
#[derive(Drop)]
pub enum Part {
    Nothing,
    Scaled(Number),
    Product(OpenProduct),
}

/// Inside square brackets, after a caret, or neither.
#[derive(Drop)]
pub enum Focus {
    Outside,
    Square(Spot),
    Named(Spot, Name),
    /// After a caret at this place, of which the literal is next, with the product before it.
    Raised(OpenProduct, Spot),
}

/// An open round bracket, with what is before it.
#[derive(Drop)]
pub struct Level {
    pub head: Head,
    pub part: Part,
    pub at: Spot,
}

/// An expression up to some token.
#[derive(Drop)]
pub struct Reading {
    pub levels: Stack<Level>,
    pub head: Head,
    pub part: Part,
    pub focus: Focus,
}

/// Nothing of a sum.
pub fn empty_head(alloc: Global) -> Head
    ensures { result ≡ empty_head }
{
    Head {
        at: None,
        terms: Listing::new(alloc),
        negative: false,
    }
}

fn close_step(alloc: Global, reading: &mut Reading) -> Result<(), Stop<Fault>>
    requires { reading.old.focus ≡ Outside }
    ensures { Gives (λ done. reading.new) result (close_step reading.old.levels reading.old.head reading.old.part) }
{
    let part = mem::replace(&mut reading.part, Part::Nothing);
    let term = ended_part(alloc, part, reading.head.negative)?;
    match reading.levels.pop() {
        None => {
            drop(term);
            Err(Stop::Fault(Fault::Expected))
        }
        Some(Level { head, part, at }) => {
            drop(mem::replace(&mut reading.part, part));
            let sum = sum_with(mem::replace(&mut reading.head, head), term)?;
            part_with(alloc, &mut reading.part, Primary::Bracket(sum), at)?;
            Ok(())
        }
    }
}

fn open_step(alloc: Global, reading: &mut Reading, at: Spot) -> Result<(), Stop<Fault>>
    requires { reading.old.focus ≡ Outside }
    ensures { Gives (λ done. reading.new) result (open_step reading.old.levels reading.old.head reading.old.part at) }
{
    if reading.levels.len() >= BRACKET_LIMIT {
        return Err(Stop::Fault(Fault::TooDeep));
    }
    let head = mem::replace(&mut reading.head, empty_head(alloc));
    let part = mem::replace(&mut reading.part, Part::Nothing);
    reading.levels.push(Level { head, part, at })?;
    Ok(())
}

fn literal_step(reading: &mut Reading, number: Number) -> Result<(), Fault>
    requires { reading.old.focus ≡ Outside }
    ensures { MatchResult result (λ _. literal_step reading.old.levels reading.old.head reading.old.part number ≡ Ok reading.new)
        (λ fault. literal_step reading.old.levels reading.old.head reading.old.part number ≡ Err fault) }
{
    match reading.part {
        Part::Nothing => {
            drop(mem::replace(&mut reading.part, Part::Scaled(number)));
            Ok(())
        }
        _ => Err(Fault::Expected),
    }
}

// A sign ends the term before it, if there is one.
fn signed_step(
    alloc: Global,
    reading: &mut Reading,
    at: Spot,
    negative: bool,
) -> Result<(), Stop<Fault>>
    requires { reading.old.focus ≡ Outside }
    ensures { Gives (λ done. reading.new) result (signed_step reading.old.levels reading.old.head reading.old.part at negative) }
{
    let part = mem::replace(&mut reading.part, Part::Nothing);
    sign_step(alloc, &mut reading.head, part, at, negative)
}

fn outside_step(alloc: Global, reading: &mut Reading, token: Token) -> Result<(), Stop<Fault>>
    requires { reading.old.focus ≡ Outside }
    ensures { Gives (λ done. reading.new) result (outside_step reading.old.levels reading.old.head reading.old.part token.kind token.at) }
{
    let Token { at, kind } = token;
    match kind {
        TokenKind::Name(text) => {
            let letter = Primary::Letter(Name { text, at });
            Ok(part_with(alloc, &mut reading.part, letter, at)?)
        }
        TokenKind::Literal(value) => Ok(literal_step(reading, Number { value, at })?),
        TokenKind::Plus => signed_step(alloc, reading, at, false),
        TokenKind::Minus => signed_step(alloc, reading, at, true),
        TokenKind::Open => open_step(alloc, reading, at),
        TokenKind::Close => close_step(alloc, reading),
        TokenKind::OpenSquare => {
            drop(mem::replace(&mut reading.focus, Focus::Square(at)));
            Ok(())
        }
        TokenKind::Quote => mark_step(&mut reading.part, Mark::Adjoint),
        TokenKind::Caret => Ok(caret_step(reading, at)?),
        _ => Err(Stop::Fault(Fault::Expected)),
    }
}

// A caret after a factor. The literal is next.
fn caret_step(reading: &mut Reading, caret: Spot) -> Result<(), Fault>
    requires { reading.old.focus ≡ Outside }
    ensures { MatchResult result (λ _. caret_step reading.old.levels reading.old.head reading.old.part caret ≡ Ok reading.new)
        (λ fault. caret_step reading.old.levels reading.old.head reading.old.part caret ≡ Err fault) }
{
    match mem::replace(&mut reading.part, Part::Nothing) {
        Part::Product(product) => {
            drop(mem::replace(&mut reading.focus, Focus::Raised(product, caret)));
            Ok(())
        }
        _ => Err(Fault::Expected),
    }
}

/// The next token of an expression.
pub fn token_step(alloc: Global, reading: &mut Reading, token: Token) -> Result<(), Stop<Fault>>
    ensures { Gives (λ done. reading.new) result (token_step reading.old token.kind token.at) }
{
    match mem::replace(&mut reading.focus, Focus::Outside) {
        Focus::Outside => outside_step(alloc, reading, token),
        Focus::Square(left) => {
            let named = Focus::Named(left, name_in(token)?);
            drop(mem::replace(&mut reading.focus, named));
            Ok(())
        }
        Focus::Named(left, name) => match token.kind {
            TokenKind::CloseSquare => {
                drop(token);
                Ok(part_with(alloc, &mut reading.part, Primary::Identity(name), left)?)
            }
            _ => {
                drop((name, token));
                Err(Stop::Fault(Fault::Expected))
            }
        },
        Focus::Raised(product, caret) => {
            drop(mem::replace(&mut reading.part, Part::Product(product)));
            let exponent = number_in(&token);
            drop(token);
            let power = Mark::Power {
                at: caret,
                exponent: exponent?,
            };
            mark_step(&mut reading.part, power)
        }
    }
}

/// The expression, where it may end here.
pub fn whole_sum(alloc: Global, reading: Reading) -> Result<Sum, Stop<Fault>>
    ensures { Gives (λ read. read) result (whole_sum reading) }
{
    let Reading {
        levels,
        head,
        part,
        focus,
    } = reading;
    let open = levels.len() > 0;
    drop(levels);
    match focus {
        Focus::Outside if !open => match ended_part(alloc, part, head.negative) {
            Ok(term) => Ok(sum_with(head, term)?),
            Err(error) => {
                drop(head);
                Err(error)
            }
        },
        focus => {
            drop((head, part, focus));
            Err(Stop::Fault(Fault::Expected))
        }
    }
}
