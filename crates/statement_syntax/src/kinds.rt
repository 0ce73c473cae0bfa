//! The tokens of a tree, without their places.

ghost use Rattle.std.specs.Prelude.{◌≡◌, ◌++◌, OnOk};
ghost use Rattle.std.specs.List.{flat_map};
ghost use Rattle.statement_syntax.specs.Written.{name_kinds, number_kinds, sign_kinds, mark_kinds, term_kinds, sum_kinds, factor_kinds, word_kinds};
ghost use Rattle.statement_syntax.specs.Written.{pair_kinds, list_kinds, map_kinds, sides_kinds, two_kinds, weight_kinds, shape_kinds, statement_kinds};

use crate::tree::{Factor, Mark, Name, Number, Primary, StatementKind, Sum, Term};
use lists::{Duplicate, Listing, Text};
use statement_tokens::TokenKind;
use std::alloc::{AllocError, Global};

fn put_name(name: &Name, out: &mut Listing<TokenKind>) -> Result<(), AllocError>
    ensures { OnOk result (out.new ≡ out.old ++ name_kinds name.now) }
{
    Ok(out.push(TokenKind::Name(name.text.duplicate()?))?)
}

fn put_number(number: &Number, out: &mut Listing<TokenKind>) -> Result<(), AllocError>
    ensures { OnOk result (out.new ≡ out.old ++ number_kinds number.now) }
{
    Ok(out.push(TokenKind::Literal(number.value))?)
}

fn put_sign(leading: bool, negative: bool, out: &mut Listing<TokenKind>) -> Result<(), AllocError>
    ensures { OnOk result (out.new ≡ out.old ++ sign_kinds leading negative) }
{
    match (leading, negative) {
        (_, true) => out.push(TokenKind::Minus)?,
        (false, false) => out.push(TokenKind::Plus)?,
        (true, false) => {}
    }
    Ok(())
}

fn put_mark(mark: &Mark, out: &mut Listing<TokenKind>) -> Result<(), AllocError>
    ensures { OnOk result (out.new ≡ out.old ++ mark_kinds mark.now) }
{
    match mark {
        Mark::Adjoint => Ok(out.push(TokenKind::Quote)?),
        Mark::Power { exponent, .. } => {
            out.push(TokenKind::Caret)?;
            put_number(exponent, out)
        }
    }
}

#[cycle(kinds)]
fn put_sum(sum: &Sum, out: &mut Listing<TokenKind>) -> Result<(), AllocError>
    ensures { OnOk result (out.new ≡ out.old ++ sum_kinds sum.now) }
{
    let mut leading = true;
    for term in sum.terms.as_slice() {
        put_term(leading, term, out)?;
        leading = false;
    }
    Ok(())
}

#[cycle(kinds)]
fn put_term(leading: bool, term: &Term, out: &mut Listing<TokenKind>) -> Result<(), AllocError>
    ensures { OnOk result (out.new ≡ out.old ++ term_kinds leading term.now) }
{
    put_sign(leading, term.negative, out)?;
    if let Some(number) = &term.literal {
        put_number(number, out)?;
    }
    for factor in term.factors.as_slice() {
        put_factor(factor, out)?;
    }
    Ok(())
}

#[cycle(kinds)]
fn put_factor(factor: &Factor, out: &mut Listing<TokenKind>) -> Result<(), AllocError>
    ensures { OnOk result (out.new ≡ out.old ++ factor_kinds factor.now) }
{
    match &factor.primary {
        Primary::Letter(name) => put_name(name, out)?,
        Primary::Identity(name) => {
            out.push(TokenKind::OpenSquare)?;
            put_name(name, out)?;
            out.push(TokenKind::CloseSquare)?;
        }
        Primary::Bracket(sum) => {
            out.push(TokenKind::Open)?;
            put_sum(sum, out)?;
            out.push(TokenKind::Close)?;
        }
    }
    for mark in factor.marks.as_slice() {
        put_mark(mark, out)?;
    }
    Ok(())
}

fn put_word(alloc: Global, word: &str, out: &mut Listing<TokenKind>) -> Result<(), AllocError>
    ensures { OnOk result (out.new ≡ out.old ++ word_kinds word.now) }
{
    Ok(out.push(TokenKind::Name(Text::from_str(alloc, word)?))?)
}

fn put_pairs(
    pairs: &Listing<(Name, Number)>,
    out: &mut Listing<TokenKind>,
) -> Result<(), AllocError>
    ensures { OnOk result (out.new ≡ out.old ++ flat_map pair_kinds pairs.now) }
{
    for pair in pairs.as_slice() {
        put_name(&pair.0, out)?;
        put_number(&pair.1, out)?;
    }
    Ok(())
}

fn put_list(
    alloc: Global,
    word: &str,
    names: &Listing<Name>,
    out: &mut Listing<TokenKind>,
) -> Result<(), AllocError>
    ensures { OnOk result (out.new ≡ out.old ++ list_kinds word.now names.now) }
{
    put_word(alloc, word, out)?;
    for name in names.as_slice() {
        put_name(name, out)?;
    }
    Ok(())
}

fn put_map(
    alloc: Global,
    names: &Listing<Name>,
    source: &Name,
    target: &Name,
    selfmade: bool,
    out: &mut Listing<TokenKind>,
) -> Result<(), AllocError>
    ensures { OnOk result (out.new ≡ out.old ++ map_kinds names.now source.now target.now selfmade) }
{
    put_list(alloc, "map", names, out)?;
    out.push(TokenKind::Colon)?;
    put_name(source, out)?;
    out.push(TokenKind::Arrow)?;
    put_name(target, out)?;
    if selfmade {
        put_word(alloc, "self", out)?;
    }
    Ok(())
}

fn put_sides(
    alloc: Global,
    word: &str,
    left: &Sum,
    right: &Sum,
    out: &mut Listing<TokenKind>,
) -> Result<(), AllocError>
    ensures { OnOk result (out.new ≡ out.old ++ sides_kinds word.now left.now right.now) }
{
    put_word(alloc, word, out)?;
    put_sum(left, out)?;
    out.push(TokenKind::Equals)?;
    put_sum(right, out)
}

fn put_two(
    alloc: Global,
    word: &str,
    first: &Name,
    second: &Name,
    out: &mut Listing<TokenKind>,
) -> Result<(), AllocError>
    ensures { OnOk result (out.new ≡ out.old ++ two_kinds word.now first.now second.now) }
{
    put_word(alloc, word, out)?;
    put_name(first, out)?;
    put_name(second, out)
}

fn put_weights(
    alloc: Global,
    weights: &Listing<(Name, Number)>,
    out: &mut Listing<TokenKind>,
) -> Result<(), AllocError>
    ensures { OnOk result (out.new ≡ out.old ++ weight_kinds weights.now) }
{
    put_word(alloc, "order", out)?;
    put_word(alloc, "weight", out)?;
    put_pairs(weights, out)
}

fn put_shape(
    alloc: Global,
    modulus: &Number,
    sides: &Listing<(Name, Number)>,
    out: &mut Listing<TokenKind>,
) -> Result<(), AllocError>
    ensures { OnOk result (out.new ≡ out.old ++ shape_kinds modulus.now sides.now) }
{
    put_word(alloc, "model", out)?;
    put_number(modulus, out)?;
    put_pairs(sides, out)
}

/// Adds the tokens of a statement.
pub fn put_statement(
    alloc: Global,
    kind: &StatementKind,
    out: &mut Listing<TokenKind>,
) -> Result<(), AllocError>
    ensures { OnOk result (out.new ≡ out.old ++ statement_kinds kind.now) }
{
    match kind {
        StatementKind::Language => {
            put_word(alloc, "language", out)?;
            Ok(out.push(TokenKind::Literal(2))?)
        }
        StatementKind::Objects(names) => put_list(alloc, "object", names, out),
        StatementKind::Maps {
            names,
            source,
            target,
            selfmade,
        } => put_map(alloc, names, source, target, *selfmade, out),
        StatementKind::Assume(left, right) => put_sides(alloc, "assume", left, right, out),
        StatementKind::Claim(left, right) => put_sides(alloc, "claim", left, right, out),
        StatementKind::Pinv(first, second) => put_two(alloc, "pinv", first, second, out),
        StatementKind::Inverse(first, second) => put_two(alloc, "inverse", first, second, out),
        StatementKind::Inner(first, second) => put_two(alloc, "inner", first, second, out),
        StatementKind::Projection(name) => {
            put_word(alloc, "projection", out)?;
            put_name(name, out)
        }
        StatementKind::Degree => {
            put_word(alloc, "order", out)?;
            put_word(alloc, "degree", out)
        }
        StatementKind::Weight(weights) => put_weights(alloc, weights, out),
        StatementKind::Solve(names) => put_list(alloc, "solve", names, out),
        StatementKind::Eliminate(names) => put_list(alloc, "eliminate", names, out),
        StatementKind::Shape { modulus, sides } => put_shape(alloc, modulus, sides, out),
    }
}
