//! The bases of evidence text.

ghost use Rattle.std.specs.Prelude.{◌≡◌, ◌<◌, IfOk, MatchResult, length, map};
ghost use Rattle.std.specs.List.{All};
ghost use Rattle.nc_polynomial.specs.Shape.{IsCanonical};
ghost use Rattle.block_text.specs.Fault.{ExplainsBy};
ghost use Rattle.block_lines.specs.Bases.{by_terms, AreCanonical, IsBases, IsFirstFault};
ghost use Rattle.block_lines.specs.Reading.{basis_steps};
ghost use Rattle.adjoint_rules.specs.Bases.{IsBasisOver};

use crate::{Blocks, LineThen, LinesThen, NoLines, NumberLine, PolynomialLine};
use adjoint_rules::{Basis, RULE_LIMIT};
use block_text::{BlockKind, NUMBER_LIMIT, ReadText, read_blocks};
use lists::Listing;
use nc_polynomial::Poly;
use quiver::Quiver;
use std::alloc::{AllocError, Global};
use word_core::Word;

type Terms = Listing<(i128, Word)>;

// A claim, rules and the rest, by the terms of the polynomials.
type BasisTerms = (u32, (Listing<Terms>, (Terms, ())));

// A line for the claim, one for each rule, and one for the rest.
type BasisLines<'q> = LineThen<
    NumberLine,
    LinesThen<PolynomialLine<'q>, LineThen<PolynomialLine<'q>, NoLines>>,
>;

fn basis_blocks(quiver: &Quiver) -> Blocks<BasisLines<'_>>
    ensures { ⟦<Blocks<BasisLines<'static>> as BlockKind>⟧.steps result ≡ basis_steps quiver.now }
{
    let rest = LineThen {
        line: PolynomialLine {
            word: "rest",
            quiver,
        },
        rest: NoLines,
    };
    let rest = LinesThen {
        word: "rule",
        limit: RULE_LIMIT,
        line: PolynomialLine {
            word: "rule",
            quiver,
        },
        rest,
    };
    let line = NumberLine {
        word: "claim",
        most: NUMBER_LIMIT as u32,
    };
    Blocks {
        first: "basis",
        second: "1",
        others: &["certificate", "model", "cancellation"],
        lines: LineThen { line, rest },
    }
}

// The polynomials of these terms.
fn polynomials(alloc: Global, lists: Listing<Terms>) -> Result<Listing<Poly>, AllocError>
    requires { All IsCanonical lists }
    ensures { IfOk result (λ ps. map (λ p. p.terms) ps ≡ lists) }
{
    let mut polynomials = Listing::with_room(alloc, lists.len())?;
    for terms in lists.into_vec() {
        polynomials.push(Poly { terms })?;
    }
    Ok(polynomials)
}

// The basis of these terms.
fn basis_of(alloc: Global, block: BasisTerms) -> Result<Basis, AllocError>
    requires { AreCanonical block }
    ensures { IfOk result (λ b. by_terms b ≡ block) }
{
    let (claim, (rules, (terms, ()))) = block;
    let rules = polynomials(alloc, rules)?;
    let rest = Poly { terms };
    Ok(Basis { claim, rules, rest })
}

// The bases of these terms.
fn bases_of(alloc: Global, blocks: Listing<BasisTerms>) -> Result<Listing<Basis>, AllocError>
    requires { All AreCanonical blocks }
    ensures { IfOk result (λ bases. map by_terms bases ≡ blocks) }
{
    let mut bases = Listing::new(alloc);
    for block in blocks.into_vec() {
        bases.push(basis_of(alloc, block)?)?;
    }
    Ok(bases)
}

/// The bases of the text, over the letters of the quiver, or its first fault. Blocks of other kinds are
/// skipped. Any text can fail for want of memory.
pub fn read_bases(alloc: Global, bytes: &[u8], quiver: &Quiver) -> ReadText<Basis>
    requires { length bytes.now < 4294967295 }
    // They are those of the bytes, or the fault is the first one of the bytes.
    ensures exact { MatchResult result (IsBases quiver.now bytes.now) (ExplainsBy (IsFirstFault quiver.now bytes.now)) }
    // Each can be checked.
    ensures checkable { IfOk result (All (IsBasisOver quiver.now)) }
{
    let blocks = read_blocks(alloc, &basis_blocks(quiver), bytes)?;
    Ok(bases_of(alloc, blocks)?)
}
