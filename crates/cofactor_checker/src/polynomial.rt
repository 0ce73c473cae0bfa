//! The polynomial of a lemma.
ghost use Rattle.std.specs.Prelude.{◌≡◌, ◌+◌, ◌≤◌, ◌≤ℤ◌, pos, length, OnOk, IfOk, IfErr, IfSome, IfNone};
ghost use Rattle.adjoint_rules.specs.Problem.{polynomials};
ghost use Rattle.cofactor_checker.specs.Lemmas.{HasLeastIndivisible, IsDivisible, IsMade, lemma_polynomial, RefusesLemma};
ghost use Rattle.cofactor_checker.specs.LemmaAcceptance.{HasScale, IsRanged};

use crate::Refusal;
use crate::rows::add_rows;
use crate::scales::divides;
use nc_polynomial::table::descending;
use nc_polynomial::{Poly, PolyFault};
use std::alloc::Global;
use traced_rows::Lemma;
use word_core::Word;

// The last term whose coefficient the scale doesn't divide.
fn indivisible<'a>(terms: &'a [(i128, Word)], scale: i128) -> Option<&'a (i128, Word)>
    requires { pos 1 ≤ℤ scale }
    ensures found { IfSome result (λ t. HasLeastIndivisible scale terms.now t.now.1 t.now.0) }
    ensures none { IfNone result (IsDivisible scale terms.now) }
{
    let mut rest = terms;
    while let Some((term, greater)) = rest.split_last() {
        if !divides(scale, term.0) {
            return Some(term);
        }
        rest = greater;
    }
    None
}

/// The polynomial of the lemma with this number, before which so many rows stand, or what is told of the lemma.
pub fn make_polynomial(
    alloc: Global,
    generators: &[Poly],
    lemmas: &[Poly],
    lemma: &Lemma,
    number: u32,
    before: u32,
) -> Result<Poly, Refusal>
    requires count { before + length lemma.now.rows ≤ 4294967295 }
    requires ranged { IsRanged lemma.now }
    requires scale { HasScale lemma.now }
    requires numbered { number ≡ length lemmas.now + 1 }
    ensures polynomial { IfOk result (λ p. p.terms ≡ lemma_polynomial (polynomials generators.now) (polynomials lemmas.now) lemma.now) }
    ensures made { OnOk result (IsMade (polynomials generators.now) (polynomials lemmas.now) lemma.now) }
    ensures refused { IfErr result (RefusesLemma (polynomials generators.now) (polynomials lemmas.now) before lemma.now) }
{
    let rows = lemma.rows.as_slice();
    let sum = add_rows(alloc, generators, lemmas, rows, before)?;
    let terms = descending(alloc, sum)?;
    if let Some(term) = indivisible(terms.as_slice(), lemma.scale) {
        return Err(Refusal::NotDivisible {
            lemma: number,
            word: term.1.copy()?,
            got: term.0,
        });
    }
    match Poly::from_descending(terms) {
        Ok(multiple) => Ok(multiple.divide(lemma.scale)?),
        Err(PolyFault::Memory(failed)) => Err(Refusal::Memory(failed)),
        Err(PolyFault::Size(_)) => Err(Refusal::LemmaSize { lemma: number }),
        Err(PolyFault::Overflow(_)) => Err(Refusal::LemmaSize { lemma: number }),
    }
}
