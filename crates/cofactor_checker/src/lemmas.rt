//! The lemmas of a certificate, one after another.
ghost use Rattle.std.specs.Prelude.{◌≡◌, ◌≤◌, [], length, All, OnOk, IfOk, IfErr};
ghost use Rattle.adjoint_rules.specs.Problem.{polynomials};
ghost use Rattle.cofactor_checker.specs.Lemmas.{lemma_polynomials, LemmasPass, RefusesLemmas, row_count};
ghost use Rattle.cofactor_checker.specs.LemmaAcceptance.{HasScale, IsRanged};

use crate::Refusal;
use crate::polynomial::make_polynomial;
use lists::Listing;
use nc_polynomial::Poly;
use std::alloc::Global;
use traced_rows::Lemma;

/// The greatest number of terms that the polynomials of all lemmas have together.
pub const KEPT_LIMIT: usize = 1_000_000;

/// The polynomials of lemmas, and how many rows these have together.
#[derive(Drop)]
pub(crate) struct MadeLemmas {
    pub polynomials: Listing<Poly>,
    pub rows: u32,
}

/// The polynomials of the lemmas, or what is told of the first that does not pass.
pub(crate) fn make_lemmas(
    alloc: Global,
    generators: &[Poly],
    lemmas: &[Lemma],
) -> Result<MadeLemmas, Refusal>
    requires few { length lemmas.now ≤ 4294967295 }
    requires few_rows { row_count lemmas.now ≤ 4294967295 }
    requires ranged { All IsRanged lemmas.now }
    requires scales { All HasScale lemmas.now }
    ensures polynomials { IfOk result (λ made. polynomials made.polynomials ≡ lemma_polynomials (polynomials generators.now) [] lemmas.now) }
    ensures rows { IfOk result (λ made. made.rows ≡ row_count lemmas.now) }
    ensures passed { OnOk result (LemmasPass (polynomials generators.now) [] lemmas.now) }
    ensures refused { IfErr result (RefusesLemmas (polynomials generators.now) [] 0 lemmas.now) }
{
    let mut polynomials = Listing::new(alloc);
    let mut rows = 0u32;
    let mut kept = 0usize;
    let mut number = 0u32;
    for lemma in lemmas {
        number += 1;
        let made = polynomials.as_slice();
        let polynomial = make_polynomial(alloc, generators, made, lemma, number, rows)?;
        rows += lemma.rows.len() as u32;
        kept += polynomial.terms();
        if kept > KEPT_LIMIT {
            return Err(Refusal::Kept { row: rows });
        }
        polynomials.push(polynomial)?;
    }
    Ok(MadeLemmas { polynomials, rows })
}
