//! A certificate of rows over generators alone: adds up its rows, and compares the sum with the denominator times the claim.
ghost use Rattle.std.specs.Prelude.{◌≡◌, ◌≤◌, length, All, IfOk, IfErr, OnOk};
ghost use Rattle.adjoint_rules.specs.Problem.{polynomials};
ghost use Rattle.coef_int.specs.Range.{IsCoefficient};
ghost use Rattle.cofactor_checker.specs.Acceptance.{claim_of, Accepts, Refuses, IsMemory};
ghost use Rattle.traced_rows.specs.Rows.{rows_of};
ghost use Rattle.definitions.specs.Combination.{IsCombination};

use crate::compare::{least_difference, overflow_of_multiple};
use crate::rows::{add_rows, numbered};
use crate::{Accepted, Refusal};
use adjoint_rules::Problem;
use nc_polynomial::Poly;
use std::alloc::Global;
use traced_rows::Certificate;

/// Whether the rows of a certificate add up to the denominator times its claim, over the generators of the problem.
/// The rows may be of any words. Each refusal comes exactly where its test is the first that fails, and none is of
/// a scale or a lemma.
pub fn check(
    alloc: Global,
    problem: &Problem,
    certificate: &Certificate,
) -> Result<Accepted, Refusal>
    requires rows { length certificate.now.rows ≤ 4294967295 }
    requires denominator { IsCoefficient certificate.now.denominator }
    requires coefficients { All (λ r. IsCoefficient r.coef) certificate.now.rows }
    ensures accepted { let c = certificate.now in
        IfOk result (λ accepted. accepted ≡ record { claim = c.claim; denominator = c.denominator }) }
    ensures accepts { OnOk result (Accepts (polynomials problem.now.parts.claims) (polynomials problem.now.generators) certificate.now) }
    ensures combination { let c = certificate.now in
        let claim = claim_of (polynomials problem.now.parts.claims) c in
        OnOk result (IsCombination (polynomials problem.now.generators) (rows_of c.rows) c.denominator claim) }
    ensures refuses { IfErr result (Refuses (polynomials problem.now.parts.claims) (polynomials problem.now.generators) certificate.now) }
    ensures complete { Accepts (polynomials problem.now.parts.claims) (polynomials problem.now.generators) certificate.now → IfErr result IsMemory }
{
    let claims = problem.parts.claims.as_slice();
    check_over(alloc, claims, problem.generators.as_slice(), certificate)
}

/// The same over lists of claims and generators. The rows may be of any
/// words. Each refusal comes exactly where its test is the first that fails.
pub fn check_over(
    alloc: Global,
    claims: &[Poly],
    generators: &[Poly],
    certificate: &Certificate,
) -> Result<Accepted, Refusal>
    requires rows { length certificate.now.rows ≤ 4294967295 }
    requires denominator { IsCoefficient certificate.now.denominator }
    requires coefficients { All (λ r. IsCoefficient r.coef) certificate.now.rows }
    ensures accepted { let c = certificate.now in
        IfOk result (λ accepted. accepted ≡ record { claim = c.claim; denominator = c.denominator }) }
    ensures accepts { OnOk result (Accepts (polynomials claims.now) (polynomials generators.now) certificate.now) }
    ensures combination { let c = certificate.now in
        let claim = claim_of (polynomials claims.now) c in
        OnOk result (IsCombination (polynomials generators.now) (rows_of c.rows) c.denominator claim) }
    ensures refuses { IfErr result (Refuses (polynomials claims.now) (polynomials generators.now) certificate.now) }
    ensures complete { Accepts (polynomials claims.now) (polynomials generators.now) certificate.now → IfErr result IsMemory }
{
    let Some(claim) = numbered(claims, certificate.claim) else {
        return Err(Refusal::NoSuchClaim);
    };
    let denominator = certificate.denominator;
    if denominator < 1 {
        return Err(Refusal::ZeroDenominator);
    }
    if let Some(overflow) = overflow_of_multiple(denominator, claim.terms.as_slice()) {
        return Err(Refusal::Overflow { row: 0, overflow });
    }
    let rows = certificate.rows.as_slice();
    let sum = add_rows(alloc, generators, &[], rows, 0)?;
    match least_difference(&sum, denominator, claim.terms.as_slice()) {
        Ok(None) => Ok(Accepted {
            claim: certificate.claim,
            denominator,
        }),
        Ok(Some(difference)) => Err(Refusal::Differs {
            word: difference.word,
            want: difference.want,
            got: difference.got,
        }),
        Err(failed) => Err(Refusal::Memory(failed)),
    }
}
