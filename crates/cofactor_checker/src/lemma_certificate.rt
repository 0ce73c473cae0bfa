//! A certificate with lemmas: adds up its lemmas and its goal, and compares the sum with the scale of the goal times the claim.
ghost use Rattle.std.specs.Prelude.{◌≡◌, IfOk, IfErr, OnOk};
ghost use Rattle.adjoint_rules.specs.Problem.{polynomials};
ghost use Rattle.cofactor_checker.specs.LemmaAcceptance.{AcceptsLemmas, RefusesLemmaCertificate, IsReadable};

use crate::goal::check_goal;
use crate::lemmas::make_lemmas;
use crate::start::posed_claim;
use crate::{Accepted, Refusal};
use nc_polynomial::Poly;
use std::alloc::Global;
use traced_rows::LemmaCertificate;

/// Whether a certificate with lemmas shows the claim that it names. Each refusal comes exactly where its test is
/// the first that fails.
pub(crate) fn check_lemmas(
    alloc: Global,
    claims: &[Poly],
    generators: &[Poly],
    certificate: &LemmaCertificate,
) -> Result<Accepted, Refusal>
    requires { IsReadable certificate.now }
    ensures accepted { let c = certificate.now in
        IfOk result (λ accepted. accepted ≡ record { claim = c.claim; denominator = c.denominator }) }
    ensures accepts { OnOk result (AcceptsLemmas (polynomials claims.now) (polynomials generators.now) certificate.now) }
    ensures refuses { IfErr result (RefusesLemmaCertificate (polynomials claims.now) (polynomials generators.now) certificate.now) }
{
    let items = certificate.lemmas.as_slice();
    let goal = &certificate.goal;
    let claim = posed_claim(
        claims,
        certificate.claim,
        certificate.denominator,
        items,
        goal,
    )?;
    let made = make_lemmas(alloc, generators, items)?;
    let lemmas = made.polynomials.as_slice();
    check_goal(alloc, claim, generators, lemmas, goal, made.rows)?;
    Ok(Accepted {
        claim: certificate.claim,
        denominator: certificate.denominator,
    })
}
