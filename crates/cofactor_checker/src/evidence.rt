//! Evidence of either format.
ghost use Rattle.std.specs.Prelude.{IfOk, IfErr, OnOk};
ghost use Rattle.adjoint_rules.specs.Problem.{polynomials};
ghost use Rattle.cofactor_checker.specs.Acceptance.{IsMemory};
ghost use Rattle.cofactor_checker.specs.Evidence.{AcceptsEvidence, RefusesEvidence, ShowsClaim, NamesClaim, IsReadableEvidence};

use crate::certificate::check;
use crate::lemma_certificate::check_lemmas;
use crate::{Accepted, Refusal};
use adjoint_rules::Problem;
use std::alloc::Global;
use traced_rows::Evidence;

/// Whether the evidence shows its claim: its lemmas and its rows add up, over the generators of the problem.
/// The rows may be of any words. Each refusal comes exactly where its test is the first that fails.
pub fn check_evidence(
    alloc: Global,
    problem: &Problem,
    evidence: &Evidence,
) -> Result<Accepted, Refusal>
    requires { IsReadableEvidence evidence.now }
    ensures accepted { IfOk result (NamesClaim evidence.now) }
    ensures accepts { OnOk result (AcceptsEvidence (polynomials problem.now.parts.claims) (polynomials problem.now.generators) evidence.now) }
    ensures adds_up { OnOk result (ShowsClaim (polynomials problem.now.parts.claims) (polynomials problem.now.generators) evidence.now) }
    ensures refuses { IfErr result (RefusesEvidence (polynomials problem.now.parts.claims) (polynomials problem.now.generators) evidence.now) }
    ensures complete { AcceptsEvidence (polynomials problem.now.parts.claims) (polynomials problem.now.generators) evidence.now → IfErr result IsMemory }
{
    match evidence {
        Evidence::Plain(certificate) => check(alloc, problem, certificate),
        Evidence::Lemmas(certificate) => {
            let claims = problem.parts.claims.as_slice();
            check_lemmas(alloc, claims, problem.generators.as_slice(), certificate)
        }
    }
}
