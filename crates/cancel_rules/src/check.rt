//! A proof that cancels letters: its items are made one after another, and the goal's rows add up to its scale times the claim.
ghost use Rattle.std.specs.Prelude.{◌≡◌, IfOk, IfErr, OnOk};
ghost use Rattle.cancel_rules.specs.Acceptance.{IsAccepted, IsRefused, IsMemory};
ghost use Rattle.cancel_rules.specs.Acceptance.{ShowsByCancelling, IsReadableCancellation};

use crate::items::make_items;
use crate::marks::declared_marks;
use crate::{CancelRefusal, Cancellation};
use adjoint_rules::Problem;
use cofactor_checker::{Accepted, check_goal, posed_claim};
use std::alloc::Global;

/// Whether the proof leads to the claim that it names, over the generators of the problem: its items follow one after
/// another, and its goal adds up. Each refusal comes exactly where its test is the first that fails.
pub fn check_cancellation(
    alloc: Global,
    problem: &Problem,
    proof: &Cancellation,
) -> Result<Accepted, CancelRefusal>
    requires { IsReadableCancellation problem.now.parts.quiver proof.now }
    ensures accepted { let p = proof.now in
        IfOk result (λ accepted. accepted ≡ record { claim = p.claim; denominator = p.denominator }) }
    ensures accepts { OnOk result (IsAccepted problem.now proof.now) }
    ensures shows { OnOk result (ShowsByCancelling problem.now proof.now) }
    ensures refuses { IfErr result (IsRefused problem.now proof.now) }
    ensures complete { IsAccepted problem.now proof.now → IfErr result IsMemory }
{
    let claims = problem.parts.claims.as_slice();
    let parts = proof.items.as_slice();
    let claim = posed_claim(claims, proof.claim, proof.denominator, parts, &proof.goal)?;
    let marks = declared_marks(alloc, proof, problem.parts.quiver.letters())?;
    let made = make_items(alloc, problem, proof, &marks)?;
    let generators = problem.generators.as_slice();
    let items = made.polynomials.as_slice();
    check_goal(alloc, claim, generators, items, &proof.goal, made.rows)?;
    Ok(Accepted {
        claim: proof.claim,
        denominator: proof.denominator,
    })
}
