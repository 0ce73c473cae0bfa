//! The laws of proofs that cancel letters, and what they mean in every category. They have nothing to run.
ghost use Rattle.cancel_rules.specs.Laws.{AcceptedCancellationLeads, CancellationRefusalIsUnique, AcceptedCancellationIsNotRefused, CancellationIsJudged};
ghost use Rattle.cancel_rules.specs.Meaning.{IsCancellationSound, IsCancellationStarSound};

use category_laws::{Involutive, Preadditive};

/// In the category that is handed in a proof that cancels letters proves its claim: for every quiver, list of typed generators
/// and proof whose items and goal lead to the claim, each representation in which the denominator cancels, the letters that the
/// proof calls monic and epic have such arrows, and all generators have the value zero gives the claim the value zero.
pub fn cancellation_sound<C: Preadditive>(category: &C)
    ensures { IsCancellationSound (C.structure category.now) }
{}

/// In the category that is handed in, and in each star representation, a proof that cancels letters over the generators of a
/// statement gives its claim the value zero where the assumptions have it, the denominator cancels, and the letters that the proof
/// calls monic and epic have such arrows.
pub fn cancellation_star_sound<C: Involutive>(category: &C)
    ensures { IsCancellationStarSound (C.structure category.now) (C.involution category.now) }
{}

/// A proof that passes each test leads to the claim that it names. It does nothing when it runs.
pub fn accepted_cancellation_leads()
    ensures { AcceptedCancellationLeads }
{}

/// Of one proof there is one refusal at most, apart from want of memory: so `check_cancellation` answers with no
/// other. It does nothing when it runs.
#[tactic(auto, using(crate::proofs::Judged::cancellation_refusal_is_unique))]
pub fn cancellation_refusal_is_unique()
    ensures { CancellationRefusalIsUnique }
{}

/// A proof that passes each test is refused for want of memory alone. It does nothing when it runs.
#[tactic(auto, using(crate::proofs::Judged::accepted_cancellation_is_not_refused))]
pub fn accepted_cancellation_is_not_refused()
    ensures { AcceptedCancellationIsNotRefused }
{}

/// Each proof is accepted, or one of its tests is the first that fails. It does nothing when it runs.
pub fn cancellation_is_judged()
    ensures { CancellationIsJudged }
{}
