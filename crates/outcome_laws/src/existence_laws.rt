//! The laws that the rounds and the outcomes that are defined exist.
ghost use Rattle.outcome_laws.specs.Existence.{EachStateHasARound, EachClaimHasAnOutcome, EachProblemHasOutcomes};

/// Each round has an outcome, from any state.
pub fn each_state_has_a_round()
    ensures { EachStateHasARound }
{}

/// Each claim has an outcome, after at most one more round than the budget has pairs.
pub fn each_claim_has_an_outcome()
    ensures { EachClaimHasAnOutcome }
{}

/// The claims of each problem have outcomes, and there are the rules that are returned with them.
pub fn each_problem_has_outcomes()
    ensures { EachProblemHasOutcomes }
{}
