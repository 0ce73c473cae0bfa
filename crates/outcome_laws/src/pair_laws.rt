//! The laws of budgets of pairs that are large enough for a claim.
ghost use Rattle.outcome_laws.specs.Enough.{OpenRunsTreatFew, PairsAreEnough, PairsAreEnoughForEach};

/// While a claim that follows below a word is open, fewer pairs were treated than are enough for that word.
pub fn open_runs_treat_few()
    ensures { OpenRunsTreatFew }
{}

/// With enough pairs for the word, such a claim is derived, or halted with another cause than the budget of pairs.
pub fn pairs_are_enough()
    ensures { PairsAreEnough }
{}

/// This holds for each outcome that `decide_all` and `decide` return.
pub fn pairs_are_enough_for_each()
    ensures { PairsAreEnoughForEach }
{}
