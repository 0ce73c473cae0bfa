//! The laws of the search for models.
ghost use Rattle.model_search.specs.SearchLaws.{LeastBreakingIsUnique, NoneBreaksLeavesNoLeast, EachSearchHasAnAnswer, BreakingCandidatesRefute};

/// At most one candidate is the least that breaks a claim. It has nothing to run.
pub fn least_breaking_is_unique()
    ensures { LeastBreakingIsUnique }
{}

/// Where no candidate breaks a claim, none is the least that does. It has nothing to run.
pub fn none_breaks_leaves_no_least()
    ensures { NoneBreaksLeavesNoLeast }
{}

/// A candidate is the least that breaks a claim, or none breaks it: so `search` has an answer, whatever the problem, the
/// claim and the seed. It has nothing to run.
pub fn each_search_has_an_answer()
    ensures { EachSearchHasAnAnswer }
{}

/// A candidate that breaks a claim is a model of this claim, with a side for each object and an entry for each letter, that
/// refutes it. It has nothing to run.
pub fn breaking_candidates_refute()
    ensures { BreakingCandidatesRefute }
{}
