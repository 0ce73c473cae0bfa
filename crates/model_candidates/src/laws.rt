//! The laws of candidates.
ghost use Rattle.model_candidates.specs.Laws.{CandidatesAreUnique, EachNumberHasACandidate};

/// For a shape, a seed and a number there is one candidate at most: so `candidate` answers with no other, apart from want of
/// memory. It does nothing when it runs.
pub fn candidates_are_unique()
    ensures { CandidatesAreUnique }
{}

/// For each shape of a problem, each seed and each number there is a candidate, or it is that there is no model. It does nothing
/// when it runs.
pub fn each_number_has_a_candidate()
    ensures { EachNumberHasACandidate }
{}
