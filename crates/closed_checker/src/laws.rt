//! That each basis has one outcome, what a closed basis means, and that the ambiguities of rules can be listed, as laws over the definitions.
ghost use Rattle.closed_checker.specs.Laws.{EachBasisIsJudged, BasisRefusalIsUnique};
ghost use Rattle.closed_checker.specs.Laws.{ClosedBasisIsNotRefused, ClosedBasesMeanOutside};
ghost use Rattle.closed_checker.specs.ListLaws.{AmbiguitiesCanBeListed, ListsAreUnique};

/// Each basis is closed, or one of its tests is the first that fails.
#[tactic(auto, using(crate::proofs::Judged::each_basis_is_judged))]
pub fn each_basis_is_judged()
    ensures { EachBasisIsJudged }
{}

/// A basis has one refusal at most, apart from want of memory.
#[tactic(auto, using(crate::proofs::Judged::basis_refusal_is_unique))]
pub fn basis_refusal_is_unique()
    ensures { BasisRefusalIsUnique }
{}

/// A closed basis has none.
#[tactic(auto, using(crate::proofs::Judged::closed_basis_is_not_refused))]
pub fn closed_basis_is_not_refused()
    ensures { ClosedBasisIsNotRefused }
{}

/// The rules of a closed basis are resolved, the generators come from them, and no positive multiple of the claim is a
/// combination of the generators.
pub fn closed_bases_mean_outside()
    ensures { ClosedBasesMeanOutside }
{}

/// In an admissible order any rules have a list of all their ambiguities.
pub fn ambiguities_can_be_listed()
    ensures { AmbiguitiesCanBeListed }
{}

/// Two such lists of the same rules are the same.
pub fn lists_are_unique()
    ensures { ListsAreUnique }
{}
