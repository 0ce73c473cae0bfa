//! The laws of the meaning of outcomes.
ghost use Rattle.outcome_laws.specs.Meanings.{DerivedClaimsAddUp, ClosedClaimsAreOutside, LeastWordsBoundDerivations};
ghost use Rattle.outcome_laws.specs.Meanings.{HaltedCertificatesAreInside, OutcomesMeanWhatTheySay};

/// A claim that is derived has evidence that adds up.
pub fn derived_claims_add_up()
    ensures { DerivedClaimsAddUp }
{}

/// No positive multiple of a claim that is closed is a combination of the generators.
pub fn closed_claims_are_outside()
    ensures { ClosedClaimsAreOutside }
{}

/// A claim that is halted with a least pending word is no combination of the generators below that word.
pub fn least_words_bound_derivations()
    ensures { LeastWordsBoundDerivations }
{}

/// A claim that is halted in making its certificate follows from the generators.
pub fn halted_certificates_are_inside()
    ensures { HaltedCertificatesAreInside }
{}

/// Each outcome means what it says.
pub fn outcomes_mean_what_they_say()
    ensures { OutcomesMeanWhatTheySay }
{}
