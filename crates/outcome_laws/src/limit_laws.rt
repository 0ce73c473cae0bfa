//! The laws of the limits of outcomes and last rules.
ghost use Rattle.outcome_laws.specs.EvidenceLimits.{EvidenceFits};
ghost use Rattle.outcome_laws.specs.OutcomeLetters.{LastRulesHaveLetters, OutcomesHaveLetters};

/// The letters of each outcome of a claim are letters of the quiver: those of its evidence, of its rest, and of
/// the least overlap word.
pub fn outcomes_have_letters()
    ensures { OutcomesHaveLetters }
{}

/// The letters of the last rules are letters of the quiver.
pub fn last_rules_have_letters()
    ensures { LastRulesHaveLetters }
{}

/// The evidence of a derived claim is that of that claim, over the generators of the problem, and within the limits of the text in
/// which it is written.
pub fn evidence_fits()
    ensures { EvidenceFits }
{}
