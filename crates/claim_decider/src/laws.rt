//! The laws that outcomes and last rules are unique.
ghost use Rattle.claim_decider.specs.OutcomeLaws.{OutcomesAreUnique, LastRulesAreUnique};

/// In an admissible order a claim has one outcome in each format.
pub fn outcomes_are_unique()
    ensures { OutcomesAreUnique }
{}

/// Claims have one list of last rules.
pub fn last_rules_are_unique()
    ensures { LastRulesAreUnique }
{}
