//! The law of which rules are typed and in play.
ghost use Rattle.normal_category.specs.Laws.{SharpRulesAreTold};

/// The test of the polynomials of rules holds exactly where all rules are typed and in play.
pub fn sharp_rules_are_told()
    ensures { SharpRulesAreTold }
{}
