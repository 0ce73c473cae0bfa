//! The laws of plain runs.
ghost use Rattle.traced_completion.specs.RunLaws.{RoundsAreUnique, StatesAreUnique, StatesHaveRules, StatesAreBounded};

/// In an admissible order a round has one outcome.
pub fn rounds_are_unique()
    ensures { RoundsAreUnique }
{}

/// A run has one state after each number of rounds.
pub fn states_are_unique()
    ensures { StatesAreUnique }
{}

/// Where no word of the generators is empty and all letters are below a number, each state of a run has rules: their leading
/// terms are positive, their coefficients and letters in range, and no word is empty.
pub fn states_have_rules()
    ensures { StatesHaveRules }
{}

/// Each state of a run has one record for each rule, and the numbers of its rules, of its treated ambiguities and of its
/// rounds are bounded by those of the generators and by the budget.
pub fn states_are_bounded()
    ensures { StatesAreBounded }
{}
