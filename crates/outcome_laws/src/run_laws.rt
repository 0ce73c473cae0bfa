//! The laws of the states of the plain run.
ghost use Rattle.outcome_laws.specs.KeptRuns.{RunsAreKept, ClosedIsNothingPending, FirstIsLeastPending, EachGeneratorHasItsTurn};
ghost use Rattle.outcome_laws.specs.ProblemStates.{StatesAreKept, GeneratorsAreReached};

/// After each completed round the invariant of completions holds, and the rules have one signature and are in play.
pub fn runs_are_kept()
    ensures { RunsAreKept }
{}

/// A closed run has nothing pending.
pub fn closed_is_nothing_pending()
    ensures { ClosedIsNothingPending }
{}

/// Nothing is pending below the overlap word of the first pending ambiguity.
pub fn first_is_least_pending()
    ensures { FirstIsLeastPending }
{}

/// Round 0 takes each generator, and no other number.
pub fn each_generator_has_its_turn()
    ensures { EachGeneratorHasItsTurn }
{}

/// What holds of each state of the run of a problem: its rules come from the generators and are typed, each treated ambiguity is
/// resolved, and each other one of the rules is pending. After round 0 each generator comes from the rules.
pub fn states_of_problems_are_kept()
    ensures states { StatesAreKept }
    ensures generators { GeneratorsAreReached }
{}
