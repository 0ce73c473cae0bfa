//! The laws of statements and their problems. They have nothing to run.

ghost use Rattle.signature_typing.specs.Laws.{EachStatementHasAProblemOrAFault};
ghost use Rattle.signature_typing.specs.Unique.{ProblemIsUnique};

/// A tree has one problem, up to the proofs in it. It has nothing to run.
#[tactic(auto, using(crate::proofs::Unique::problem_is_unique))]
pub fn problem_is_unique()
    ensures { ProblemIsUnique }
{}

/// Each statement has a fault, which is not want of memory, or a problem. It has nothing to run.
pub fn each_statement_has_a_problem_or_a_fault()
    ensures { EachStatementHasAProblemOrAFault }
{}
