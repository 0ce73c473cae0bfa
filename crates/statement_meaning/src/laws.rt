//! Laws on files and on the meaning of equations, which have nothing to run.

ghost use Rattle.statement_meaning.specs.Laws.{FilesHaveOneTree, EquationsAreRead, StarredEquationsAreRead};
ghost use Rattle.statement_meaning.specs.Laws.{StatementsAreRead, StarredStatementsAreRead};
ghost use Rattle.statement_meaning.specs.Meanings.{ProvedClaimsHold, RefutedClaimsFail, SaysEquations};

use category_laws::Preadditive;

/// A file has one tree.
pub fn files_have_one_tree()
    ensures { FilesHaveOneTree }
{}

/// In the given category the polynomial of an equation is zero in a representation exactly where
/// both sides have the same value: in each representation, where there is no adjoint, and in each star representation.
pub fn equations_are_read<C: Preadditive>(category: &C)
    ensures plain { EquationsAreRead (C.structure category.now) }
    ensures by_star { StarredEquationsAreRead (C.structure category.now) }
{}

/// In the given category the assumptions and the claims of the problem of a statement are zero in
/// a representation exactly where the equations of its file hold: in each representation, where it isn't starred, and in
/// each star representation.
pub fn statements_are_read<C: Preadditive>(category: &C)
    ensures plain { StatementsAreRead (C.structure category.now) }
    ensures by_star { StarredStatementsAreRead (C.structure category.now) }
{}

/// In the given category what `proved`, `accepted` and `explained` mean of a claim they say of the
/// equations of the file: wherever the denominator cancels and the assumptions hold, the claim holds.
pub fn proved_claims_hold<C: Preadditive>(category: &C)
    ensures { ProvedClaimsHold (C.structure category.now) }
{}

/// What `refuted` and `confirmed` mean of a claim they say of the equations of the file: in the matrices of
/// the model all assumptions hold, and the claim doesn't.
pub fn refuted_claims_fail()
    ensures { RefutedClaimsFail }
{}

/// All of these laws at once: what is said of the assumptions and the claims of a problem is said of the equations of its file.
pub fn says_equations<C: Preadditive>(category: &C)
    ensures { SaysEquations (C.structure category.now) }
{}
