//! The problem of a statement, or how a run ends that has none.
ghost use Rattle.std.specs.Prelude.{◌≤◌, ℕ, List, IfOk, IfErr, length};
ghost use Rattle.statement_syntax.specs.Texts.{IsTreeOf};
ghost use Rattle.signature_typing.specs.Typing.{IsProblemOf};
ghost use Rattle.command_shape.specs.FileWords.{statement_limit};
ghost use Rattle.stated_problem.specs.Statement.{OverStatement};
ghost use Rattle.stated_problem.specs.Stated.{IsStated};
ghost use Rattle.command_shape.specs.Stop.{StopsBy};

use adjoint_rules::Problem;
use command_shape::{Ending, refused_statement};
use lists::Stop;
use signature_typing::{TypeFault, elaborate};
use statement_syntax::{SyntaxFault, Tree, read_tree};
use std::alloc::Global;

/// The problem of the statement, or the ending of its first fault.
pub fn read_statement(alloc: Global, statement: &[u8]) -> Result<Problem, Stop<Ending>>
    requires { length statement.now ≤ statement_limit }
    ensures stated { IfOk result (IsStated statement.now) }
    ensures stopped { IfErr result (StopsBy (OverStatement statement.now (λ _ _. ⊥))) }
{
    let tree = tree_of(alloc, statement)?;
    problem_of(alloc, &tree)
}

fn tree_of(alloc: Global, statement: &[u8]) -> Result<Tree, Stop<Ending>>
    requires { length statement.now ≤ statement_limit }
    ensures tree { IfOk result (λ tree. IsTreeOf statement.now tree.statements) }
    ensures stopped { IfErr result (StopsBy (OverStatement statement.now (λ _ _. ⊥))) }
{
    match read_tree(alloc, statement) {
        Ok(tree) => Ok(tree),
        Err(SyntaxFault::Fault { code, line, column }) => {
            let ending = refused_statement(alloc, code, (line, column), 0, &None, &None)?;
            Err(Stop::Fault(ending))
        }
        Err(SyntaxFault::Memory(failed)) => Err(Stop::Memory(failed)),
    }
}

fn problem_of(alloc: Global, tree: &Tree) -> Result<Problem, Stop<Ending>>
    ensures problem { IfOk result (IsProblemOf tree.now.statements) }
    ensures stopped { (bytes : List ℕ) → IsTreeOf bytes tree.now.statements → IfErr result (StopsBy (OverStatement bytes (λ _ _. ⊥))) }
{
    match elaborate(alloc, tree) {
        Ok(problem) => Ok(problem),
        Err(
            TypeFault::Fault {
                code,
                line,
                column,
                left,
                right,
                limit,
            },
        ) => {
            let told = refused_statement(alloc, code, (line, column), limit, &left, &right);
            drop(left);
            drop(right);
            let ending = told?;
            Err(Stop::Fault(ending))
        }
        Err(TypeFault::Memory(failed)) => Err(Stop::Memory(failed)),
    }
}
