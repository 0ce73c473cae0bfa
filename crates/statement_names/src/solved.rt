//! The maps that a file solves for.

ghost use Rattle.std.specs.Prelude.{◌≡◌, ◌≤◌, ◌^◌, false, length, map, IfOk};
ghost use Rattle.std.specs.List.{list_any, slice_index_or};
ghost use Rattle.quiver.specs.Declarations.{letter_count};
ghost use Rattle.statement_names.specs.Marks.{Marks};
ghost use Rattle.statement_names.specs.Ordered.{letter};
ghost use Rattle.statement_names.specs.Solved.{names_letter, numbers_that, solved_in, solved_of};

use lists::Listing;
use quiver::{Named, Quiver};
use statement_syntax::{Name, Statement, StatementKind};
use std::alloc::{AllocError, Global};
use word_core::Letter;

/// The maps that statements solve for.
pub fn read_solved(
    alloc: Global,
    quiver: &Quiver,
    statements: &[Statement],
) -> Result<Listing<Letter>, AllocError>
    ensures { IfOk result (λ letters. letters ≡ solved_of quiver.now statements.now) }
{
    let mut solved = vec![in alloc; false; quiver.letters() as usize]?;
    for statement in statements {
        solve_statement(quiver, &statement.kind, &mut solved);
    }
    marked_letters(alloc, &solved)
}

// Marks the maps that a statement solves for.
fn solve_statement(quiver: &Quiver, statement: &StatementKind, solved: &mut [bool])
    requires { length solved.old ≡ letter_count quiver.now }
    ensures { Marks solved.old solved.new (λ a. list_any (names_letter quiver.now a) (solved_in statement.now)) }
{
    match statement {
        StatementKind::Pinv(_, x) | StatementKind::Inverse(_, x) | StatementKind::Inner(_, x) => {
            solve(quiver, x, solved);
        }
        StatementKind::Solve(names) => solve_all(quiver, names.as_slice(), solved),
        _ => {}
    }
}

fn solve_all(quiver: &Quiver, names: &[Name], solved: &mut [bool])
    requires { length solved.old ≡ letter_count quiver.now }
    ensures { Marks solved.old solved.new (λ a. list_any (names_letter quiver.now a) names.now) }
{
    for name in names {
        solve(quiver, name, solved);
    }
}

fn solve(quiver: &Quiver, name: &Name, solved: &mut [bool])
    requires { length solved.old ≡ letter_count quiver.now }
    ensures { Marks solved.old solved.new (λ a. names_letter quiver.now a name.now) }
{
    if let Some(Named::Map(letter)) = quiver.find(name.text.as_str()) {
        solved[usize::from(letter.0)] = true;
    }
}

// The letters that are marked.
#[tactic(auto, using(std::proofs::lemmas::Grind::common_steps, crate::proofs::MarkLemmas::numbers_more))]
fn marked_letters(alloc: Global, marks: &[bool]) -> Result<Listing<Letter>, AllocError>
    requires { length marks.now ≤ 2 ^ 16 }
    ensures { IfOk result (λ letters. letters ≡ map letter (numbers_that (length marks.now) (λ a. slice_index_or marks.now a false))) }
{
    let mut letters = Listing::new(alloc);
    for (number, marked) in marks.iter().enumerate() {
        if *marked {
            letters.push(Letter(number as u16))?;
        }
    }
    Ok(letters)
}
