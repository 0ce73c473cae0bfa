//! The objects whose identities occur in the assumptions and the claims of a file.

ghost use Rattle.std.specs.Prelude.{◌≡◌, ◌≤◌, ◌^◌, ◌||◌, false, length, map, IfOk, OnOk};
ghost use Rattle.std.specs.List.{list_any, slice_index_or};
ghost use Rattle.quiver.specs.Declarations.{named_in, object_count};
ghost use Rattle.abbreviations.specs.Occurrences.{has_identity, has_identity_in_term, has_identity_in_primary, is_the_object};
ghost use Rattle.statement_names.specs.Marked.{an_object, is_marked, writes_identity, stated_by, marked_of};
ghost use Rattle.statement_names.specs.Marks.{Marks};
ghost use Rattle.statement_names.specs.Solved.{numbers_that};
ghost use Rattle.abbreviations.specs.Written.{abbreviation_of};

use abbreviations::abbreviation;
use lists::Listing;
use quiver::{Named, Quiver};
use statement_syntax::{Name, Primary, Statement, StatementKind, Sum, Term};
use std::alloc::{AllocError, Global};
use word_core::Object;

/// The objects whose identities occur in an assumption or a claim, abbreviations written out.
pub fn read_marked(
    alloc: Global,
    quiver: &Quiver,
    statements: &[Statement],
) -> Result<Listing<Object>, AllocError>
    ensures { IfOk result (λ objects. objects ≡ marked_of quiver.now statements.now) }
{
    let mut marks = vec![in alloc; false; quiver.objects() as usize]?;
    mark_statements(alloc, quiver, statements, &mut marks)?;
    marked_objects(alloc, &marks)
}

// Marks the objects whose identities occur in statements.
fn mark_statements(
    alloc: Global,
    quiver: &Quiver,
    statements: &[Statement],
    marks: &mut [bool],
) -> Result<(), AllocError>
    requires { length marks.old ≡ object_count quiver.now }
    ensures { OnOk result (Marks marks.old marks.new (is_marked quiver.now statements.now)) }
{
    for statement in statements {
        mark_statement(alloc, quiver, statement, marks)?;
    }
    Ok(())
}

// Marks the objects whose identities occur in a statement.
fn mark_statement(
    alloc: Global,
    quiver: &Quiver,
    statement: &Statement,
    marks: &mut [bool],
) -> Result<(), AllocError>
    requires { length marks.old ≡ object_count quiver.now }
    ensures { OnOk result (Marks marks.old marks.new (λ v. list_any (writes_identity quiver.now v) (stated_by quiver.now statement.now))) }
{
    match &statement.kind {
        StatementKind::Assume(left, right) | StatementKind::Claim(left, right) => {
            mark_sides(quiver, left, right, marks);
        }
        _ => mark_abbreviation(alloc, quiver, statement, marks)?,
    }
    Ok(())
}

fn mark_abbreviation(
    alloc: Global,
    quiver: &Quiver,
    statement: &Statement,
    marks: &mut [bool],
) -> Result<(), AllocError>
    requires { length marks.old ≡ object_count quiver.now }
    ensures { OnOk result (Marks marks.old marks.new
        (λ v. list_any (writes_identity quiver.now v) (abbreviation_of quiver.now statement.now.at statement.now.kind))) }
{
    for equation in abbreviation(alloc, quiver, statement)?.as_slice() {
        mark_sides(quiver, &equation.left, &equation.right, marks);
    }
    Ok(())
}

fn mark_sides(quiver: &Quiver, left: &Sum, right: &Sum, marks: &mut [bool])
    requires { length marks.old ≡ object_count quiver.now }
    ensures { Marks marks.old marks.new (λ v. has_identity quiver.now v left.now || has_identity quiver.now v right.now) }
{
    mark_sum(quiver, left, marks);
    mark_sum(quiver, right, marks);
}

// Marks the objects whose names are in square brackets in an expression.
#[cycle(identities)]
fn mark_sum(quiver: &Quiver, sum: &Sum, marks: &mut [bool])
    requires { length marks.old ≡ object_count quiver.now }
    ensures { Marks marks.old marks.new (λ v. has_identity quiver.now v sum.now) }
{
    for term in sum.terms.as_slice() {
        mark_term(quiver, term, marks);
    }
}

#[cycle(identities)]
fn mark_term(quiver: &Quiver, term: &Term, marks: &mut [bool])
    requires { length marks.old ≡ object_count quiver.now }
    ensures { Marks marks.old marks.new (λ v. has_identity_in_term quiver.now v term.now) }
{
    for factor in term.factors.as_slice() {
        mark_primary(quiver, &factor.primary, marks);
    }
}

#[cycle(identities)]
fn mark_primary(quiver: &Quiver, primary: &Primary, marks: &mut [bool])
    requires { length marks.old ≡ object_count quiver.now }
    ensures { Marks marks.old marks.new (λ v. has_identity_in_primary quiver.now v primary.now) }
{
    match primary {
        Primary::Letter(_) => {}
        Primary::Identity(name) => mark_object(quiver, name, marks),
        Primary::Bracket(sum) => mark_sum(quiver, sum, marks),
    }
}

// Marks the object with this name, if there is one.
fn mark_object(quiver: &Quiver, name: &Name, marks: &mut [bool])
    requires { length marks.old ≡ object_count quiver.now }
    ensures { Marks marks.old marks.new (λ v. is_the_object v (named_in quiver.now name.now.text)) }
{
    if let Some(Named::Object(object)) = quiver.find(name.text.as_str()) {
        marks[usize::from(object.0)] = true;
    }
}

// The objects that are marked.
#[tactic(auto, using(std::proofs::lemmas::Grind::common_steps, crate::proofs::MarkLemmas::numbers_more))]
fn marked_objects(alloc: Global, marks: &[bool]) -> Result<Listing<Object>, AllocError>
    requires { length marks.now ≤ 2 ^ 16 }
    ensures { IfOk result (λ objects. objects ≡ map an_object (numbers_that (length marks.now) (λ v. slice_index_or marks.now v false))) }
{
    let mut objects = Listing::new(alloc);
    for (number, marked) in marks.iter().enumerate() {
        if *marked {
            objects.push(Object(number as u16))?;
        }
    }
    Ok(objects)
}
