//! The items of a proof, one after another.
ghost use Rattle.std.specs.Prelude.{◌≡◌, ℕ, ◌+◌, ◌<◌, ◌≤◌, [], length, All, OnOk, IfOk, IfErr};
ghost use Rattle.definitions.specs.Combination.{generator_at};
ghost use Rattle.quiver.specs.Declarations.{quiver_of};
ghost use Rattle.adjoint_rules.specs.Problem.{polynomials};
ghost use Rattle.cofactor_checker.specs.LemmaAcceptance.{HasScale};
ghost use Rattle.cancel_rules.specs.Inner.{MarksDeclared, IsMadeItem};
ghost use Rattle.quiver.specs.Over.{IsPolyOver};
ghost use Rattle.cancel_rules.specs.Items.{stripped, item_polynomial, item_polynomials, row_total, rows_in, ComesOff, ItemsPass};
ghost use Rattle.cancel_rules.specs.Items.{RefusesCancel, RefusesItem, RefusesItems};
ghost use Rattle.cancel_rules.specs.Acceptance.{OfLemma, HasPositiveScales, IsLetterOf, IsReadableItem, IsReadableCancellation};

use crate::marks::Marks;
use crate::strip::{is_typed, strip};
use crate::{CancelRefusal, Cancellation, Item, Side};
use adjoint_rules::Problem;
use cofactor_checker::{KEPT_LIMIT, Refusal, make_polynomial, numbered};
use lists::Listing;
use nc_polynomial::Poly;
use std::alloc::Global;
use word_core::Letter;

/// The polynomials of items, and how many rows these have together.
#[derive(Drop)]
pub(crate) struct MadeItems {
    pub polynomials: Listing<Poly>,
    pub rows: u32,
}

// How many rows the item has.
fn rows_in(item: &Item) -> u32
    requires { rows_in item.now ≤ 4294967295 }
    ensures { result ≡ rows_in item.now }
{
    match item {
        Item::Lemma(lemma) => lemma.rows.len() as u32,
        Item::Cancel { .. } => 0,
    }
}

// The polynomial of a cancellation behind these polynomials, before which so many rows stand, or what is told of it.
fn cancel(
    problem: &Problem,
    marks: &Marks,
    before: &[Poly],
    letter: Letter,
    side: Side,
    item: u32,
) -> Result<Poly, CancelRefusal>
    requires few { length before.now < 4294967295 }
    requires letter { IsLetterOf problem.now.parts.quiver letter }
    requires letters { All (IsPolyOver problem.now.parts.quiver) before.now }
    ensures polynomial { IfOk result (λ p. p.terms ≡ stripped side (generator_at (polynomials before.now) item)) }
    ensures letters { IfOk result (IsPolyOver problem.now.parts.quiver) }
    ensures comes_off { (proof : Cancellation) → MarksDeclared proof marks.now
        → OnOk result (ComesOff (quiver_of problem.now.parts.quiver) proof (polynomials before.now) letter side item) }
    ensures refused { (proof : Cancellation) (rows : ℕ) → MarksDeclared proof marks.now
        → IfErr result (RefusesCancel (quiver_of problem.now.parts.quiver) proof (polynomials before.now) rows letter side item) }
{
    let number = before.len() as u32 + 1;
    let Some(whole) = numbered(before, item) else {
        return Err(CancelRefusal::NoSuchItem { item: number });
    };
    if !marks.has(letter, side) {
        return Err(CancelRefusal::NotDeclared { item: number });
    }
    if !is_typed(&problem.parts.quiver, whole) {
        return Err(CancelRefusal::NotTyped { item: number });
    }
    let stripped = strip(whole, letter, side)?;
    match stripped {
        Some(polynomial) => Ok(polynomial),
        None => Err(CancelRefusal::NotStripped { item: number }),
    }
}

// The polynomial of an item behind these polynomials, before which so many rows stand, or what is told of it.
fn make_item(
    alloc: Global,
    problem: &Problem,
    marks: &Marks,
    before: &[Poly],
    item: &Item,
    rows: u32,
) -> Result<Poly, CancelRefusal>
    requires few { length before.now < 4294967295 }
    requires count { rows + rows_in item.now ≤ 4294967295 }
    requires readable { IsReadableItem problem.now.parts.quiver item.now }
    requires scale { OfLemma HasScale item.now }
    requires letters { All (IsPolyOver problem.now.parts.quiver) before.now }
    ensures polynomial { IfOk result (λ p. p.terms ≡ item_polynomial (polynomials problem.now.generators) (polynomials before.now) item.now) }
    ensures letters { IfOk result (IsPolyOver problem.now.parts.quiver) }
    ensures made { (proof : Cancellation) → MarksDeclared proof marks.now
        → OnOk result (IsMadeItem (quiver_of problem.now.parts.quiver) proof (polynomials problem.now.generators) (polynomials before.now) item.now) }
    ensures refused { (proof : Cancellation) → MarksDeclared proof marks.now
        → IfErr result (RefusesItem (quiver_of problem.now.parts.quiver) proof (polynomials problem.now.generators) (polynomials before.now) rows item.now) }
{
    match item {
        Item::Lemma(lemma) => {
            let number = before.len() as u32 + 1;
            let generators = problem.generators.as_slice();
            Ok(make_polynomial(alloc, generators, before, lemma, number, rows)?)
        }
        Item::Cancel { letter, side, item } => {
            cancel(problem, marks, before, *letter, *side, *item)
        }
    }
}

/// The polynomials of the items, or what is told of the first that does not pass.
pub(crate) fn make_items(
    alloc: Global,
    problem: &Problem,
    proof: &Cancellation,
    marks: &Marks,
) -> Result<MadeItems, CancelRefusal>
    requires marks { MarksDeclared proof.now marks.now }
    requires readable { IsReadableCancellation problem.now.parts.quiver proof.now }
    requires scales { HasPositiveScales proof.now }
    ensures polynomials { IfOk result (λ made. polynomials made.polynomials ≡ item_polynomials (polynomials problem.now.generators) [] proof.now.items) }
    ensures rows { IfOk result (λ made. made.rows ≡ row_total proof.now.items) }
    ensures passed { OnOk result (ItemsPass (quiver_of problem.now.parts.quiver) proof.now (polynomials problem.now.generators) [] proof.now.items) }
    ensures refused { IfErr result (RefusesItems (quiver_of problem.now.parts.quiver) proof.now (polynomials problem.now.generators) [] 0 proof.now.items) }
{
    let mut polynomials = Listing::new(alloc);
    let mut rows = 0u32;
    let mut kept = 0usize;
    let items = proof.items.as_slice();
    for item in items {
        let before = polynomials.as_slice();
        let polynomial = make_item(alloc, problem, marks, before, item, rows)?;
        rows += rows_in(item);
        kept += polynomial.terms();
        if kept > KEPT_LIMIT {
            return Err(CancelRefusal::Common(Refusal::Kept { row: rows }));
        }
        polynomials.push(polynomial)?;
    }
    Ok(MadeItems { polynomials, rows })
}
