//! What all candidates of a shape share.
ghost use Rattle.std.specs.Prelude.{◌≡◌, ◌<◌, ◌≤◌, ◌++◌, length, replicate, IfOk, OnOk};
ghost use Rattle.std.specs.List.{All};
ghost use Rattle.definitions.specs.Quiver.{IsQuiver};
ghost use Rattle.word_core.specs.Letters.{IsOver};
ghost use Rattle.quiver.specs.Declarations.{letter_count, object_count, quiver_of};
ghost use Rattle.adjoint_rules.specs.Problem.{IsShape};
ghost use Rattle.model_candidates.specs.Candidates.{is_solved, is_solved_map, solved_count};
ghost use Rattle.model_candidates.specs.Unknowns.{solved_flags};
ghost use Rattle.model_candidates.specs.Plans.{AreAsked, AreLinearAssumptions, IsPlan, has_few, is_asked};

use crate::candidate_count::is_exhaustive;
use crate::entries::{entry_count, is_declared, map_entry_count};
use crate::letter_numbers::numbers_of_letters;
use crate::tables::{Tables, tables_of};
use crate::unknowns::{unknown_count, unknown_numbers};
use adjoint_rules::{Problem, Shape};
use lists::Listing;
use nc_polynomial::Poly;
use quiver::{Quiver, Sig};
use std::alloc::{AllocError, Global};
use word_core::{Letter, Word};

/// An assumption that is linear in the solved maps.
#[derive(Clone, Copy)]
pub struct LinearAssumption {
    /// Its place among the assumptions of the problem, counted from 0.
    pub place: u32,
    /// A signature of it.
    pub sig: Sig,
}

/// The assumptions that are linear in the solved maps.
#[derive(Drop)]
pub struct LinearAssumptions {
    /// Those in which no solved map stands.
    pub conditions: Listing<LinearAssumption>,
    /// The others.
    pub equations: Listing<LinearAssumption>,
}

/// What all candidates of a shape share.
#[derive(Drop)]
pub struct Plan {
    /// The number of the shape, from 1.
    pub number: u32,
    /// How many entries the shape has.
    pub entries: u32,
    /// Whether all lists of values are tried.
    pub exhaustive: bool,
    /// How many entries are solved for.
    pub unknowns: u32,
    /// For each entry, whether it is solved for.
    pub solved: Listing<bool>,
    /// For each letter that is solved for the numbers of the unknowns in its matrix, row by row, counted from 0.
    pub numbers: Listing<Option<Listing<u32>>>,
    /// The linear assumptions.
    pub assumptions: LinearAssumptions,
    /// What tests of values go by.
    pub tables: Tables,
}

/// The plan of the shape with this number, counted from 1. There is such a shape. It fails only where memory is short.
pub fn plan_of(alloc: Global, problem: &Problem, shape: u32) -> Result<Plan, AllocError>
    requires least { 1 ≤ shape }
    requires most { shape ≤ length problem.now.parts.shapes }
    ensures plan { IfOk result (IsPlan problem.now) }
    ensures number { IfOk result (λ plan. plan.number ≡ shape) }
{
    let parts = &problem.parts;
    let form = parts.shapes.at(shape as usize - 1);
    let entries = entry_count(&parts.quiver, form);
    let solved = solved_flags(alloc, &parts.quiver, form, parts.solved.as_slice())?;
    let unknowns = unknown_count(solved.as_slice());
    let own = unknown_numbers(alloc, solved.as_slice(), unknowns)?;
    let numbers = numbers_of_letters(alloc, problem, form, own.as_slice())?;
    let assumptions = linear_assumptions(alloc, problem)?;
    let tables = tables_of(alloc, problem, form)?;
    Ok(Plan {
        number: shape,
        entries,
        exhaustive: is_exhaustive(form.modulus, entries),
        unknowns,
        solved,
        numbers,
        assumptions,
        tables,
    })
}

// For each entry, whether its map is one of these.
fn solved_flags(
    alloc: Global,
    quiver: &Quiver,
    shape: &Shape,
    solved: &[Letter],
) -> Result<Listing<bool>, AllocError>
    requires quiver { IsQuiver (quiver_of quiver.now) }
    requires shape { IsShape (object_count quiver.now) shape.now }
    ensures { IfOk result (λ flags. flags ≡ solved_flags (quiver_of quiver.now) shape.now solved.now) }
{
    let mut flags = Listing::new(alloc);
    for number in 0..quiver.letters() {
        let letter = Letter(number as u16);
        if is_declared(quiver, letter) {
            let count = map_entry_count(quiver, shape, letter);
            push_flags(&mut flags, is_among(solved, letter), count)?;
        }
    }
    Ok(flags)
}

// The list with this flag so many times behind it.
fn push_flags(flags: &mut Listing<bool>, flag: bool, count: u32) -> Result<(), AllocError>
    ensures { OnOk result (flags.new ≡ flags.old ++ replicate count flag) }
{
    for _ in 0..count {
        flags.push(flag)?;
    }
    Ok(())
}

// The assumptions of the problem that are linear in the solved maps.
fn linear_assumptions(alloc: Global, problem: &Problem) -> Result<LinearAssumptions, AllocError>
    ensures { IfOk result (λ found. AreLinearAssumptions problem.now found.conditions found.equations) }
{
    let conditions = assumptions_asked(alloc, problem, true)?;
    let equations = assumptions_asked(alloc, problem, false)?;
    Ok(LinearAssumptions {
        conditions,
        equations,
    })
}

// The assumptions in which no solved map stands, or the linear ones in which some does.
fn assumptions_asked(
    alloc: Global,
    problem: &Problem,
    known: bool,
) -> Result<Listing<LinearAssumption>, AllocError>
    ensures { IfOk result (AreAsked problem.now known) }
{
    let parts = &problem.parts;
    let mut found = Listing::new(alloc);
    for (place, assumption) in parts.assumptions.as_slice().iter().enumerate() {
        if is_asked(&parts.quiver, parts.solved.as_slice(), assumption, known) {
            let sig = *parts.sigs.at(place);
            let place = place as u32;
            found.push(LinearAssumption { place, sig })?;
        }
    }
    Ok(found)
}

// Whether the polynomial has no solved letter, or is a linear one that has some.
fn is_asked(quiver: &Quiver, solved: &[Letter], poly: &Poly, known: bool) -> bool
    requires quiver { IsQuiver (quiver_of quiver.now) }
    requires solved { All (λ l. l.0 < letter_count quiver.now) solved.now }
    requires letters { All (λ t. IsOver (letter_count quiver.now) t.1) poly.now.terms }
    ensures { result ≡ is_asked (quiver_of quiver.now) solved.now known poly.now.terms }
{
    let unsolved = has_few(quiver, solved, poly, 0);
    if known {
        unsolved
    } else {
        has_few(quiver, solved, poly, 1) && !unsolved
    }
}

/// Whether each word of the polynomial has so many solved letters at most.
pub(crate) fn has_few(quiver: &Quiver, solved: &[Letter], poly: &Poly, most: usize) -> bool
    requires quiver { IsQuiver (quiver_of quiver.now) }
    requires solved { All (λ l. l.0 < letter_count quiver.now) solved.now }
    requires letters { All (λ t. IsOver (letter_count quiver.now) t.1) poly.now.terms }
    ensures { result ≡ has_few (quiver_of quiver.now) solved.now most poly.now.terms }
{
    for place in 0..poly.terms() {
        if solved_count(quiver, solved, poly.term(place).1) > most {
            return false;
        }
    }
    true
}

// How many letters of the word are solved maps or adjoints of these.
fn solved_count(quiver: &Quiver, solved: &[Letter], word: &Word) -> usize
    requires quiver { IsQuiver (quiver_of quiver.now) }
    requires solved { All (λ l. l.0 < letter_count quiver.now) solved.now }
    requires letters { IsOver (letter_count quiver.now) word.now }
    ensures { result ≡ solved_count (quiver_of quiver.now) solved.now word.now }
{
    let mut count = 0;
    for place in 0..word.len() {
        if is_solved(quiver, solved, word.letter(place)) {
            count += 1;
        }
    }
    count
}

/// Whether the letter is one of the maps or the adjoint of one.
pub(crate) fn is_solved(quiver: &Quiver, solved: &[Letter], letter: Letter) -> bool
    requires quiver { IsQuiver (quiver_of quiver.now) }
    requires solved { All (λ l. l.0 < letter_count quiver.now) solved.now }
    requires letter { letter.0 < letter_count quiver.now }
    ensures { result ≡ is_solved (quiver_of quiver.now) solved.now letter.0 }
{
    is_among(solved, letter) || is_among(solved, quiver.star_of(letter))
}

// Whether the letter is one of the maps.
fn is_among(maps: &[Letter], letter: Letter) -> bool
    ensures { result ≡ is_solved_map maps.now letter.0 }
{
    maps.iter().any(|map| letter == *map)
}
