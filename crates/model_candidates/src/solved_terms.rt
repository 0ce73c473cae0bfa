//! The terms of assumptions in which a solved letter stands, each with what stands before and behind this letter.
ghost use Rattle.std.specs.Prelude.{◌≡◌, ◌<◌, ◌≤◌, ◌++◌, true, ℕ, ℤ, List, drop, length, position, slice_get, take, Some, OnOk};
ghost use Rattle.definitions.specs.Quiver.{IsTyped, is_path, leads};
ghost use Rattle.quiver.specs.Declarations.{letter_count, object_count, quiver_of};
ghost use Rattle.word_core.specs.Letters.{IsOver};
ghost use Rattle.model_candidates.specs.Candidates.{is_solved};
ghost use Rattle.model_candidates.specs.Factors.{listed, solved_term, solved_terms};
ghost use Rattle.model_candidates.specs.Known.{IsKnown, numbers_in};
ghost use Rattle.model_candidates.specs.Residues.{residues};
ghost use Rattle.model_candidates.specs.WordRows.{model_in, quiver_in};

use crate::shape_matrices::{EntryNumbers, ShapeMatrix};
use crate::value_matrices::product_of;
use crate::word_rows::EntryValues;
use adjoint_rules::Problem;
use lists::Listing;
use nc_polynomial::Poly;
use quiver::Sig;
use std::alloc::{AllocError, Global};
use word_core::Word;

/// A term whose word has a solved letter.
#[derive(Drop)]
pub(crate) struct SolvedTerm {
    /// Its coefficient, modulo the modulus.
    pub coefficient: u32,
    /// The numbers of the unknowns in the letter's matrix, row by row.
    pub numbers: EntryNumbers,
    /// The product of the matrices before the letter.
    pub left: ShapeMatrix,
    /// The product of the matrices behind it.
    pub right: ShapeMatrix,
}

/// Values of the entries of a shape, and what its candidates share.
#[derive(Clone, Copy)]
pub(crate) struct Known<'a> {
    pub alloc: Global,
    pub given: EntryValues<'a>,
    /// For each letter that is solved for the numbers of the unknowns in its matrix.
    pub numbers: &'a [Option<Listing<u32>>],
    /// The coefficients of each assumption modulo the modulus.
    pub coefficients: &'a [Listing<u32>],
}

/// Makes the list that of the terms of the polynomial whose words have a solved letter.
pub(crate) fn solved_terms(
    known: &Known,
    poly: &Poly,
    coefficients: &[u32],
    ends: Sig,
    terms: &mut Listing<SolvedTerm>,
) -> Result<(), AllocError>
    requires known { IsKnown known.now }
    requires source { ends.source.0 < object_count known.now.given.problem.now.parts.quiver }
    requires target { ends.target.0 < object_count known.now.given.problem.now.parts.quiver }
    requires typed { IsTyped (quiver_in known.now.given) ends.source.0 ends.target.0 poly.now.terms }
    requires coefficients { coefficients.now ≡ residues known.now.given.shape.now.modulus poly.now.terms }
    ensures { OnOk result (terms.new ≡ solved_terms (quiver_in known.now.given) known.now.given.shape.now
        known.now.given.problem.now.parts.solved (numbers_in known.now) (model_in known.now.given) ends.source.0 poly.now.terms) }
{
    terms.truncate(0);
    for place in 0..poly.terms() {
        push_term(known, poly, coefficients, place, ends, terms)?;
    }
    Ok(())
}

// Puts the term at this place behind the list, where its word has a solved letter.
fn push_term(
    known: &Known,
    poly: &Poly,
    coefficients: &[u32],
    place: usize,
    ends: Sig,
    terms: &mut Listing<SolvedTerm>,
) -> Result<(), AllocError>
    requires known { IsKnown known.now }
    requires source { ends.source.0 < object_count known.now.given.problem.now.parts.quiver }
    requires target { ends.target.0 < object_count known.now.given.problem.now.parts.quiver }
    requires typed { IsTyped (quiver_in known.now.given) ends.source.0 ends.target.0 poly.now.terms }
    requires coefficients { coefficients.now ≡ residues known.now.given.shape.now.modulus poly.now.terms }
    requires place { place < length poly.now.terms }
    ensures { OnOk result ((t : ℤ × List ℕ) → slice_get poly.now.terms place ≡ Some t
        → terms.new ≡ terms.old ++ listed (solved_term (quiver_in known.now.given) known.now.given.shape.now
        known.now.given.problem.now.parts.solved (numbers_in known.now) (model_in known.now.given) ends.source.0 t)) }
{
    let given = &known.given;
    let word = poly.term(place).1;
    let Some(split) = solved_place(known, word) else {
        return Ok(());
    };
    let (letter, end) = (word.letter(split), word.len());
    let Some(numbers) = &known.numbers[usize::from(letter.0)] else {
        return Ok(());
    };
    let own = given.problem.parts.quiver.signature_of(letter);
    let before = Sig {
        source: own.target,
        target: ends.target,
    };
    let behind = Sig {
        source: ends.source,
        target: own.source,
    };
    Ok(terms.push(SolvedTerm {
        coefficient: coefficients[place],
        numbers: EntryNumbers::copy_of(numbers.as_slice()),
        left: product_of(given, word, 0, split, before),
        right: product_of(given, word, split + 1, end, behind),
    })?)
}

/// The place of the first letter of the word that is a solved map or the adjoint of one: its unknowns have numbers.
pub(crate) fn solved_place(known: &Known, word: &Word) -> Option<usize>
    requires known { IsKnown known.now }
    requires over { IsOver (letter_count known.now.given.problem.now.parts.quiver) word.now }
    ensures { result ≡ position (is_solved (quiver_in known.now.given) known.now.given.problem.now.parts.solved) word.now }
{
    for place in 0..word.len() {
        if let Some(_) = &known.numbers[usize::from(word.letter(place).0)] {
            return Some(place);
        }
    }
    None
}
