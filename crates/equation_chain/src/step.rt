//! The rows of a certificate that are steps of its chain.
ghost use Rattle.std.specs.Prelude.{◌≡◌, ℕ, ◌+◌, ◌-◌, ◌<◌, if◌then◌else◌, List, ◌++◌, length, slice_get, Some, IfSome, IfNone, false, nat_eq};
ghost use Rattle.cofactor_checker.specs.Rows.{IsNumberUpTo};
ghost use Rattle.definitions.specs.Quiver.{leads};
ghost use Rattle.quiver.specs.Declarations.{quiver_of};
ghost use Rattle.quiver.specs.Signatures.{ends_of};
ghost use Rattle.equation_chain.specs.Steps.{claim_ends, generator_of, is_step, steps_of};

use adjoint_rules::Problem;
use nc_polynomial::Poly;
use quiver::{Quiver, Sig};
use traced_rows::{CertRow, Certificate};
use word_core::{Object, Word};

// The object from which the word leads to the target, or None where its letters don't fit.
fn start_of(quiver: &Quiver, target: Object, word: &Word) -> Option<Object>
    ensures leads { let q = quiver_of quiver.now in
        IfSome result (λ start. (u : ℕ) (rest : List ℕ) → leads q u target.0 (word.now ++ rest) ≡ leads q u start.0 rest) }
    ensures misfits { let q = quiver_of quiver.now in
        IfNone result ((u : ℕ) (rest : List ℕ) → leads q u target.0 (word.now ++ rest) ≡ false) }
{
    let mut object = target;
    for place in 0..word.len() {
        let letter = word.letter(place);
        if u32::from(letter.0) >= quiver.letters() {
            return None;
        }
        let ends = quiver.signature_of(letter);
        if ends.target != object {
            return None;
        }
        object = ends.source;
    }
    Some(object)
}

// Whether the three words lead one after another from the source to the target.
fn leads(quiver: &Quiver, ends: Sig, left: &Word, word: &Word, right: &Word) -> bool
    ensures { result ≡ leads (quiver_of quiver.now) ends.source.0 ends.target.0 (left.now ++ (word.now ++ right.now)) }
{
    source_of(quiver, ends.target, left, word, right) == Some(ends.source)
}

// The object from which the three words, one after another, lead to the target, or None where they don't fit.
fn source_of(
    quiver: &Quiver,
    target: Object,
    left: &Word,
    word: &Word,
    right: &Word,
) -> Option<Object>
    ensures leads { let q = quiver_of quiver.now in
        IfSome result (λ start. (u : ℕ) → leads q u target.0 (left.now ++ (word.now ++ right.now)) ≡ nat_eq u start.0) }
    ensures misfits { let q = quiver_of quiver.now in
        IfNone result ((u : ℕ) → leads q u target.0 (left.now ++ (word.now ++ right.now)) ≡ false) }
{
    let middle = start_of(quiver, target, left)?;
    let inner = start_of(quiver, middle, word)?;
    start_of(quiver, inner, right)
}

// The signature of the claim with this number.
fn claim_ends(problem: &Problem, claim: u32) -> Sig
    ensures { ends_of result ≡ claim_ends problem.now claim }
{
    match numbered(problem.parts.claim_sigs.as_slice(), claim) {
        Some(ends) => *ends,
        None => Sig {
            source: Object(0),
            target: Object(0),
        },
    }
}

// The item with this number, counted from 1.
pub(crate) fn numbered<T>(items: &[T], number: u32) -> Option<&T>
    ensures found { IfSome result (λ item. slice_get items.now (number - 1) ≡ Some item.now) }
    ensures in_range { IfSome result (λ _. IsNumberUpTo (length items.now) number) }
    ensures absent { IfNone result (IsNumberUpTo (length items.now) number → ⊥) }
{
    let place = number.checked_sub(1)?;
    items.get(place as usize)
}

/// Whether the row over this generator is a step of a chain for the claim with this number. One word of the generator
/// decides, without being made: either all its words between those of the row are paths of the claim's signature, or none is.
pub(crate) fn is_step(problem: &Problem, claim: u32, generator: &Poly, row: &CertRow) -> bool
    requires { generator.now.terms ≡ generator_of problem.now row.now }
    ensures { result ≡ is_step problem.now claim row.now }
{
    if row.coef == 0 {
        return false;
    }
    if generator.terms() == 0 {
        return false;
    }
    let first = generator.term(0);
    let ends = claim_ends(problem, claim);
    leads(&problem.parts.quiver, ends, &row.left, first.1, &row.right)
}

// Whether the row is a step of a chain for the claim with this number.
fn is_row_step(problem: &Problem, claim: u32, row: &CertRow) -> bool
    ensures { result ≡ is_step problem.now claim row.now }
{
    match numbered(problem.generators.as_slice(), row.generator) {
        Some(generator) => is_step(problem, claim, generator, row),
        None => false,
    }
}

// One more, where it is a step.
fn counted(count: usize, step: bool) -> usize
    requires { count < 18446744073709551615 }
    ensures { result ≡ (if step then count + 1 else count) }
{
    if step { count + 1 } else { count }
}

/// How many steps the certificate has.
pub fn count_steps(problem: &Problem, certificate: &Certificate) -> usize
    ensures { result ≡ length (steps_of problem.now certificate.now) }
{
    let rows = certificate.rows.as_slice();
    let mut count = 0usize;
    for row in rows {
        count = counted(count, is_row_step(problem, certificate.claim, row));
    }
    count
}
