//! The signature of an expression, or the first fault of its signatures.
ghost use Rattle.std.specs.Prelude.{◌≡◌, ◌<◌, IfOk, IsTrue};
ghost use Rattle.quiver.specs.Declarations.{object_count};
ghost use Rattle.abbreviations.specs.Names.{AreNames, are_names_of_term, are_names_of_primary};
ghost use Rattle.expressions.specs.Signatures.{HasObjects, turned, repeated, mark_signature, marked_signature, product_step, sum_step};
ghost use Rattle.expressions.specs.Signatures.{sum_signature, term_signature, factor_signature, primary_signature, sides_signature};
ghost use Rattle.expressions.specs.Signatures.{equation_signature};

use crate::fault::{SignatureFault, not_composable, open_zero, sum_mismatch};
use abbreviations::{letter_of, object_of};
use quiver::{Quiver, Sig};
use statement_syntax::{Factor, Mark, Primary, Sum, Term};
use statement_tokens::Spot;

/// The signature of the two sides of an equation, of which an open one takes that of the other, or the first fault: an
/// inner expression comes before the outer one and the left before the right; of a product or a sum all parts come
/// first, and then its own faults from the left.
pub fn equation_signature(quiver: &Quiver, left: &Sum, right: &Sum) -> Result<Sig, SignatureFault>
    requires left_names { AreNames quiver.now left.now }
    requires right_names { AreNames quiver.now right.now }
    ensures exact { result ≡ equation_signature quiver.now left.now right.now }
    ensures source_in_range { IfOk result (λ s. s.source.0 < object_count quiver.now) }
    ensures target_in_range { IfOk result (λ s. s.target.0 < object_count quiver.now) }
{
    let signature = sum_signature(quiver, left)?;
    let other = sum_signature(quiver, right)?;
    sides_signature(left.at, right.at, signature, other)
}

fn sides_signature(
    left_at: Spot,
    right_at: Spot,
    left: Option<Sig>,
    right: Option<Sig>,
) -> Result<Sig, SignatureFault>
    ensures { result ≡ sides_signature left_at right_at left right }
{
    match (left, right) {
        (None, None) => Err(open_zero(left_at)),
        (None, Some(s)) => Ok(s),
        (Some(s), None) => Ok(s),
        (Some(s), Some(t)) if s == t => Ok(s),
        (Some(s), Some(t)) => Err(sum_mismatch(right_at, s, t)),
    }
}

#[cycle(signatures)]
fn sum_signature(quiver: &Quiver, sum: &Sum) -> Result<Option<Sig>, SignatureFault>
    requires { AreNames quiver.now sum.now }
    ensures exact { result ≡ sum_signature quiver.now sum.now }
    ensures in_range { IfOk result (HasObjects (object_count quiver.now)) }
{
    let mut signature = Ok(None);
    for term in sum.terms.as_slice() {
        let next = term_signature(quiver, term)?;
        signature = sum_step(signature, term.at, next);
    }
    signature
}

// The signature of the terms so far, if any, or the first fault, with the next term.
fn sum_step(
    so_far: Result<Option<Sig>, SignatureFault>,
    at: Spot,
    next: Option<Sig>,
) -> Result<Option<Sig>, SignatureFault>
    ensures { result ≡ sum_step so_far at next }
{
    match (so_far?, next) {
        (before, None) => Ok(before),
        (None, Some(s)) => Ok(Some(s)),
        (Some(before), Some(s)) if before == s => Ok(Some(before)),
        (Some(left), Some(right)) => Err(sum_mismatch(at, left, right)),
    }
}

#[cycle(signatures)]
fn term_signature(quiver: &Quiver, term: &Term) -> Result<Option<Sig>, SignatureFault>
    requires { IsTrue (are_names_of_term quiver.now term.now) }
    ensures exact { result ≡ term_signature quiver.now term.now }
    ensures in_range { IfOk result (HasObjects (object_count quiver.now)) }
{
    let factors = term.factors.as_slice();
    if factors.len() == 1 {
        return factor_signature(quiver, &factors[0]);
    }
    let mut signature = Ok(None);
    for factor in factors {
        let next = factor_signature(quiver, factor)?;
        signature = product_step(signature, factor.at, next);
    }
    signature
}

// The signature of the factors so far, if any, or the first fault, with the next factor.
fn product_step(
    so_far: Result<Option<Sig>, SignatureFault>,
    at: Spot,
    next: Option<Sig>,
) -> Result<Option<Sig>, SignatureFault>
    ensures { result ≡ product_step so_far at next }
{
    match (so_far?, next) {
        (_, None) => Err(open_zero(at)),
        (None, Some(s)) => Ok(Some(s)),
        (Some(left), Some(right)) if left.source == right.target => Ok(Some(Sig {
            source: right.source,
            target: left.target,
        })),
        (Some(left), Some(right)) => Err(not_composable(at, left, right)),
    }
}

#[cycle(signatures)]
fn factor_signature(quiver: &Quiver, factor: &Factor) -> Result<Option<Sig>, SignatureFault>
    requires { IsTrue (are_names_of_primary quiver.now factor.now.primary) }
    ensures exact { result ≡ factor_signature quiver.now factor.now }
    ensures in_range { IfOk result (HasObjects (object_count quiver.now)) }
{
    let signature = primary_signature(quiver, &factor.primary)?;
    marked_signature(factor.at, factor.marks.as_slice(), signature)
}

#[cycle(signatures)]
fn primary_signature(quiver: &Quiver, primary: &Primary) -> Result<Option<Sig>, SignatureFault>
    requires { IsTrue (are_names_of_primary quiver.now primary.now) }
    ensures exact { result ≡ primary_signature quiver.now primary.now }
    ensures in_range { IfOk result (HasObjects (object_count quiver.now)) }
{
    match primary {
        Primary::Letter(name) => {
            let letter = letter_of(quiver, name);
            Ok(Some(quiver.signature_of(letter)))
        }
        Primary::Identity(name) => {
            let object = object_of(quiver, name);
            Ok(Some(Sig {
                source: object,
                target: object,
            }))
        }
        Primary::Bracket(sum) => sum_signature(quiver, sum),
    }
}

// The signature with these marks after the primary at this place.
fn marked_signature(
    first: Spot,
    marks: &[Mark],
    signature: Option<Sig>,
) -> Result<Option<Sig>, SignatureFault>
    ensures { result ≡ marked_signature first marks.now signature }
{
    let mut marked = signature;
    for mark in marks {
        marked = mark_signature(first, mark, marked)?;
    }
    Ok(marked)
}

// A quote exchanges the ends, a caret leaves them.
fn mark_signature(
    first: Spot,
    mark: &Mark,
    signature: Option<Sig>,
) -> Result<Option<Sig>, SignatureFault>
    ensures { result ≡ mark_signature first mark.now signature }
{
    match mark {
        Mark::Adjoint => Ok(signature.map(turned)),
        Mark::Power { at, exponent } if exponent.value >= 2 => repeated(first, *at, signature),
        Mark::Power { .. } => Ok(signature),
    }
}

fn turned(signature: Sig) -> Sig
    ensures { result ≡ turned signature }
{
    Sig {
        source: signature.target,
        target: signature.source,
    }
}

// The base of a power leads from an object to itself.
fn repeated(first: Spot, caret: Spot, signature: Option<Sig>) -> Result<Option<Sig>, SignatureFault>
    ensures { result ≡ repeated first caret signature }
{
    match signature {
        None => Err(open_zero(first)),
        Some(s) if s.source == s.target => Ok(signature),
        Some(s) => Err(not_composable(caret, s, s)),
    }
}
