//! The term that is read, and the sum that it is the last term of.

ghost use Rattle.std.specs.Prelude.{◌≡◌, [], ◌∷◌, ◌++◌, IfOk, OnOk};
ghost use Rattle.lists.specs.Stop.{Gives};
ghost use Rattle.statement_syntax.specs.Steps.{part_with, ended_part, sum_with, mark_step, sign_step};
ghost use Rattle.statement_syntax.specs.declared.expression.Part.TheVariants.{Product};

use crate::expression::{Head, OpenProduct, Part};
use crate::tree::{Factor, Mark, Number, Primary, Sum, Term};
use lists::{Listing, Stop};
use statement_tokens::{Fault, Spot};
use std::alloc::{AllocError, Global};
use std::mem;

/// The term with one more primary.
pub fn part_with(
    alloc: Global,
    part: &mut Part,
    primary: Primary,
    at: Spot,
) -> Result<(), AllocError>
    ensures { OnOk result (part.new ≡ part_with part.old primary at) }
{
    let factor = Factor {
        at,
        primary,
        marks: Listing::new(alloc),
    };
    match part {
        Part::Nothing => drop(mem::replace(part, first_factor(alloc, at, None, factor))),
        Part::Scaled(number) => {
            let number = *number;
            let scaled = first_factor(alloc, number.at, Some(number), factor);
            drop(mem::replace(part, scaled));
        }
        Part::Product(product) => product
            .factors
            .push(mem::replace(&mut product.last, factor))?,
    }
    Ok(())
}

fn first_factor(alloc: Global, at: Spot, literal: Option<Number>, last: Factor) -> Part
    ensures { result ≡ Product (record { at = at; literal = literal; factors = []; last = last }) }
{
    Part::Product(OpenProduct {
        at,
        literal,
        factors: Listing::new(alloc),
        last,
    })
}

/// The term, where it may end here. A literal alone is one only where its value is 0.
pub fn ended_part(alloc: Global, part: Part, negative: bool) -> Result<Term, Stop<Fault>>
    ensures { Gives (λ read. read) result (ended_part part negative) }
{
    match part {
        Part::Nothing => Err(Stop::Fault(Fault::Expected)),
        Part::Scaled(number) => {
            if number.value != 0 {
                return Err(Stop::Fault(Fault::Expected));
            }
            Ok(Term {
                at: number.at,
                negative,
                literal: Some(number),
                factors: Listing::new(alloc),
            })
        }
        Part::Product(product) => Ok(Term {
            at: product.at,
            negative,
            literal: product.literal,
            factors: factors_with(product.factors, product.last)?,
        }),
    }
}

// The factors with the last one. Room is made for that one only: most terms have one factor, and a tree keeps all of them.
fn factors_with(factors: Listing<Factor>, last: Factor) -> Result<Listing<Factor>, AllocError>
    ensures { IfOk result (λ all. all ≡ factors ++ last ∷ []) }
{
    let mut all = factors.into_vec();
    all.reserve_exact(1)?;
    all.push(last)?;
    Ok(Listing::from_vec(all))
}

/// The sum whose last term this is.
pub fn sum_with(head: Head, term: Term) -> Result<Sum, AllocError>
    ensures { IfOk result (λ s. s ≡ sum_with head term) }
{
    let at = head.at.unwrap_or(term.at);
    let mut terms = head.terms;
    terms.push(term)?;
    Ok(Sum { at, terms })
}

/// A mark at the last factor.
pub fn mark_step(part: &mut Part, mark: Mark) -> Result<(), Stop<Fault>>
    ensures { Gives (λ done. part.new) result (mark_step part.old mark) }
{
    match part {
        Part::Product(product) => Ok(product.last.marks.push(mark)?),
        _ => Err(Stop::Fault(Fault::Expected)),
    }
}

/// A sign between terms, or a leading one.
pub fn sign_step(
    alloc: Global,
    head: &mut Head,
    part: Part,
    at: Spot,
    negative: bool,
) -> Result<(), Stop<Fault>>
    ensures { Gives (λ done. head.new) result (sign_step head.old part at negative) }
{
    match (part, head.at) {
        (Part::Nothing, None) => head.at = Some(at),
        (Part::Nothing, Some(_)) => return Err(Stop::Fault(Fault::Expected)),
        (part, first) => {
            let term = ended_part(alloc, part, head.negative)?;
            if first.is_none() {
                head.at = Some(term.at);
            }
            head.terms.push(term)?;
        }
    }
    head.negative = negative;
    Ok(())
}
