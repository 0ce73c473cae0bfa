//! The equations that abbreviations stand for, as expressions all of whose tokens are at one place.

ghost use Rattle.std.specs.Prelude.{◌≡◌, ◌∷◌, ◌++◌, [], List, ℕ, map, IfOk, OnOk};
ghost use Rattle.abbreviations.specs.Written.{letter_at, identity_at, product_at, word_at, adjoint_at, inner_equation, adjoint_equation};
ghost use Rattle.abbreviations.specs.Written.{identity_equation, source_name, target_name, abbreviation_of, equation, pinv_equations};
ghost use Rattle.abbreviations.specs.Written.{inverse_equations, projection_equations, marked_letter};
ghost use Rattle.statement_syntax.specs.declared.tree.Mark.TheVariants.{Adjoint};
ghost use Rattle.statement_syntax.specs.declared.tree.Primary.{Bracket};
ghost use Rattle.statement_syntax.specs.Nodes.{factor_of};

use lists::{Listing, Text};
use quiver::{Named, Quiver};
use statement_syntax::{Factor, Mark, Name, Primary, Statement, StatementKind, Sum, Term};
use statement_tokens::Spot;
use std::alloc::{AllocError, Global};

/// An equation of two expressions.
#[derive(Drop)]
pub struct Equation {
    pub left: Sum,
    pub right: Sum,
}

/// The equations that `pinv`, `inverse`, `inner` or `projection` stands for, all of whose tokens are at the statement's
/// first word. Other statements have none.
pub fn abbreviation(
    alloc: Global,
    quiver: &Quiver,
    statement: &Statement,
) -> Result<Listing<Equation>, AllocError>
    ensures { IfOk result (λ equations. equations ≡ abbreviation_of quiver.now statement.now.at statement.now.kind) }
{
    let mut equations = Listing::new(alloc);
    match put_abbreviation(alloc, quiver, statement, &mut equations) {
        Ok(()) => Ok(equations),
        Err(failed) => {
            drop(equations);
            Err(failed)
        }
    }
}

fn put_abbreviation(
    alloc: Global,
    quiver: &Quiver,
    statement: &Statement,
    out: &mut Listing<Equation>,
) -> Result<(), AllocError>
    ensures { OnOk result (out.new ≡ out.old ++ abbreviation_of quiver.now statement.now.at statement.now.kind) }
{
    let at = statement.at;
    match &statement.kind {
        StatementKind::Pinv(a, x) => put_pinv(alloc, at, a.text.as_str(), x.text.as_str(), out),
        StatementKind::Inverse(a, x) => {
            let ends = (source_name(quiver, a), target_name(quiver, a));
            put_inverse(alloc, at, a.text.as_str(), x.text.as_str(), ends, out)
        }
        StatementKind::Inner(a, x) => put_inner(alloc, at, a.text.as_str(), x.text.as_str(), out),
        StatementKind::Projection(p) => put_projection(alloc, at, p.text.as_str(), out),
        _ => Ok(()),
    }
}

fn put_pinv(
    alloc: Global,
    at: Spot,
    a: &str,
    x: &str,
    out: &mut Listing<Equation>,
) -> Result<(), AllocError>
    ensures { OnOk result (out.new ≡ out.old ++ pinv_equations at a.now x.now) }
{
    put_inner(alloc, at, a, x, out)?;
    put_inner(alloc, at, x, a, out)?;
    put_adjoint(alloc, at, &[a, x], out)?;
    put_adjoint(alloc, at, &[x, a], out)
}

fn put_inverse(
    alloc: Global,
    at: Spot,
    a: &str,
    x: &str,
    ends: (&str, &str),
    out: &mut Listing<Equation>,
) -> Result<(), AllocError>
    ensures { OnOk result (out.new ≡ out.old ++ inverse_equations at a.now x.now ends.entry.0.now ends.entry.1.now) }
{
    let (source, target) = ends;
    put_identity(alloc, at, &[a, x], target, out)?;
    put_identity(alloc, at, &[x, a], source, out)
}

// p p = p, p' = p
fn put_projection(
    alloc: Global,
    at: Spot,
    p: &str,
    out: &mut Listing<Equation>,
) -> Result<(), AllocError>
    ensures { OnOk result (out.new ≡ out.old ++ projection_equations at p.now) }
{
    let square = word_at(alloc, at, &[p, p])?;
    put_equation(alloc, at, square, &[p], out)?;
    put_marked(alloc, at, p, out)
}

// p' = p
fn put_marked(
    alloc: Global,
    at: Spot,
    p: &str,
    out: &mut Listing<Equation>,
) -> Result<(), AllocError>
    ensures { OnOk result (out.new ≡ out.old ++ equation (product_at at (marked_letter at p.now ∷ [])) (word_at at (p.now ∷ [])) ∷ []) }
{
    let adjoint = lone_at(alloc, at, marked_letter(alloc, at, p)?)?;
    put_equation(alloc, at, adjoint, &[p], out)
}

// a x a = a
fn put_inner(
    alloc: Global,
    at: Spot,
    a: &str,
    x: &str,
    out: &mut Listing<Equation>,
) -> Result<(), AllocError>
    ensures { OnOk result (out.new ≡ out.old ++ inner_equation at a.now x.now ∷ []) }
{
    let word = word_at(alloc, at, &[a, x, a])?;
    put_equation(alloc, at, word, &[a], out)
}

// (a x)' = a x
fn put_adjoint(
    alloc: Global,
    at: Spot,
    names: &[&str],
    out: &mut Listing<Equation>,
) -> Result<(), AllocError>
    ensures { OnOk result (out.new ≡ out.old ++ adjoint_equation at (map (λ name. name.now) names.now) ∷ []) }
{
    let adjoint = lone_at(alloc, at, bracket_at(alloc, at, names)?)?;
    put_equation(alloc, at, adjoint, names, out)
}

// a x = [T]
fn put_identity(
    alloc: Global,
    at: Spot,
    names: &[&str],
    object: &str,
    out: &mut Listing<Equation>,
) -> Result<(), AllocError>
    ensures { OnOk result (out.new ≡ out.old ++ identity_equation at (map (λ name. name.now) names.now) object.now ∷ []) }
{
    let left = word_at(alloc, at, names)?;
    let right = lone_at(alloc, at, identity_at(alloc, at, object)?)?;
    out.push(Equation { left, right })?;
    Ok(())
}

// An equation whose right side is the product of some letters.
fn put_equation(
    alloc: Global,
    at: Spot,
    left: Sum,
    names: &[&str],
    out: &mut Listing<Equation>,
) -> Result<(), AllocError>
    ensures { OnOk result (out.new ≡ out.old ++ equation left (word_at at (map (λ name. name.now) names.now)) ∷ []) }
{
    let right = word_at(alloc, at, names)?;
    out.push(Equation { left, right })?;
    Ok(())
}

// The name of the source of a map.
fn source_name<'a>(quiver: &'a Quiver, map: &Name) -> &'a str
    ensures { result.now ≡ source_name quiver.now map.now }
{
    match quiver.find(map.text.as_str()) {
        Some(Named::Map(letter)) => quiver.object_name(quiver.signature_of(letter).source),
        _ => "",
    }
}

// The name of the target of a map.
fn target_name<'a>(quiver: &'a Quiver, map: &Name) -> &'a str
    ensures { result.now ≡ target_name quiver.now map.now }
{
    match quiver.find(map.text.as_str()) {
        Some(Named::Map(letter)) => quiver.object_name(quiver.signature_of(letter).target),
        _ => "",
    }
}

fn letter_at(alloc: Global, at: Spot, name: &str) -> Result<Factor, AllocError>
    ensures { IfOk result (λ f. f ≡ letter_at at name.now) }
{
    let text = Text::from_str(alloc, name)?;
    Ok(Factor {
        at,
        primary: Primary::Letter(Name { text, at }),
        marks: Listing::new(alloc),
    })
}

fn identity_at(alloc: Global, at: Spot, name: &str) -> Result<Factor, AllocError>
    ensures { IfOk result (λ f. f ≡ identity_at at name.now) }
{
    let text = Text::from_str(alloc, name)?;
    Ok(Factor {
        at,
        primary: Primary::Identity(Name { text, at }),
        marks: Listing::new(alloc),
    })
}

fn marked_letter(alloc: Global, at: Spot, name: &str) -> Result<Factor, AllocError>
    ensures { IfOk result (λ f. f ≡ marked_letter at name.now) }
{
    let mut factor = letter_at(alloc, at, name)?;
    factor.marks.push(Mark::Adjoint)?;
    Ok(factor)
}

// The adjoint of a product of letters.
fn bracket_at(alloc: Global, at: Spot, names: &[&str]) -> Result<Factor, AllocError>
    ensures { IfOk result (λ f. f ≡ factor_of at (Bracket (word_at at (map (λ name. name.now) names.now))) (Adjoint ∷ [])) }
{
    let word = word_at(alloc, at, names)?;
    let mut marks = Listing::new(alloc);
    marks.push(Mark::Adjoint)?;
    Ok(Factor {
        at,
        primary: Primary::Bracket(word),
        marks,
    })
}

// The product of some factors.
fn product_at(alloc: Global, at: Spot, factors: Listing<Factor>) -> Result<Sum, AllocError>
    ensures { IfOk result (λ s. s ≡ product_at at factors) }
{
    let mut terms = Listing::new(alloc);
    terms.push(Term {
        at,
        negative: false,
        literal: None,
        factors,
    })?;
    Ok(Sum { at, terms })
}

// One factor.
fn lone_at(alloc: Global, at: Spot, factor: Factor) -> Result<Sum, AllocError>
    ensures { IfOk result (λ s. s ≡ product_at at (factor ∷ [])) }
{
    let mut factors = Listing::new(alloc);
    factors.push(factor)?;
    product_at(alloc, at, factors)
}

// The product of some letters.
fn word_at(alloc: Global, at: Spot, names: &[&str]) -> Result<Sum, AllocError>
    ensures { IfOk result (λ s. s ≡ word_at at (map (λ name. name.now) names.now)) }
{
    let mut factors = Listing::new(alloc);
    for name in names {
        factors.push(letter_at(alloc, at, name)?)?;
    }
    product_at(alloc, at, factors)
}
