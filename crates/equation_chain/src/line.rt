//! The lines of a chain, each made from the one before.
ghost use Rattle.std.specs.Prelude.{◌≡◌, ◌+◌, ◌<◌, ◌≤◌, length, All, IfOk, IfErr, OnOk, MatchResult, Ok, slice_get, Some, None};
ghost use Rattle.coef_int.specs.Range.{IsCoefficient};
ghost use Rattle.coef_int.specs.Operations.{first_overflow};
ghost use Rattle.nc_polynomial.specs.Terms.{scaled, products};
ghost use Rattle.nc_polynomial.specs.Faults.{Explains};
ghost use Rattle.equation_chain.specs.Chains.{less_step};
ghost use Rattle.equation_chain.specs.Lines.{letters_in};
ghost use Rattle.equation_chain.specs.Faults.{IsAccepted, StepsPass, IsFirstFault, IsMemory};
ghost use Rattle.traced_rows.specs.declared.certificate.CertRow.{CertRow as StepRow};
ghost use Rattle.equation_chain.specs.Made.{IsLineBefore, GoesOn, IsLineBehind, StopsLine, Tells};

use crate::ChainFault;
use crate::step::{is_step, numbered};
use adjoint_rules::Problem;
use coef_int::negate;
use nc_polynomial::{Poly, PolyFault};
use traced_rows::{CertRow, Certificate};

/// The greatest number of letters that the lines of a chain have together.
pub const LETTER_LIMIT: usize = 10_000_000;

/// A line of a chain.
#[derive(Drop)]
pub struct Line {
    /// The denominator times the claim less the steps so far.
    pub poly: Poly,
    /// How many letters this line and those before it have together.
    pub letters: usize,
}

// How many letters the words of a polynomial have.
fn letters_in(poly: &Poly) -> usize
    ensures { result ≡ letters_in poly.now.terms }
{
    let terms = poly.terms.as_slice();
    let mut letters = 0usize;
    for term in terms {
        letters += term.1.len();
    }
    letters
}

// The fault of the step in the row with this number.
fn step_fault(number: u32, fault: PolyFault) -> ChainFault
    ensures { Tells number fault result }
{
    match fault {
        PolyFault::Overflow(overflow) => ChainFault::Overflow {
            row: number,
            overflow,
        },
        PolyFault::Size(_) => ChainFault::Size { row: number },
        PolyFault::Memory(failed) => ChainFault::Memory(failed),
    }
}

// The line less the step, whose generator is this one.
fn less_step(line: &Poly, generator: &Poly, step: &CertRow) -> Result<Poly, PolyFault>
    requires { IsCoefficient step.now.coef }
    ensures { MatchResult result (λ r. less_step line.now.terms generator.now.terms step.now ≡ Ok r.terms)
        (Explains (less_step line.now.terms generator.now.terms step.now)) }
{
    let moved = generator.left_right(&step.left, &step.right)?;
    Poly::combine(1, line, negate(step.coef), &moved)
}

// The denominator times a claim, no product of which overflows.
fn multiple_of(denominator: i128, claim: &Poly) -> Result<Poly, ChainFault>
    requires denominator { IsCoefficient denominator }
    requires products { first_overflow (products denominator claim.now.terms) ≡ None }
    ensures multiple { IfOk result (λ p. p.terms ≡ scaled denominator claim.now.terms) }
    ensures fault { IfErr result IsMemory }
{
    match claim.scale(denominator) {
        Ok(poly) => Ok(poly),
        Err(fault) => Err(step_fault(0, fault)),
    }
}

/// The first line, the denominator times the claim.
pub fn first_line(problem: &Problem, certificate: &Certificate) -> Result<Line, ChainFault>
    requires denominator { IsCoefficient certificate.now.denominator }
    requires accepted { IsAccepted problem.now certificate.now }
    ensures line { IfOk result (IsLineBefore problem.now certificate.now 0) }
    ensures fault { IfErr result IsMemory }
{
    let place = certificate.claim as usize - 1;
    let claim = problem.parts.claims.at(place);
    let poly = multiple_of(certificate.denominator, claim)?;
    let letters = letters_in(&poly);
    Ok(Line { poly, letters })
}

/// The line after the row at this place, counted from 0, where the row is a step, and None where it is no step. `line` is
/// the line after the steps before it.
pub fn next_line(
    problem: &Problem,
    certificate: &Certificate,
    place: usize,
    line: &Line,
) -> Result<Option<Line>, ChainFault>
    requires in_range { place < length certificate.now.rows }
    requires few { length certificate.now.rows ≤ 4294967295 }
    requires coefficients { All (λ r. IsCoefficient r.coef) certificate.now.rows }
    requires accepted { IsAccepted problem.now certificate.now }
    requires earlier { StepsPass problem.now certificate.now place }
    requires line { IsLineBefore problem.now certificate.now place line.now }
    ensures line { (row : StepRow) → slice_get certificate.now.rows place ≡ Some row → IfOk result (GoesOn problem.now certificate.now place row) }
    ensures passed { OnOk result (StepsPass problem.now certificate.now (place + 1)) }
    ensures fault { IfErr result (IsFirstFault problem.now certificate.now) }
{
    let row = certificate.rows.at(place);
    let Some(generator) = numbered(problem.generators.as_slice(), row.generator) else {
        return Ok(None);
    };
    if !is_step(problem, certificate.claim, generator, row) {
        return Ok(None);
    }
    let number = place as u32 + 1;
    let next = line_behind(line, generator, row, number)?;
    Ok(Some(next))
}

// The line after the step in the row with this number, whose generator is this one.
fn line_behind(
    line: &Line,
    generator: &Poly,
    step: &CertRow,
    number: u32,
) -> Result<Line, ChainFault>
    requires { IsCoefficient step.now.coef }
    ensures line { IfOk result (IsLineBehind line.now generator.now.terms step.now) }
    ensures fault { IfErr result (StopsLine line.now generator.now.terms step.now number) }
{
    match less_step(&line.poly, generator, step) {
        Ok(poly) => {
            let letters = line.letters.saturating_add(letters_in(&poly));
            if letters > LETTER_LIMIT {
                return Err(ChainFault::Long { row: number });
            }
            Ok(Line { poly, letters })
        }
        Err(fault) => Err(step_fault(number, fault)),
    }
}
