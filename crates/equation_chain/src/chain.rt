//! The chain of a certificate: its steps and its lines.
ghost use Rattle.std.specs.Prelude.{◌+◌, ◌<◌, ◌≤◌, length, All, IfOk, IfErr, OnOk};
ghost use Rattle.coef_int.specs.Range.{IsCoefficient};
ghost use Rattle.certificate_text.specs.Evidence.{IsRowOver};
ghost use Rattle.equation_chain.specs.Faults.{IsAccepted, StepsPass, IsExplained, IsFirstFault, IsMemory};
ghost use Rattle.equation_chain.specs.Made.{IsChainOf, IsMaking, IsWritable};

use crate::ChainFault;
use crate::line::{Line, first_line, next_line};
use adjoint_rules::Problem;
use cofactor_checker::check;
use lists::{Duplicate, Listing};
use nc_polynomial::Poly;
use std::alloc::Global;
use traced_rows::{CertRow, Certificate};

/// A proof of a claim, a line at a time.
#[derive(Drop)]
pub struct Chain {
    /// The number of the claim, counted from 1.
    pub claim: u32,
    /// The positive integer by which the claim is multiplied.
    pub denominator: i128,
    /// The rows of the certificate that have the claim's signature and are not zero, in order.
    pub steps: Listing<CertRow>,
    /// The denominator times the claim, and after each step the line, down to zero.
    pub lines: Listing<Poly>,
}

/// The chain of a certificate. Each fault is returned exactly where it is the first: what `check` refuses, and then step by step the
/// faults of `left_right` and `combine`, and the limit of the letters of all lines.
pub fn explain(
    alloc: Global,
    problem: &Problem,
    certificate: &Certificate,
) -> Result<Chain, ChainFault>
    requires rows { length certificate.now.rows ≤ 4294967295 }
    requires denominator { IsCoefficient certificate.now.denominator }
    requires coefficients { All (λ r. IsCoefficient r.coef) certificate.now.rows }
    ensures chain { IfOk result (IsChainOf problem.now certificate.now) }
    ensures explained { OnOk result (IsExplained problem.now certificate.now) }
    ensures fault { IfErr result (IsFirstFault problem.now certificate.now) }
    ensures complete { IsExplained problem.now certificate.now → IfErr result IsMemory }
    ensures writable { All (IsRowOver problem.now.parts.quiver) certificate.now.rows → IfOk result (IsWritable problem.now.parts.quiver) }
{
    check(alloc, problem, certificate)?;
    made_chain(alloc, problem, certificate)
}

// The chain of a certificate that is accepted.
fn made_chain(
    alloc: Global,
    problem: &Problem,
    certificate: &Certificate,
) -> Result<Chain, ChainFault>
    requires few { length certificate.now.rows ≤ 4294967295 }
    requires denominator { IsCoefficient certificate.now.denominator }
    requires coefficients { All (λ r. IsCoefficient r.coef) certificate.now.rows }
    requires accepted { IsAccepted problem.now certificate.now }
    ensures chain { IfOk result (IsChainOf problem.now certificate.now) }
    ensures passed { OnOk result (StepsPass problem.now certificate.now (length certificate.now.rows)) }
    ensures fault { IfErr result (IsFirstFault problem.now certificate.now) }
{
    let line = first_line(problem, certificate)?;
    let steps = Listing::new(alloc);
    let lines = Listing::new(alloc);
    let mut making = Making { line, steps, lines };
    for place in 0..certificate.rows.len() {
        making = go_on(problem, certificate, place, making)?;
    }
    let mut lines = making.lines;
    lines.push(making.line.poly)?;
    Ok(Chain {
        claim: certificate.claim,
        denominator: certificate.denominator,
        steps: making.steps,
        lines,
    })
}

// The chain up to some row: the steps so far, the present line, and the lines before it.
#[derive(Drop)]
struct Making {
    line: Line,
    steps: Listing<CertRow>,
    lines: Listing<Poly>,
}

// The same after the row at this place.
fn go_on(
    problem: &Problem,
    certificate: &Certificate,
    place: usize,
    making: Making,
) -> Result<Making, ChainFault>
    requires in_range { place < length certificate.now.rows }
    requires few { length certificate.now.rows ≤ 4294967295 }
    requires coefficients { All (λ r. IsCoefficient r.coef) certificate.now.rows }
    requires accepted { IsAccepted problem.now certificate.now }
    requires earlier { StepsPass problem.now certificate.now place }
    requires making { IsMaking problem.now certificate.now place making }
    ensures making { IfOk result (IsMaking problem.now certificate.now (place + 1)) }
    ensures passed { OnOk result (StepsPass problem.now certificate.now (place + 1)) }
    ensures fault { IfErr result (IsFirstFault problem.now certificate.now) }
{
    let row = certificate.rows.at(place);
    let next = next_line(problem, certificate, place, &making.line)?;
    match next {
        None => Ok(making),
        Some(line) => {
            let step = row.duplicate()?;
            let mut steps = making.steps;
            steps.push(step)?;
            let mut lines = making.lines;
            lines.push(making.line.poly)?;
            Ok(Making { line, steps, lines })
        }
    }
}
