//! A certificate as the text of its chain. Each line is written as it is made, and only the present one is kept.
ghost use Rattle.std.specs.Prelude.{◌≡◌, ℕ, ◌+◌, ◌<◌, List, ◌++◌, length, IfOk, IfErr, OnOk};
ghost use Rattle.certificate_text.specs.Evidence.{IsCheckable};
ghost use Rattle.equation_chain.specs.Steps.{steps_of};
ghost use Rattle.equation_chain.specs.Lines.{lines_of};
ghost use Rattle.equation_chain.specs.Faults.{IsAccepted, StepsPass, IsExplained, IsFirstFault};
ghost use Rattle.equation_chain.specs.Made.{IsLineBefore};
ghost use Rattle.equation_chain.specs.Spelled.{AreTexts};
ghost use Rattle.equation_chain.specs.Written.{lines_text};
ghost use Rattle.evidence_commands.specs.Explain.{head_text, certificate_explained, text_before};

use adjoint_rules::Problem;
use block_text::{put, put_labelled, put_signed};
use cofactor_checker::check;
use cofactor_trace::Certificate;
use equation_chain::{
    ChainFault, LetterTexts, Line, count_steps, first_line, letter_texts, next_line, put_line,
    put_opening, put_use,
};
use std::alloc::{AllocError, Global};

/// The text of an explained certificate. Each fault is returned exactly where it is the first.
pub(crate) fn write_chain(
    alloc: Global,
    problem: &Problem,
    certificate: &Certificate,
) -> Result<Vec<u8>, ChainFault>
    requires { IsCheckable problem.now.parts.quiver certificate.now }
    ensures written { IfOk result (λ text. text.items ≡ certificate_explained problem.now certificate.now) }
    ensures explained { OnOk result (IsExplained problem.now certificate.now) }
    ensures fault { IfErr result (IsFirstFault problem.now certificate.now) }
{
    accept(alloc, problem, certificate)?;
    let texts = letter_texts(alloc, &problem.parts.quiver)?;
    let mut out = Vec::new(alloc);
    put_head(&mut out, certificate, count_steps(problem, certificate))?;
    put_opening(&mut out, certificate.claim, certificate.denominator)?;
    put_lines(&mut out, &texts, problem, certificate)?;
    put(&mut out, "end")?;
    Ok(out)
}

// The certificate is accepted.
fn accept(alloc: Global, problem: &Problem, certificate: &Certificate) -> Result<(), ChainFault>
    requires { IsCheckable problem.now.parts.quiver certificate.now }
    ensures accepted { OnOk result (IsAccepted problem.now certificate.now) }
    ensures fault { IfErr result (IsFirstFault problem.now certificate.now) }
{
    check(alloc, problem, certificate)?;
    Ok(())
}

// The line before the chain.
fn put_head(out: &mut Vec<u8>, certificate: &Certificate, steps: usize) -> Result<(), AllocError>
    ensures { OnOk result (out.new.items ≡ out.old.items ++ head_text certificate.now.claim certificate.now.denominator steps) }
{
    put_labelled(out, "explained claim ", u128::from(certificate.claim))?;
    put_signed(out, " denominator ", certificate.denominator)?;
    put_labelled(out, " steps ", steps as u128)?;
    put(out, "\n")
}

// The first line, and each step with the line after it.
fn put_lines(
    out: &mut Vec<u8>,
    texts: &LetterTexts,
    problem: &Problem,
    certificate: &Certificate,
) -> Result<(), ChainFault>
    requires checkable { IsCheckable problem.now.parts.quiver certificate.now }
    requires accepted { IsAccepted problem.now certificate.now }
    requires texts { AreTexts problem.now.parts.quiver texts.now }
    ensures written { let ds = problem.now.parts.quiver in
        OnOk result (out.new.items ≡ out.old.items ++ lines_text ds (steps_of problem.now certificate.now) (lines_of problem.now certificate.now)) }
    ensures passed { OnOk result (StepsPass problem.now certificate.now (length certificate.now.rows)) }
    ensures fault { IfErr result (IsFirstFault problem.now certificate.now) }
{
    let mut line = first_line(problem, certificate)?;
    put_line(out, texts, &line.poly)?;
    for place in 0..certificate.rows.len() {
        line = put_next(out, texts, problem, certificate, place, line)?;
    }
    Ok(())
}

// The line after the row at this place. Where the row is a step, it is written, and then that line.
fn put_next(
    out: &mut Vec<u8>,
    texts: &LetterTexts,
    problem: &Problem,
    certificate: &Certificate,
    place: usize,
    line: Line,
) -> Result<Line, ChainFault>
    requires in_range { place < length certificate.now.rows }
    requires checkable { IsCheckable problem.now.parts.quiver certificate.now }
    requires accepted { IsAccepted problem.now certificate.now }
    requires texts { AreTexts problem.now.parts.quiver texts.now }
    requires earlier { StepsPass problem.now certificate.now place }
    requires line { IsLineBefore problem.now certificate.now place line }
    ensures written { (front : List ℕ) → out.old.items ≡ front ++ text_before problem.now certificate.now place
        → OnOk result (out.new.items ≡ front ++ text_before problem.now certificate.now (place + 1)) }
    ensures line { IfOk result (IsLineBefore problem.now certificate.now (place + 1)) }
    ensures passed { OnOk result (StepsPass problem.now certificate.now (place + 1)) }
    ensures fault { IfErr result (IsFirstFault problem.now certificate.now) }
{
    let row = certificate.rows.at(place);
    let next = next_line(problem, certificate, place, &line)?;
    match next {
        None => Ok(line),
        Some(next) => {
            put_use(out, texts, row)?;
            put_line(out, texts, &next.poly)?;
            Ok(next)
        }
    }
}
