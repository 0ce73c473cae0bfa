//! A chain as a block of text.
ghost use Rattle.std.specs.Prelude.{◌≡◌, ◌++◌, OnOk};
ghost use Rattle.std.specs.List.{All};
ghost use Rattle.adjoint_rules.specs.Problem.{polynomials};
ghost use Rattle.equation_chain.specs.Made.{IsWritable};
ghost use Rattle.equation_chain.specs.Spelled.{steps_by, lines_spelled, IsStepSpelled, IsLineSpelled};
ghost use Rattle.equation_chain.specs.Written.{chain_text};

use crate::Chain;
use crate::text::{LetterTexts, letter_texts, put_line, put_opening, put_use};
use block_text::put;
use nc_polynomial::Poly;
use quiver::Quiver;
use std::alloc::{AllocError, Global};
use traced_rows::CertRow;

/// Appends a chain, whose last line is ended by what follows it.
pub fn put_chain(
    alloc: Global,
    out: &mut Vec<u8>,
    quiver: &Quiver,
    chain: &Chain,
) -> Result<(), AllocError>
    requires { IsWritable quiver.now chain.now }
    ensures { let c = chain.now in
        OnOk result (out.new.items ≡ out.old.items ++ chain_text quiver.now c.claim c.denominator c.steps (polynomials c.lines)) }
{
    let texts = letter_texts(alloc, quiver)?;
    put_opening(out, chain.claim, chain.denominator)?;
    put_lines(out, &texts, chain.steps.as_slice(), chain.lines.as_slice())?;
    put(out, "end")
}

// Appends the first line, and each step with the line after it.
fn put_lines(
    out: &mut Vec<u8>,
    texts: &LetterTexts,
    steps: &[CertRow],
    lines: &[Poly],
) -> Result<(), AllocError>
    requires steps { All (IsStepSpelled texts.now) steps.now }
    requires lines { All (λ p. IsLineSpelled texts.now p.terms) lines.now }
    ensures { OnOk result (out.new.items ≡ out.old.items ++ lines_spelled texts.now steps.now (polynomials lines.now)) }
{
    match lines {
        [] => Ok(()),
        [first, rest @ ..] => {
            put_line(out, texts, first)?;
            put_steps(out, texts, steps, rest)
        }
    }
}

// Appends each step with the line after it.
fn put_steps(
    out: &mut Vec<u8>,
    texts: &LetterTexts,
    steps: &[CertRow],
    lines: &[Poly],
) -> Result<(), AllocError>
    requires steps { All (IsStepSpelled texts.now) steps.now }
    requires lines { All (λ p. IsLineSpelled texts.now p.terms) lines.now }
    ensures { OnOk result (out.new.items ≡ out.old.items ++ steps_by texts.now steps.now (polynomials lines.now)) }
{
    for (step, line) in steps.iter().zip(lines) {
        put_use(out, texts, step)?;
        put_line(out, texts, line)?;
    }
    Ok(())
}
