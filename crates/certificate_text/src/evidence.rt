//! Evidence of both formats as bytes.

ghost use Rattle.std.specs.Prelude.{◌≡◌, ◌<◌, ◌+◌, ◌++◌, IfOk, OnOk};
ghost use Rattle.std.specs.List.{All, flat_map};
ghost use Rattle.certificate_text.specs.Evidence.{IsLemmaRowOver};
ghost use Rattle.certificate_text.specs.Written.{IsLemmaOver, IsEvidenceOver, origin_text, lemma_row_text, scaled_text, lemma_text};
ghost use Rattle.certificate_text.specs.Written.{lemmas_text, goal_text, lemma_certificate_text, evidence_text};

use crate::write::{put_certificate, put_opening, put_row_end, put_row_front};
use block_text::{put, put_integer, put_number};
use cofactor_trace::{CertFrom, Evidence, Lemma, LemmaCertificate, LemmaRow};
use quiver::Quiver;
use std::alloc::{AllocError, Global};

fn put_origin(out: &mut Vec<u8>, from: CertFrom) -> Result<(), AllocError>
    ensures { OnOk result (out.new.items ≡ out.old.items ++ origin_text from) }
{
    match from {
        CertFrom::Generator(number) => put_number(out, u128::from(number)),
        CertFrom::Lemma(number) => {
            put(out, "lemma ")?;
            put_number(out, u128::from(number))
        }
    }
}

fn put_lemma_row(out: &mut Vec<u8>, quiver: &Quiver, row: &LemmaRow) -> Result<(), AllocError>
    requires { IsLemmaRowOver quiver.now row.now }
    ensures { OnOk result (out.new.items ≡ out.old.items ++ lemma_row_text quiver.now row.now) }
{
    put_row_front(out, quiver, row.coef, &row.left)?;
    put_origin(out, row.from)?;
    put_row_end(out, quiver, &row.right)
}

fn put_lemma_rows(out: &mut Vec<u8>, quiver: &Quiver, rows: &[LemmaRow]) -> Result<(), AllocError>
    requires { All (IsLemmaRowOver quiver.now) rows.now }
    ensures { OnOk result (out.new.items ≡ out.old.items ++ flat_map (lemma_row_text quiver.now) rows.now) }
{
    for row in rows {
        put_lemma_row(out, quiver, row)?;
    }
    Ok(())
}

// The scale, and a line for each row.
fn put_scaled(out: &mut Vec<u8>, quiver: &Quiver, lemma: &Lemma) -> Result<(), AllocError>
    requires { IsLemmaOver quiver.now lemma.now }
    ensures { OnOk result (out.new.items ≡ out.old.items ++ scaled_text quiver.now lemma.now) }
{
    put(out, " scale ")?;
    put_integer(out, lemma.scale)?;
    put(out, "\n")?;
    put_lemma_rows(out, quiver, lemma.rows.as_slice())
}

/// Appends the lemma with this number and a line for each of its rows. It fails only where memory is short.
pub fn put_lemma(
    out: &mut Vec<u8>,
    quiver: &Quiver,
    number: usize,
    lemma: &Lemma,
) -> Result<(), AllocError>
    requires { IsLemmaOver quiver.now lemma.now }
    ensures { OnOk result (out.new.items ≡ out.old.items ++ lemma_text quiver.now number lemma.now) }
{
    put(out, "lemma ")?;
    put_number(out, number as u128)?;
    put_scaled(out, quiver, lemma)
}

fn put_lemmas(out: &mut Vec<u8>, quiver: &Quiver, lemmas: &[Lemma]) -> Result<(), AllocError>
    requires { All (IsLemmaOver quiver.now) lemmas.now }
    ensures { OnOk result (out.new.items ≡ out.old.items ++ lemmas_text quiver.now 1 lemmas.now) }
{
    let mut number = 1;
    for lemma in lemmas {
        put_lemma(out, quiver, number, lemma)?;
        number += 1;
    }
    Ok(())
}

/// Appends a goal, a line for each of its rows, and the end of the block. It fails only where memory is short.
pub fn put_goal(out: &mut Vec<u8>, quiver: &Quiver, goal: &Lemma) -> Result<(), AllocError>
    requires { IsLemmaOver quiver.now goal.now }
    ensures { OnOk result (out.new.items ≡ out.old.items ++ goal_text quiver.now goal.now) }
{
    put(out, "goal")?;
    put_scaled(out, quiver, goal)?;
    put(out, "end\n")
}

fn put_lemma_certificate(
    out: &mut Vec<u8>,
    quiver: &Quiver,
    certificate: &LemmaCertificate,
) -> Result<(), AllocError>
    requires lemmas { All (IsLemmaOver quiver.now) certificate.now.lemmas }
    requires goal { IsLemmaOver quiver.now certificate.now.goal }
    ensures { OnOk result (out.new.items ≡ out.old.items ++ lemma_certificate_text quiver.now certificate.now) }
{
    put_opening(
        out,
        "certificate 2\nclaim ",
        certificate.claim,
        certificate.denominator,
    )?;
    put_lemmas(out, quiver, certificate.lemmas.as_slice())?;
    put_goal(out, quiver, &certificate.goal)
}

/// Appends evidence of either format, as a block of evidence text with a line for each row, each lemma and the goal.
pub fn put_evidence(
    out: &mut Vec<u8>,
    quiver: &Quiver,
    evidence: &Evidence,
) -> Result<(), AllocError>
    requires { IsEvidenceOver quiver.now evidence.now }
    ensures { OnOk result (out.new.items ≡ out.old.items ++ evidence_text quiver.now evidence.now) }
{
    match evidence {
        Evidence::Plain(certificate) => put_certificate(out, quiver, certificate),
        Evidence::Lemmas(certificate) => put_lemma_certificate(out, quiver, certificate),
    }
}

/// Evidence of either format as a block of evidence text.
pub fn write_evidence(
    alloc: Global,
    quiver: &Quiver,
    evidence: &Evidence,
) -> Result<Vec<u8>, AllocError>
    requires { IsEvidenceOver quiver.now evidence.now }
    ensures { IfOk result (λ text. text.items ≡ evidence_text quiver.now evidence.now) }
{
    let mut out = Vec::new(alloc);
    put_evidence(&mut out, quiver, evidence)?;
    Ok(out)
}
