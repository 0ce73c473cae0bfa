//! The report of all verdicts, and its head lines.

ghost use Rattle.std.specs.Prelude.{◌≡◌, ◌++◌, IfOk, OnOk};
ghost use Rattle.std.specs.List.{All};
ghost use Rattle.quiver.specs.Over.{IsPolyOver};
ghost use Rattle.report_text.specs.Report.{block_text, report_of, heads_of, IsVerdictOver};

use crate::Verdict;
use crate::head::put_head;
use block_lines::put_basis;
use certificate_text::put_evidence;
use model_text::put_model;
use nc_polynomial::Poly;
use quiver::Quiver;
use std::alloc::{AllocError, Global};

fn put_block(
    out: &mut Vec<u8>,
    quiver: &Quiver,
    rules: &[Poly],
    claim: usize,
    verdict: &Verdict,
) -> Result<(), AllocError>
    requires rules { All (IsPolyOver quiver.now) rules.now }
    requires verdict { IsVerdictOver quiver.now verdict.now }
    ensures { OnOk result (out.new.items ≡ out.old.items ++ block_text quiver.now rules.now claim verdict.now) }
{
    match verdict {
        Verdict::Proved(evidence) => put_evidence(out, quiver, evidence),
        Verdict::NotDerivable { rest } => put_basis(out, quiver, rules, claim, rest),
        Verdict::Refuted(model) => put_model(out, quiver, model),
        Verdict::Undecided(_) | Verdict::NotRefuted { .. } => Ok(()),
    }
}

/// The report of the verdicts on the claims, in order: for each a head line, and a block with its evidence, with
/// all rules and the rest of the claim by them, or with its model.
pub fn report(
    alloc: Global,
    quiver: &Quiver,
    verdicts: &[Verdict],
    rules: &[Poly],
) -> Result<Vec<u8>, AllocError>
    requires rules { All (IsPolyOver quiver.now) rules.now }
    requires verdicts { All (IsVerdictOver quiver.now) verdicts.now }
    ensures { IfOk result (λ text. text.items ≡ report_of quiver.now rules.now verdicts.now) }
{
    let mut out = Vec::new(alloc);
    for (place, verdict) in verdicts.iter().enumerate() {
        put_head(&mut out, quiver, rules.len(), place + 1, verdict)?;
        put_block(&mut out, quiver, rules, place + 1, verdict)?;
    }
    Ok(out)
}

/// Only the head lines of that report.
pub fn heads(
    alloc: Global,
    quiver: &Quiver,
    verdicts: &[Verdict],
    rules: &[Poly],
) -> Result<Vec<u8>, AllocError>
    requires verdicts { All (IsVerdictOver quiver.now) verdicts.now }
    ensures { IfOk result (λ text. text.items ≡ heads_of quiver.now rules.now verdicts.now) }
{
    let mut out = Vec::new(alloc);
    for (place, verdict) in verdicts.iter().enumerate() {
        put_head(&mut out, quiver, rules.len(), place + 1, verdict)?;
    }
    Ok(out)
}
