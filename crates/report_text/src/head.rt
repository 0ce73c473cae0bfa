//! The head line of a verdict.

ghost use Rattle.std.specs.Prelude.{◌≡◌, ◌++◌, OnOk};
ghost use Rattle.traced_rows.specs.LemmaRows.{denominator_of};
ghost use Rattle.report_text.specs.Heads.{lemma_row_count, row_count, denominator_text, proved_text, not_derivable_text};
ghost use Rattle.report_text.specs.Heads.{not_refuted_text, overflow_text, cause_text, place_text, least_text, undecided_text, said_of};
ghost use Rattle.report_text.specs.Heads.{head_line};
ghost use Rattle.report_text.specs.Report.{IsLeastOver, IsVerdictOver};

use crate::Verdict;
use block_text::{put, put_integer, put_labelled, put_number, put_signed, put_word};
use coef_int::Overflow;
use cofactor_trace::{Cause, Evidence, Halt, LETTER_LIMIT, LemmaCertificate, Place, ROW_LIMIT};
use nc_polynomial::{TERM_LIMIT, WORD_LIMIT};
use quiver::Quiver;
use std::alloc::AllocError;
use word_core::Word;

fn lemma_row_count(certificate: &LemmaCertificate) -> u128
    ensures { result ≡ lemma_row_count certificate.now }
{
    let mut count = certificate.goal.rows.len() as u128;
    for lemma in certificate.lemmas.as_slice() {
        count += lemma.rows.len() as u128;
    }
    count
}

fn denominator_of(evidence: &Evidence) -> i128
    ensures { result ≡ denominator_of evidence.now }
{
    match evidence {
        Evidence::Plain(certificate) => certificate.denominator,
        Evidence::Lemmas(certificate) => certificate.denominator,
    }
}

fn row_count(evidence: &Evidence) -> u128
    ensures { result ≡ row_count evidence.now }
{
    match evidence {
        Evidence::Plain(certificate) => certificate.rows.len() as u128,
        Evidence::Lemmas(certificate) => lemma_row_count(certificate),
    }
}

fn put_denominator(out: &mut Vec<u8>, denominator: i128) -> Result<(), AllocError>
    ensures { OnOk result (out.new.items ≡ out.old.items ++ denominator_text denominator) }
{
    put_signed(out, " proved denominator ", denominator)
}

fn put_proved(out: &mut Vec<u8>, evidence: &Evidence) -> Result<(), AllocError>
    ensures { OnOk result (out.new.items ≡ out.old.items ++ proved_text evidence.now) }
{
    put_denominator(out, denominator_of(evidence))?;
    put_labelled(out, " rows ", row_count(evidence))
}

fn put_not_derivable(out: &mut Vec<u8>, rules: usize) -> Result<(), AllocError>
    ensures { OnOk result (out.new.items ≡ out.old.items ++ not_derivable_text rules) }
{
    put_labelled(out, " not derivable rules ", rules as u128)
}

fn put_not_refuted(out: &mut Vec<u8>, candidates: u64) -> Result<(), AllocError>
    ensures { OnOk result (out.new.items ≡ out.old.items ++ not_refuted_text candidates) }
{
    put_labelled(out, " not refuted candidates ", u128::from(candidates))
}

fn put_overflow(out: &mut Vec<u8>, overflow: &Overflow) -> Result<(), AllocError>
    ensures { OnOk result (out.new.items ≡ out.old.items ++ overflow_text overflow.now) }
{
    put_integer(out, overflow.left)?;
    put(
        out,
        if overflow.product {
            " times "
        } else {
            " plus "
        },
    )?;
    put_integer(out, overflow.right)
}

/// Appends why work was given up.
pub fn put_cause(out: &mut Vec<u8>, cause: &Cause) -> Result<(), AllocError>
    ensures { OnOk result (out.new.items ≡ out.old.items ++ cause_text cause.now) }
{
    match cause {
        Cause::Pairs { spent } => put_labelled(out, "pairs ", u128::from(*spent)),
        Cause::Steps { limit } => put_labelled(out, "steps ", u128::from(*limit)),
        Cause::Size { letters: true } => put_labelled(out, "size letters ", WORD_LIMIT as u128),
        Cause::Size { letters: false } => put_labelled(out, "size terms ", TERM_LIMIT as u128),
        Cause::Rows { letters: true } => put_labelled(out, "rows letters ", LETTER_LIMIT as u128),
        Cause::Rows { letters: false } => put_labelled(out, "rows ", ROW_LIMIT as u128),
        Cause::Overflow(overflow) => {
            put(out, "overflow ")?;
            put_overflow(out, overflow)
        }
    }
}

fn put_place(out: &mut Vec<u8>, place: Place) -> Result<(), AllocError>
    ensures { OnOk result (out.new.items ≡ out.old.items ++ place_text place) }
{
    let (text, round) = match place {
        Place::Run => return Ok(()),
        Place::Round(round) => (" at round ", round),
        Place::Claim(round) => (" at claim after round ", round),
        Place::Certificate(round) => (" at certificate after round ", round),
    };
    put(out, text)?;
    put_number(out, u128::from(round))
}

fn put_least(out: &mut Vec<u8>, quiver: &Quiver, least: &Option<Word>) -> Result<(), AllocError>
    requires { IsLeastOver quiver.now least.now }
    ensures { OnOk result (out.new.items ≡ out.old.items ++ least_text quiver.now least.now) }
{
    match least {
        None => Ok(()),
        Some(word) => {
            put(out, " least ")?;
            put_word(out, quiver, word)
        }
    }
}

fn put_undecided(out: &mut Vec<u8>, quiver: &Quiver, halt: &Halt) -> Result<(), AllocError>
    requires { IsLeastOver quiver.now halt.now.least }
    ensures { OnOk result (out.new.items ≡ out.old.items ++ undecided_text quiver.now halt.now) }
{
    put(out, " undecided ")?;
    put_cause(out, &halt.cause)?;
    put_place(out, halt.place)?;
    put_least(out, quiver, &halt.least)
}

fn put_said(
    out: &mut Vec<u8>,
    quiver: &Quiver,
    rules: usize,
    verdict: &Verdict,
) -> Result<(), AllocError>
    requires { IsVerdictOver quiver.now verdict.now }
    ensures { OnOk result (out.new.items ≡ out.old.items ++ said_of quiver.now rules verdict.now) }
{
    match verdict {
        Verdict::Proved(evidence) => put_proved(out, evidence),
        Verdict::NotDerivable { rest: _ } => put_not_derivable(out, rules),
        Verdict::Refuted(_) => put(out, " refuted"),
        Verdict::Undecided(halt) => put_undecided(out, quiver, halt),
        Verdict::NotRefuted { candidates } => put_not_refuted(out, *candidates),
    }
}

/// The head line of the verdict on the claim with this number.
pub fn put_head(
    out: &mut Vec<u8>,
    quiver: &Quiver,
    rules: usize,
    claim: usize,
    verdict: &Verdict,
) -> Result<(), AllocError>
    requires { IsVerdictOver quiver.now verdict.now }
    ensures { OnOk result (out.new.items ≡ out.old.items ++ head_line quiver.now rules claim verdict.now) }
{
    put(out, "# claim ")?;
    put_number(out, claim as u128)?;
    put_said(out, quiver, rules, verdict)?;
    put(out, "\n")
}
