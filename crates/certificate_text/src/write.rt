//! Certificates as bytes.

ghost use Rattle.std.specs.Prelude.{◌≡◌, ◌<◌, ◌++◌, codes, IfOk, OnOk};
ghost use Rattle.std.specs.Fmt.{signed_decimal};
ghost use Rattle.std.specs.List.{All, flat_map};
ghost use Rattle.quiver.specs.Declarations.{letter_count};
ghost use Rattle.word_core.specs.Letters.{IsOver};
ghost use Rattle.certificate_text.specs.Evidence.{IsRowOver};
ghost use Rattle.block_text.specs.Written.{word_text};
ghost use Rattle.certificate_text.specs.Written.{opening_text, row_text, certificate_text};

use block_text::{put, put_integer, put_number, put_word};
use cofactor_trace::{CertRow, Certificate};
use quiver::Quiver;
use std::alloc::{AllocError, Global};
use word_core::Word;

// Appends the first half of a row, its coefficient and the word before the generator.
pub(crate) fn put_row_front(
    out: &mut Vec<u8>,
    quiver: &Quiver,
    coef: i128,
    left: &Word,
) -> Result<(), AllocError>
    requires { IsOver (letter_count quiver.now) left.now }
    ensures { OnOk result (out.new.items ≡ out.old.items ++ codes "row " ++ signed_decimal coef ++ codes " (" ++ word_text quiver.now left.now ++ codes ") ") }
{
    put(out, "row ")?;
    put_integer(out, coef)?;
    put(out, " (")?;
    put_word(out, quiver, left)?;
    put(out, ") ")
}

// Appends the end of a row, the word after the generator.
pub(crate) fn put_row_end(
    out: &mut Vec<u8>,
    quiver: &Quiver,
    right: &Word,
) -> Result<(), AllocError>
    requires { IsOver (letter_count quiver.now) right.now }
    ensures { OnOk result (out.new.items ≡ out.old.items ++ codes " (" ++ word_text quiver.now right.now ++ codes ")\n") }
{
    put(out, " (")?;
    put_word(out, quiver, right)?;
    put(out, ")\n")
}

fn put_row(out: &mut Vec<u8>, quiver: &Quiver, row: &CertRow) -> Result<(), AllocError>
    requires { IsRowOver quiver.now row.now }
    ensures { OnOk result (out.new.items ≡ out.old.items ++ row_text quiver.now row.now) }
{
    put_row_front(out, quiver, row.coef, &row.left)?;
    put_number(out, u128::from(row.generator))?;
    put_row_end(out, quiver, &row.right)
}

fn put_rows(out: &mut Vec<u8>, quiver: &Quiver, rows: &[CertRow]) -> Result<(), AllocError>
    requires { All (IsRowOver quiver.now) rows.now }
    ensures { OnOk result (out.new.items ≡ out.old.items ++ flat_map (row_text quiver.now) rows.now) }
{
    for row in rows {
        put_row(out, quiver, row)?;
    }
    Ok(())
}

/// Appends the first lines of a block: a head, which ends with `claim`, the number of the claim, and the denominator. It fails
/// only where memory is short.
pub fn put_opening(
    out: &mut Vec<u8>,
    head: &str,
    claim: u32,
    denominator: i128,
) -> Result<(), AllocError>
    ensures { OnOk result (out.new.items ≡ out.old.items ++ opening_text head.now claim denominator) }
{
    put(out, head)?;
    put_number(out, u128::from(claim))?;
    put(out, "\ndenominator ")?;
    put_integer(out, denominator)?;
    put(out, "\n")
}

/// Appends a certificate, as a block of evidence text with a line for each row.
pub fn put_certificate(
    out: &mut Vec<u8>,
    quiver: &Quiver,
    certificate: &Certificate,
) -> Result<(), AllocError>
    requires { All (IsRowOver quiver.now) certificate.now.rows }
    ensures { OnOk result (out.new.items ≡ out.old.items ++ certificate_text quiver.now certificate.now) }
{
    put_opening(
        out,
        "certificate 1\nclaim ",
        certificate.claim,
        certificate.denominator,
    )?;
    put_rows(out, quiver, certificate.rows.as_slice())?;
    put(out, "end\n")
}

/// A certificate as a block of evidence text, with a line for each row.
pub fn write_certificate(
    alloc: Global,
    quiver: &Quiver,
    certificate: &Certificate,
) -> Result<Vec<u8>, AllocError>
    requires { All (IsRowOver quiver.now) certificate.now.rows }
    ensures { IfOk result (λ text. text.items ≡ certificate_text quiver.now certificate.now) }
{
    let mut out = Vec::new(alloc);
    put_certificate(&mut out, quiver, certificate)?;
    Ok(out)
}
