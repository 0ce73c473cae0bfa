//! The lines that say why a statement or an evidence text is refused.
ghost use Rattle.std.specs.Prelude.{◌≡◌, ◌++◌, IfOk, OnOk, codes, decimal};
ghost use Rattle.command_shape.specs.Ending.{refused_statement, refused_evidence};
ghost use Rattle.command_shape.specs.Texts.{limit_text, place_text, ends_text, statement_fault, line_text, evidence_fault};

use crate::ending::Ending;
use block_text::{put, put_labelled, put_number};
use lists::Text;
use std::alloc::{AllocError, Global};

/// The names of the source and the target of a signature, where a fault has one.
pub type Ends = Option<(Text, Text)>;

/// The ending of a statement that is refused for a fault.
pub fn refused_statement(
    alloc: Global,
    code: u32,
    place: (u32, u32),
    limit: u32,
    left: &Ends,
    right: &Ends,
) -> Result<Ending, AllocError>
    ensures { IfOk result (λ ending. ending ≡ refused_statement (statement_fault code place.0 place.1 limit left.now right.now)) }
{
    let mut text = Vec::new(alloc);
    put(&mut text, "# refused S")?;
    put_statement_fault(&mut text, code, place, limit, left, right)?;
    Ending::refused_statement(text)
}

/// The ending of an evidence text that is refused for a fault.
pub fn refused_evidence(
    alloc: Global,
    code: u32,
    line: u32,
    limit: u32,
) -> Result<Ending, AllocError>
    ensures { IfOk result (λ ending. ending ≡ refused_evidence (evidence_fault code line limit)) }
{
    let mut text = Vec::new(alloc);
    put(&mut text, "# refused K")?;
    put_evidence_fault(&mut text, code, line, limit)?;
    Ending::refused_evidence(text)
}

// Appends the text of a fault of a statement: its code, its place, its limit, and signatures that don't fit.
fn put_statement_fault(
    out: &mut Vec<u8>,
    code: u32,
    place: (u32, u32),
    limit: u32,
    left: &Ends,
    right: &Ends,
) -> Result<(), AllocError>
    ensures { OnOk result (out.new.items ≡ out.old.items
        ++ (decimal code ++ (place_text code place.0 place.1
        ++ (limit_text limit ++ (ends_text (codes " left ") left.now ++ ends_text (codes " right ") right.now))))) }
{
    put_number(out, u128::from(code))?;
    put_place(out, code, place)?;
    put_limit(out, limit)?;
    put_ends(out, " left ", left)?;
    put_ends(out, " right ", right)
}

// Appends the text of a fault of an evidence text: its code, its line and its limit.
fn put_evidence_fault(out: &mut Vec<u8>, code: u32, line: u32, limit: u32) -> Result<(), AllocError>
    ensures { OnOk result (out.new.items ≡ out.old.items ++ (decimal code ++ (line_text line ++ limit_text limit))) }
{
    put_number(out, u128::from(code))?;
    put_line_number(out, line)?;
    put_limit(out, limit)
}

fn put_line_number(out: &mut Vec<u8>, line: u32) -> Result<(), AllocError>
    ensures { OnOk result (out.new.items ≡ out.old.items ++ line_text line) }
{
    if line == 0 {
        return Ok(());
    }
    put_labelled(out, " line ", u128::from(line))
}

fn put_limit(out: &mut Vec<u8>, limit: u32) -> Result<(), AllocError>
    ensures { OnOk result (out.new.items ≡ out.old.items ++ limit_text limit) }
{
    if limit == 0 {
        return Ok(());
    }
    put_labelled(out, " limit ", u128::from(limit))
}

fn put_place(out: &mut Vec<u8>, code: u32, place: (u32, u32)) -> Result<(), AllocError>
    ensures { OnOk result (out.new.items ≡ out.old.items ++ place_text code place.0 place.1) }
{
    let (line, column) = place;
    match code {
        1 => put_labelled(out, " byte ", u128::from(column)),
        15 => Ok(()),
        _ => {
            put_labelled(out, " line ", u128::from(line))?;
            put_labelled(out, " column ", u128::from(column))
        }
    }
}

fn put_ends(out: &mut Vec<u8>, side: &str, ends: &Ends) -> Result<(), AllocError>
    ensures { OnOk result (out.new.items ≡ out.old.items ++ ends_text side.now ends.now) }
{
    let Some((source, target)) = ends else {
        return Ok(());
    };
    put(out, side)?;
    put(out, source.as_str())?;
    put(out, " -> ")?;
    put(out, target.as_str())
}
