//! The files of a call.
ghost use Rattle.std.specs.Prelude.{◌≡◌, IfOk};
ghost use Rattle.command_shape.specs.FileWords.{file_word, statement_file, pair_files};

use lists::{Duplicate, Listing, Text};
use std::alloc::{AllocError, Global};

const STATEMENT_LIMIT: u32 = 1_048_576;

const EVIDENCE_LIMIT: u32 = 67_108_864;

/// A file of a call, and the greatest number of bytes that it may have.
#[derive(Drop)]
pub struct FileWord {
    /// The word that names it.
    pub name: Text,
    /// In bytes.
    pub limit: u32,
}

/// Only a statement.
pub fn statement_file(alloc: Global, name: &Text) -> Result<Listing<FileWord>, AllocError>
    ensures { IfOk result (λ files. files ≡ statement_file name.now) }
{
    let mut files = Listing::new(alloc);
    files.push(file_word(name, STATEMENT_LIMIT)?)?;
    Ok(files)
}

/// A statement, then a text of evidence.
pub fn pair_files(
    alloc: Global,
    statement: &Text,
    evidence: &Text,
) -> Result<Listing<FileWord>, AllocError>
    ensures { IfOk result (λ files. files ≡ pair_files statement.now evidence.now) }
{
    let mut files = Listing::new(alloc);
    files.push(file_word(statement, STATEMENT_LIMIT)?)?;
    files.push(file_word(evidence, EVIDENCE_LIMIT)?)?;
    Ok(files)
}

fn file_word(name: &Text, limit: u32) -> Result<FileWord, AllocError>
    ensures { IfOk result (λ file. file ≡ file_word name.now limit) }
{
    let name = name.duplicate()?;
    Ok(FileWord { name, limit })
}
