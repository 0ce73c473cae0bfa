//! The files of a call.
ghost use Rattle.std.specs.Prelude.{◌≡◌, IfOk};
ghost use Rattle.command_runs.specs.CallFiles.{files_of};

use command_shape::{Call, FileWord, pair_files, statement_file};
use lists::Listing;
use std::alloc::{AllocError, Global};

/// The files of the call, in the order in which they are loaded.
pub fn call_files(alloc: Global, call: &Call) -> Result<Listing<FileWord>, AllocError>
    ensures { IfOk result (λ files. files ≡ files_of call.now) }
{
    match call {
        Call::Prove(prove) => statement_file(alloc, &prove.file),
        Call::Refute(refute) => statement_file(alloc, &refute.file),
        Call::Evidence(_, pair) => pair_files(alloc, &pair.statement, &pair.evidence),
        Call::Bench(_) => Ok(Listing::new(alloc)),
    }
}
