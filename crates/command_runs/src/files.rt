//! The files of a call.
ghost use Rattle.std.specs.Prelude.{◌≡◌, ◌≤◌, ℕ, List, IfOk, IfErr, MatchResult};
ghost use Rattle.command_shape.specs.declared.files.FileWord.{FileWord};
ghost use Rattle.command_runs.specs.Files.{RoseAt, AreLoaded, EndsAtFile, AfterFiles, WereLoaded};
ghost use Rattle.command_shape.specs.Stop.{StopsBy};

use command_shape::{Ending, FileWord};
use flow_io::{Shelf, ShelfFault};
use lists::{Listing, Stop};
use std::alloc::Global;

/// The contents of the files, or how the run ends at the first that can't be loaded.
pub fn load_files<L: Shelf>(
    alloc: Global,
    shelf: &mut L,
    files: &[FileWord],
) -> Result<Listing<Listing<u8>>, Stop<Ending>>
    ensures loaded { IfOk result (WereLoaded (L.file shelf.old) files.now) }
    ensures stopped { IfErr result (StopsBy (AfterFiles (L.file shelf.old) (RoseAt (L.faults shelf.old) (L.faults shelf.new)) files.now (λ _ _. ⊥))) }
{
    let mut contents = Listing::new(alloc);
    for file in files {
        let bytes = load_file(alloc, shelf, file)?;
        contents.push(bytes)?;
    }
    Ok(contents)
}

// The bytes of a file, or how the run ends at it.
fn load_file<L: Shelf>(
    alloc: Global,
    shelf: &mut L,
    file: &FileWord,
) -> Result<Listing<u8>, Stop<Ending>>
    ensures loaded { IfOk result (AreLoaded (L.file shelf.old file.now.name) file.now.limit) }
    ensures stopped { IfErr result
        (StopsBy (EndsAtFile (L.file shelf.old file.now.name)
        (RoseAt (L.faults shelf.old) (L.faults shelf.new) file.now.name) file.now.name file.now.limit)) }
    ensures files_stay { (other : List ℕ) → L.file shelf.new other ≡ L.file shelf.old other }
    ensures counts { (other : List ℕ) → L.faults shelf.old other ≤ L.faults shelf.new other }
{
    let name = file.name.as_str();
    let limit = file.limit;
    match shelf.load(alloc, name, limit as usize) {
        Ok(bytes) => Ok(Listing::from_vec(bytes)),
        Err(ShelfFault::Failed) => Err(Stop::Fault(Ending::load_failed(alloc, name)?)),
        Err(ShelfFault::TooLong { .. }) => Err(Stop::Fault(Ending::too_long(alloc, name, limit)?)),
        Err(ShelfFault::Memory(failed)) => Err(Stop::Memory(failed)),
    }
}
