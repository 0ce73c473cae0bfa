//! The files of the machine, each read whole and within a limit.

ghost use Rattle.std.specs.Prelude.{◌≡◌, ◌+◌, ◌<◌, ◌≤◌, IsErr, IsErrOf, IfOk};
ghost use Rattle.flow_io.specs.Shelf.{LoadAnswers};
ghost use Rattle.flow_io.specs.Told.{Untold, told_by};

use crate::{Shelf, ShelfFault};
use std::alloc::Global;
use std::io::Read;
use std::rt::Files;
use std::{fs, io};

const BLOCK: usize = 8192;

/// The machine's files, of which it tells nothing. It has one count of faults for all names.
#[derive(Drop)]
pub struct RealShelf<R: Files + Drop> {
    rt: R,
    faults: u64,
}

impl<R: Files + Drop> RealShelf<R> {
    ghost use Rattle.std.specs.Prelude.{List, ℕ};

    /// The machine's files, with no fault so far.
    pub fn new(rt: R) -> RealShelf<R>
        ensures no_fault { (name : List ℕ) → ⟦<RealShelf<R> as Shelf>⟧.faults result name ≡ 0 }
    {
        RealShelf { rt, faults: 0 }
    }
}

// Reads to the end, or to one byte past the limit.
fn read_whole<F: Read>(alloc: Global, file: &mut F, most: usize) -> Result<Vec<u8>, ShelfFault>
    requires { most < usize.MAX }
    ensures { LoadAnswers (told_by (F.remaining file.old)) most 0 1 result }
{
    let mut bytes = Vec::new(alloc);
    let mut block = [0u8; BLOCK];
    while bytes.len() <= most {
        let want = BLOCK.min(most + 1 - bytes.len());
        match file.read(&mut block[..want]) {
            Ok(0) => return Ok(bytes),
            Ok(count) => bytes.extend_from_slice(&block[..count])?,
            Err(_) => return Err(ShelfFault::Failed),
        }
    }
    Err(ShelfFault::TooLong { got: bytes.len() })
}

// The whole of an opened file, within its limit, or why there is none.
fn read_opened<F: Read + Drop>(
    alloc: Global,
    opened: io::Result<F>,
    most: usize,
) -> Result<Vec<u8>, ShelfFault>
    requires { most < usize.MAX }
    ensures unopened { IsErr opened → IsErrOf result ShelfFault.Failed }
    ensures whole { IfOk opened (λ file. LoadAnswers (told_by (F.remaining file)) most 0 1 result) }
{
    match opened {
        Ok(mut file) => read_whole(alloc, &mut file, most),
        Err(_) => Err(ShelfFault::Failed),
    }
}

impl<R: Files + Drop> Shelf for RealShelf<R> {
    ghost use Rattle.std.specs.Prelude.{◌<◌, ◌≤◌, ◌≡◌, List, ℕ};
    ghost use Rattle.flow_io.specs.Shelf.{CountsLoad};

    ghost file = { λ _ _. Untold };

    ghost faults = { λ shelf _. shelf.faults };

    /// The count goes up by one where it returns `Failed`, and is unchanged otherwise.
    fn load(&mut self, alloc: Global, name: &str, most: usize) -> Result<Vec<u8>, ShelfFault>
        requires { most < usize.MAX }
        ensures counted { CountsLoad self.old.faults self.new.faults result }
        // by the trait
        ensures answer { LoadAnswers Untold most self.old.faults self.new.faults result }
        ensures counts { self.old.faults ≤ self.new.faults }
    {
        let answer = read_opened(alloc, fs::open(&self.rt, name), most);
        if let Err(ShelfFault::Failed) = &answer {
            self.faults = self.faults.saturating_add(1);
        }
        answer
    }
}
