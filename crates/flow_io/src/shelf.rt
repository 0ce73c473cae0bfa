//! Where files come from, and why a load returns none.

ghost use Rattle.std.specs.Prelude.{◌≡◌, ◌<◌, ◌≤◌, List, ℕ};
ghost use Rattle.flow_io.specs.Shelf.{LoadAnswers};
ghost use Rattle.flow_io.specs.Told.{Told};

use std::alloc::{AllocError, Global};
use thiserror::Error;

/// Why a load gave no file.
#[derive(Debug, Drop, Error)]
pub enum ShelfFault {
    /// The file isn't there, or couldn't be read. The name's count of faults rose in the call.
    #[error("the file isn't there or can't be read")]
    Failed,
    /// The file has more bytes than the load was to read at most.
    #[error("{got} bytes are more than may be read")]
    TooLong {
        /// The number of bytes that were read, one more than the limit.
        got: usize,
    },
    /// Memory ran out.
    #[error(transparent)]
    Memory(AllocError),
}

/// Where files come from.
pub trait Shelf {
    /// What the shelf tells of the file under a name.
    ghost file: { Self → List ℕ → Told };

    /// How many faults there were with a name. The count never falls, and stays at the greatest u64.
    ghost faults: { Self → List ℕ → ℕ };

    /// The whole file under a name, which has at most `most` bytes. It fails with `Failed` only where the
    /// count of this name rose in the call, as for a name that isn't there, and with `TooLong` only where
    /// the file may have more than `most` bytes.
    fn load(&mut self, alloc: Global, name: &str, most: usize) -> Result<Vec<u8>, ShelfFault>
        requires { most < usize.MAX }
        ensures answer { LoadAnswers (file self.old name.now) most (faults self.old name.now) (faults self.new name.now) result }
        ensures files_stay { (other : List ℕ) → file self.new other ≡ file self.old other }
        ensures counts { (other : List ℕ) → faults self.old other ≤ faults self.new other };
}

impl From<AllocError> for ShelfFault {
    ghost use Rattle.std.specs.Prelude.{◌≡◌};
    ghost use Rattle.flow_io.specs.declared.shelf.ShelfFault.TheVariants.{Memory};

    ghost from_gives = { λ error fault. fault ≡ Memory error };

    fn from(error: AllocError) -> Self {
        ShelfFault::Memory(error)
    }
}
