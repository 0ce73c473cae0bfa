//! Two files in memory, of which no load fails.

ghost use Rattle.std.specs.Prelude.{◌≡◌, ◌<◌};
ghost use Rattle.flow_io.specs.Shelf.{LoadAnswers};
ghost use Rattle.flow_io.specs.Told.{Holds};
ghost use Rattle.flow_io.specs.Steady.{held_under};

use crate::memory_shelf::within;
use crate::{Shelf, ShelfFault};
use lists::{Listing, Text};
use std::alloc::Global;
use std::marker::Model;

/// Two files in memory, for tests: the first under its name, and the second under every other name. Its counts
/// of faults are 0.
#[derive(Drop)]
pub struct SteadyShelf {
    name: Text,
    first: Listing<u8>,
    second: Listing<u8>,
}

impl Model for SteadyShelf {
    ghost use Rattle.flow_io.specs.Steady.{TwoFiles};

    ghost Value = { TwoFiles };

    ghost view = { λ shelf. record {
      name = shelf.name;
      first = shelf.first;
      second = shelf.second;
    } };
}

impl SteadyShelf {
    /// A shelf of the two files.
    pub fn new(name: Text, first: Listing<u8>, second: Listing<u8>) -> SteadyShelf
        ensures { result ≡ record { name = name; first = first; second = second } }
    {
        SteadyShelf {
            name,
            first,
            second,
        }
    }

    // The bytes of the file of a name.
    fn file(&self, name: &str) -> &[u8]
        ensures { result.now ≡ held_under self.now name.now }
    {
        if self.name.as_str() == name {
            self.first.as_slice()
        } else {
            self.second.as_slice()
        }
    }
}

impl Shelf for SteadyShelf {
    ghost file = { λ shelf name. Holds (held_under shelf name) };

    ghost faults = { λ _ _. 0 };

    /// It returns the file, that it is too long, or that memory ran out. The shelf is unchanged.
    fn load(&mut self, alloc: Global, name: &str, most: usize) -> Result<Vec<u8>, ShelfFault>
        requires { most < usize.MAX }
        ensures kept { self.new ≡ self.old }
        // by the trait
        ensures answer { LoadAnswers (Holds (held_under self.old name.now)) most 0 0 result }
    {
        within(alloc, self.file(name), most)
    }
}
