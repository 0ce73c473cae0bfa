//! Files in memory, with loads that are made to fail.

ghost use Rattle.std.specs.Prelude.{◌≡◌, ◌≢◌, ◌+◌, ◌<◌, ◌≤◌, ◌↔◌, ℕ, List, Some, IfOk, AllPairs, length, set, slice_get, slice_index};
ghost use Rattle.flow_io.specs.Causes.{Rose, next_count};
ghost use Rattle.flow_io.specs.Shelf.{LoadAnswers};
ghost use Rattle.flow_io.specs.Told.{Absent, Holds};
ghost use Rattle.flow_io.specs.Files.{place_of, file_under};
ghost use Rattle.flow_io.specs.MemoryShelf.{new_shelf, LoadGives, count_of};

use crate::{Shelf, ShelfFault};
use lists::{Listing, Text};
use std::alloc::{AllocError, Global};
use std::marker::Model;

/// Files in memory, for tests. Its loads are numbered from 1, and those with a number in the list `failing`
/// fail. It has a count of faults for each of its files and one for all other names.
#[derive(Drop)]
pub struct MemoryShelf {
    files: Listing<(Text, Listing<u8>)>,
    failing: Listing<u64>,
    loads: u64,
    counts: Vec<u64>,
}

impl Model for MemoryShelf {
    ghost use Rattle.std.specs.Prelude.{◌≡◌, ◌+◌, length, vec_len};
    ghost use Rattle.flow_io.specs.MemoryShelf.{ShelfState};

    ghost Value = { ShelfState };

    ghost view = { λ shelf. record {
      files = shelf.files;
      failing = shelf.failing;
      loads = shelf.loads;
      counts = shelf.counts.items;
    } };

    ghost invariant = { λ shelf. vec_len shelf.counts ≡ length shelf.files + 1 };
}

impl MemoryShelf {
    /// A shelf of the files, each a name with its bytes, of which no name is there twice.
    pub fn new(
        alloc: Global,
        files: Listing<(Text, Listing<u8>)>,
        failing: Listing<u64>,
    ) -> Result<MemoryShelf, AllocError>
        requires { AllPairs (λ one other. one.0 ≢ other.0) files }
        ensures { IfOk result (λ shelf. shelf ≡ new_shelf files failing) }
    {
        let counts = vec![in alloc; 0; files.len() + 1]?;
        Ok(MemoryShelf {
            files,
            failing,
            loads: 0,
            counts,
        })
    }

    /// How many loads there were; at the greatest u64 the number stays.
    pub fn loads(&self) -> u64
        ensures { result ≡ self.now.loads }
    {
        self.loads
    }
}

// The place of the file of this name, or the number of files where there is none.
fn place_in(files: &[(Text, Listing<u8>)], name: &str) -> usize
    ensures place { result ≡ place_of files.now name.now }
    ensures within { result ≤ length files.now }
    ensures absent { (result ≡ length files.now) ↔ (file_under files.now name.now ≡ Absent) }
    ensures found { (file : _) → slice_get files.now result ≡ Some file → file_under files.now name.now ≡ Holds file.1 }
{
    for (place, file) in files.iter().enumerate() {
        if file.0.as_str() == name {
            return place;
        }
    }
    files.len()
}

// The bytes, or the fault that there are more than `most`.
pub(crate) fn within(alloc: Global, bytes: &[u8], most: usize) -> Result<Vec<u8>, ShelfFault>
    requires { most < usize.MAX }
    ensures { LoadAnswers (Holds bytes.now) most 0 0 result }
{
    if bytes.len() > most {
        return Err(ShelfFault::TooLong { got: most + 1 });
    }
    Ok(Vec::from_slice(alloc, bytes)?)
}

// The count at this place goes up by one; at the greatest u64 it stays.
fn raise(counts: &mut [u64], place: usize)
    requires { place < length counts.old }
    ensures exact { counts.new ≡ set counts.old place (next_count (slice_index counts.old place)) }
    ensures rose { Rose (slice_index counts.old place) (slice_index counts.new place) }
    ensures none_fell { (other : ℕ) → slice_index counts.old other ≤ slice_index counts.new other }
{
    counts[place] = counts[place].saturating_add(1);
}

impl Shelf for MemoryShelf {
    ghost file = { λ shelf name. file_under shelf.files name };

    ghost faults = { λ shelf name. count_of shelf name };

    /// It fails with `Failed` exactly where the load's number is listed or no file has the name.
    fn load(&mut self, alloc: Global, name: &str, most: usize) -> Result<Vec<u8>, ShelfFault>
        requires { most < usize.MAX }
        ensures exact { LoadGives self.old name.now most result self.new }
        // by the trait
        ensures answer { LoadAnswers (file_under self.old.files name.now) most
            (count_of self.old name.now) (count_of self.new name.now) result }
        ensures counts { (other : List ℕ) → count_of self.old other ≤ count_of self.new other }
    {
        self.loads = self.loads.saturating_add(1);
        let place = place_in(self.files.as_slice(), name);
        if place == self.files.len() || self.failing.as_slice().contains(&self.loads) {
            raise(&mut self.counts, place);
            return Err(ShelfFault::Failed);
        }
        within(alloc, self.files.at(place).1.as_slice(), most)
    }
}
