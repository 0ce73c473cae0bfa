//! The places from which on a suffix of one word is a prefix of another.

ghost use Rattle.std.specs.Prelude.{◌≡◌, ◌≤◌, length, IfOk};
ghost use Rattle.word_core.specs.Overlap.{overlap_places, overlaps_at};

use lists::Listing;
use std::alloc::{AllocError, Global};

/// The places, ascending, from which on the left word is a proper prefix of the right one.
pub(crate) fn overlaps(
    alloc: Global,
    left: &[u16],
    right: &[u16],
) -> Result<Listing<usize>, AllocError>
    ensures { IfOk result (λ places. places ≡ overlap_places left.now right.now) }
{
    let mut places = Listing::new(alloc);
    for place in 1..left.len() {
        if overlaps_at(left, right, place) {
            places.push(place)?;
        }
    }
    Ok(places)
}

fn overlaps_at(left: &[u16], right: &[u16], place: usize) -> bool
    requires { place ≤ length left.now }
    ensures { result ≡ overlaps_at left.now right.now place }
{
    let rest = left.len() - place;
    rest < right.len() && left[place..] == right[..rest]
}
