//! The words on either side of a leading word.
ghost use Rattle.std.specs.Prelude.{◌≡◌, take, drop, ◌+◌, IfOk};

use std::alloc::AllocError;
use word_core::Word;

// The letters before the place.
pub(crate) fn front(word: &Word, place: usize) -> Result<Word, AllocError>
    ensures { IfOk result (λ w. w ≡ take place word.now) }
{
    if place <= word.len() {
        word.slice(0, place)
    } else {
        word.copy()
    }
}

// The letters behind the place and so many letters more.
pub(crate) fn back(word: &Word, place: usize, count: usize) -> Result<Word, AllocError>
    ensures { IfOk result (λ w. w ≡ drop (place + count) word.now) }
{
    let size = word.len();
    if place <= size && count <= size - place {
        word.slice(place + count, size)
    } else {
        word.slice(0, 0)
    }
}
