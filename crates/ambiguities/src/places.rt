//! Where two words have the same letters.
ghost use Rattle.std.specs.Prelude.{◌↔◌, ◌≤◌, length, IsTrue};
ghost use Rattle.ambiguities.specs.Agreement.{Agree};

use word_core::Word;

// Whether the first word from the place on and the second word have the same letters, up to the end of the shorter one.
pub(crate) fn agree(word: &Word, other: &Word, place: usize) -> bool
    requires { place ≤ length word.now }
    ensures { IsTrue result ↔ Agree word.now other.now place }
{
    let shared = other.len().min(word.len() - place);
    for index in 0..shared {
        if word.letter(place + index).0 != other.letter(index).0 {
            return false;
        }
    }
    true
}
