//! Letters that have texts.

ghost use Rattle.std.specs.Prelude.{◌≡◌, ℕ, ◌<◌, List, ◌++◌, OnOk};
ghost use Rattle.quiver.specs.Declarations.{letter_count};
ghost use Rattle.block_text.specs.Written.{letter_text};

use quiver::Quiver;
use std::alloc::AllocError;
use word_core::Letter;

/// Letters that have texts, numbered from 0.
pub trait Letters {
    // The text of each letter, and the number of letters.
    ghost text: { Self → ℕ → List ℕ };

    ghost count: { Self → ℕ };

    /// Appends the text of a letter.
    fn put_letter(&self, out: &mut Vec<u8>, letter: Letter) -> Result<(), AllocError>
        requires { letter.0 < count self.now }
        ensures { OnOk result (out.new.items ≡ out.old.items ++ text self.now letter.0) };
}

impl Letters for Quiver {
    ghost text = { letter_text };

    ghost count = { letter_count };

    fn put_letter(&self, out: &mut Vec<u8>, letter: Letter) -> Result<(), AllocError> {
        crate::write::put_letter(out, self, letter)
    }
}
