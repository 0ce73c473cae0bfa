//! The letters that a proof calls monic and epic, by their numbers.
ghost use Rattle.std.specs.Prelude.{◌≡◌, ◌↔◌, ◌<◌, All, Contains, IfOk, IsTrue, false, get_or};
ghost use Rattle.cancel_rules.specs.Cancellations.{declared_for};
ghost use Rattle.cancel_rules.specs.Inner.{MarksLetters, MarksDeclared};

use crate::{Cancellation, Side};
use std::alloc::{AllocError, Global};
use word_core::Letter;

/// For each letter of the quiver whether it may be taken off, in front and behind.
#[derive(Drop)]
pub(crate) struct Marks {
    pub monic: Vec<bool>,
    pub epic: Vec<bool>,
}

// A table of so many places that marks these letters.
fn marks_of(alloc: Global, letters: &[Letter], count: u32) -> Result<Vec<bool>, AllocError>
    requires { All (λ a. a.0 < count) letters.now }
    ensures { IfOk result (λ marks. MarksLetters letters.now marks.items) }
{
    let mut marks = vec![in alloc; false; count as usize]?;
    for letter in letters {
        marks[usize::from(letter.0)] = true;
    }
    Ok(marks)
}

/// The marks of the letters that the proof declares, where there are so many letters.
pub(crate) fn declared_marks(
    alloc: Global,
    proof: &Cancellation,
    count: u32,
) -> Result<Marks, AllocError>
    requires monic { All (λ a. a.0 < count) proof.now.monic }
    requires epic { All (λ a. a.0 < count) proof.now.epic }
    ensures { IfOk result (MarksDeclared proof.now) }
{
    Ok(Marks {
        monic: marks_of(alloc, proof.monic.as_slice(), count)?,
        epic: marks_of(alloc, proof.epic.as_slice(), count)?,
    })
}

// Whether the letter is marked. Past the end of the table none is.
fn is_marked(marks: &[bool], letter: Letter) -> bool
    ensures { result ≡ get_or marks.now letter.0 false }
{
    let place = usize::from(letter.0);
    place < marks.len() && marks[place]
}

impl Marks {
    /// Whether the letter is declared for the side.
    pub(crate) fn has(&self, letter: Letter, side: Side) -> bool
        ensures { (proof : Cancellation) → MarksDeclared proof self.now → IsTrue result ↔ Contains (declared_for proof side) letter }
    {
        match side {
            Side::Left => is_marked(self.monic.as_slice(), letter),
            Side::Right => is_marked(self.epic.as_slice(), letter),
        }
    }
}
