//! Marks of the letters of a word, by which a word without a given letter is found at once.
ghost use Rattle.std.specs.Prelude.{◌≡◌, ◌<◌, length, map, IfOk};
ghost use Rattle.std.specs.List.{All};
ghost use Rattle.ambiguities.specs.Agreement.{HasMarks, first_of, is_marked};

use rule_reduce::Rule;
use std::alloc::{AllocError, Global};
use word_core::Word;

// The number of marks. A letter's mark is its number modulo this.
pub(crate) const MARKS: usize = 64;

// A mark for each letter of the word.
pub(crate) fn marks_of(word: &Word) -> [bool; MARKS]
    ensures { HasMarks result word.now }
{
    let mut marks = [false; MARKS];
    for place in 0..word.len() {
        marks[word.letter(place).0 as usize % MARKS] = true;
    }
    marks
}

// Whether the letter with this number is marked.
pub(crate) fn has_mark(marks: &[bool; MARKS], letter: u16) -> bool
    ensures { result ≡ is_marked marks.now letter }
{
    marks[letter as usize % MARKS]
}

// The first letter of each leading word.
pub(crate) fn first_letters(alloc: Global, rules: &[Rule]) -> Result<Vec<u16>, AllocError>
    requires { All (λ g. 0 < length g.lead) rules.now }
    ensures { IfOk result (λ letters. letters.items ≡ map (λ g. first_of g.lead) rules.now) }
{
    let mut letters = Vec::with_capacity(alloc, rules.len())?;
    for rule in rules {
        letters.push(rule.lead.letter(0).0)?;
    }
    Ok(letters)
}
