//! Words of letters, which contracts see as lists of numbers.

ghost use Rattle.std.specs.Prelude.{◌≡◌, ◌↔◌, ℕ, ◌-◌, ◌<◌, ◌≤◌, ◌^◌, List, [], ◌∷◌, ◌++◌, length, take, drop, Contains, IfOk, IfSome};
ghost use Rattle.std.specs.Prelude.{IfNone, IsTrue, OnErr, OnOk, slice_index};
ghost use Rattle.std.specs.Ordering.{eq_by_cmp, as_partial_cmp};
ghost use Rattle.std.proofs.lemmas.Cmp.{eq_by_cmp_equiv};
ghost use Rattle.std.specs.Cmp.{partial_equiv_from_equiv, partial_order_from_agreeing_total};
ghost use Rattle.std.specs.Prelude.{refl};
ghost use Rattle.word_core.specs.Canonical.{word_cmp, word_cmp_total};
ghost use Rattle.word_core.specs.Letters.{IsOver};
ghost use Rattle.word_core.specs.Occurrence.{OccursAt, IsFirstPlace, OccursNowhere};
ghost use Rattle.word_core.specs.Overlap.{overlap_places, OverlapsAt};

use crate::Letter;
use crate::overlap::overlaps;
use lists::{Duplicate, Listing};
use std::alloc::{AllocError, Global};
use std::cmp::Ordering;
use std::marker::Model;

/// A word: a list of letter numbers, of which the last is applied first.
#[derive(Debug, Drop)]
pub struct Word {
    letters: Vec<u16>,
}

impl Model for Word {
    ghost use Rattle.std.specs.Prelude.{List, ℕ};

    ghost Value = { List ℕ };

    ghost view = { λ w. w.letters.items };
}

impl Word {
    /// The empty word. It takes no memory until a letter is pushed.
    pub fn new(alloc: Global) -> Word
        ensures { result ≡ [] }
    {
        Word {
            letters: Vec::new(alloc),
        }
    }

    /// The empty word, with room for this many letters.
    pub fn with_room(alloc: Global, letters: usize) -> Result<Word, AllocError>
        ensures { IfOk result (λ w. w ≡ []) }
    {
        Ok(Word {
            letters: Vec::with_capacity(alloc, letters)?,
        })
    }

    /// Appends a letter; where memory is short, the word is unchanged.
    pub fn push(&mut self, letter: Letter) -> Result<(), AllocError>
        ensures ok { OnOk result (self.new ≡ self.old ++ letter.0 ∷ []) }
        ensures err { OnErr result (self.new ≡ self.old) }
    {
        self.letters.push(letter.0)?;
        Ok(())
    }

    /// The number of letters. Each of them is a `u16`, which the list of numbers alone doesn't say.
    pub fn len(&self) -> usize
        ensures exact { result ≡ length self.now }
        ensures letters { IsOver (2 ^ 16) self.now }
    {
        let letters = self.letters.as_slice();
        letters.len()
    }

    /// The letter at this place, counted from 0.
    pub fn letter(&self, place: usize) -> Letter
        requires { place < length self.now }
        ensures { result.0 ≡ slice_index self.now place }
    {
        Letter(self.letters[place])
    }

    /// A copy of the word.
    pub fn copy(&self) -> Result<Word, AllocError>
        ensures { IfOk result (λ w. w ≡ self.now) }
    {
        Ok(Word {
            letters: self.letters.clone()?,
        })
    }

    /// The letters from the place `from` to before the place `to`.
    pub fn slice(&self, from: usize, to: usize) -> Result<Word, AllocError>
        requires order { from ≤ to }
        requires in_range { to ≤ length self.now }
        ensures { IfOk result (λ w. w ≡ take (to - from) (drop from self.now)) }
    {
        let alloc = *self.letters.allocator();
        Ok(Word {
            letters: Vec::from_slice(alloc, &self.letters[from..to])?,
        })
    }

    /// The letters of this word and then those of `right`.
    pub fn concat(&self, right: &Word) -> Result<Word, AllocError>
        ensures { IfOk result (λ w. w ≡ self.now ++ right.now) }
    {
        let alloc = *self.letters.allocator();
        let mut letters = Vec::with_capacity(alloc, self.letters.len() + right.letters.len())?;
        letters.extend_from_slice(self.letters.as_slice())?;
        letters.extend_from_slice(right.letters.as_slice())?;
        Ok(Word { letters })
    }

    /// The letters of `left`, then those of this word, and then those of `right`.
    pub fn between(&self, left: &Word, right: &Word) -> Result<Word, AllocError>
        ensures { IfOk result (λ w. w ≡ left.now ++ (self.now ++ right.now)) }
    {
        let alloc = *self.letters.allocator();
        let outer = left.letters.len() + right.letters.len();
        let mut letters = Vec::with_capacity(alloc, outer.saturating_add(self.letters.len()))?;
        letters.extend_from_slice(left.letters.as_slice())?;
        letters.extend_from_slice(self.letters.as_slice())?;
        letters.extend_from_slice(right.letters.as_slice())?;
        Ok(Word { letters })
    }

    /// The least place at which `sub` occurs, or `None` where it occurs nowhere. The empty word occurs at place 0.
    pub fn first_place(&self, sub: &Word) -> Option<usize>
        ensures found { IfSome result (IsFirstPlace self.now sub.now) }
        ensures absent { IfNone result (OccursNowhere self.now sub.now) }
    {
        for place in 0..=self.letters.len() {
            if self.occurs_at(sub, place) {
                return Some(place);
            }
        }
        None
    }

    /// Whether `sub` occurs at this place.
    pub fn occurs_at(&self, sub: &Word, place: usize) -> bool
        requires { place ≤ length self.now }
        ensures { IsTrue result ↔ OccursAt self.now sub.now place }
    {
        self.letters[place..].starts_with(&sub.letters)
    }

    /// The places, ascending, from which on the word is a proper prefix of `right`; place 0 is none of them.
    pub fn overlaps(&self, right: &Word) -> Result<Listing<usize>, AllocError>
        ensures exact { IfOk result (λ places. places ≡ overlap_places self.now right.now) }
        ensures each { IfOk result (λ places. (place : ℕ)
            → Contains places place ↔ OverlapsAt self.now right.now place) }
    {
        overlaps(
            *self.letters.allocator(),
            self.letters.as_slice(),
            right.letters.as_slice(),
        )
    }

    /// The canonical order: length first, and then letter by letter from the left.
    pub fn cmp_degree(&self, other: &Word) -> Ordering
        ensures { result ≡ word_cmp self.now other.now }
    {
        let by_length = self.letters.len().cmp(&other.letters.len());
        by_length.then_with(|| self.letters.as_slice().cmp(&other.letters.as_slice()))
    }
}

impl Duplicate for Word {
    fn duplicate(&self) -> Result<Word, AllocError> {
        self.copy()
    }
}

impl PartialEq for Word {
    ghost eq = { eq_by_cmp word_cmp };

    ghost laws = { partial_equiv_from_equiv (eq_by_cmp_equiv word_cmp_total) };

    fn eq(&self, other: &Word) -> bool {
        self.cmp_degree(other) == Ordering::Equal
    }
}

impl Eq for Word {
    ghost laws = { eq_by_cmp_equiv word_cmp_total };
}

impl Ord for Word {
    ghost cmp = { word_cmp };

    ghost total = { word_cmp_total };

    ghost matches_partial_cmp = { λ _ _. refl };

    ghost matches_eq = { λ _ _. refl };

    fn cmp(&self, other: &Word) -> Ordering {
        self.cmp_degree(other)
    }
}

impl PartialOrd for Word {
    ghost partial_cmp = { as_partial_cmp word_cmp };

    ghost laws = { partial_order_from_agreeing_total word_cmp word_cmp_total (λ _ _. refl) (λ _ _. refl) };

    fn partial_cmp(&self, other: &Word) -> Option<Ordering> {
        Some(self.cmp_degree(other))
    }
}
