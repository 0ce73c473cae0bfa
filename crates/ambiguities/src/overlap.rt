//! The overlap word of an ambiguity.

ghost use Rattle.std.specs.Prelude.{◌≡◌, ◌≤◌, ◌++◌, length, take, IfOk, OnOk};
ghost use Rattle.word_core.specs.Letters.{IsOver};
ghost use Rattle.ambiguities.specs.Ambiguities.{IsAmbiguity, overlap_word_of};

use crate::{Ambiguity, Kind};
use rule_reduce::{Rule, Rules, rule_with};
use std::alloc::{AllocError, Global};
use word_core::Word;
use word_orders::WordOrder;

/// The word in which both leading words occur: of an overlap the letters of the first word before the place and then the
/// second word, of an inclusion the first word. The ambiguity is one of the rules.
pub fn overlap_word<O: WordOrder>(rules: &Rules<O>, which: &Ambiguity) -> Result<Word, AllocError>
    requires { IsAmbiguity rules.now.rules which.now }
    ensures exact { IfOk result (λ w. w ≡ overlap_word_of rules.now.rules which.now) }
    ensures over { IfOk result (IsOver (O.letters rules.now.order)) }
{
    make_word(rules.rules.allocator(), rules.rules.as_slice(), which)
}

// The same word. Room for all its letters is made at once.
pub(crate) fn make_word(
    alloc: Global,
    rules: &[Rule],
    which: &Ambiguity,
) -> Result<Word, AllocError>
    requires { IsAmbiguity rules.now which.now }
    ensures { IfOk result (λ w. w ≡ overlap_word_of rules.now which.now) }
{
    let first = rule_with(rules, which.i);
    match which.kind {
        Kind::Overlap => {
            let second = &rule_with(rules, which.j).lead;
            let place = which.place as usize;
            let mut word = Word::with_room(alloc, place.saturating_add(second.len()))?;
            push_first(&mut word, &first.lead, place)?;
            push_first(&mut word, second, second.len())?;
            Ok(word)
        }
        Kind::Inclusion => first.lead.copy(),
    }
}

// Appends the first `count` letters of another word.
fn push_first(word: &mut Word, other: &Word, count: usize) -> Result<(), AllocError>
    requires { count ≤ length other.now }
    ensures { OnOk result (word.new ≡ word.old ++ take count other.now) }
{
    for place in 0..count {
        word.push(other.letter(place))?;
    }
    Ok(())
}
