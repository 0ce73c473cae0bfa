//! The index of many words: its nodes, the time of look-ups, and the same answers as a search of the list.

ghost use Rattle.std.specs.Prelude.{◌≡◌, ◌<◌, ◌++◌, [], ◌∷◌, length};
ghost use Rattle.std.specs.List.{All};

use crate::comparing::equal;
use lists::Listing;
use rand_core::utils::NextWord;
use rand_pcg::Lcg64Xsh32;
use rule_index::Index;
use std::alloc::Global;
use std::process::Abort;
use word_core::{Letter, Word};

// Inserts a word under a number above all others.
fn insert(rt: &impl Abort, index: &mut Index, word: &Word, number: u32)
    requires above { All (λ e. e.1 < number) index.old }
    requires nonempty { 0 < length word.now }
    ensures { index.new ≡ index.old ++ (word.now, number) ∷ [] }
{
    index.insert(word, number).expect(rt, "memory");
}

// The word of so many letters 0 and two more letters.
fn zeros(rt: &impl Abort, alloc: Global, count: usize, x: u16, y: u16) -> Word
    ensures { 0 < length result }
{
    let mut word = Word::new(alloc);
    for _ in 0..count {
        word.push(Letter(0)).expect(rt, "memory");
    }
    word.push(Letter(x)).expect(rt, "memory");
    word.push(Letter(y)).expect(rt, "memory");
    word
}

// Each word of 248 letters 0 and two letters from 1 to 40.
fn words_with_one_beginning(rt: &impl Abort, alloc: Global) -> Index {
    let mut index = Index::new(alloc).expect(rt, "memory");
    for number in 0..1600u32 {
        let x = (number / 40 + 1) as u16;
        let y = (number % 40 + 1) as u16;
        insert(rt, &mut index, &zeros(rt, alloc, 248, x, y), number + 1);
    }
    index
}

// Looks the word up so many times.
fn look_up(rt: &impl Abort, index: &Index, word: &Word, times: u32, want: Option<(u32, usize)>) {
    for _ in 0..times {
        equal(rt, &index.first_match(word), &want, "a look-up");
    }
}

#[test]
fn many_words_with_one_beginning(rt: HostRuntime) {
    let mut index = words_with_one_beginning(&rt, rt.alloc());
    equal(&rt, &index.nodes(), &1889, "words with one beginning");
    let none = zeros(&rt, rt.alloc(), 498, 0, 0);
    look_up(&rt, &index, &none, 100_000, None);
    let last = zeros(&rt, rt.alloc(), 498, 40, 40);
    look_up(&rt, &index, &last, 1, Some((1600, 250)));
    index.truncate(1);
    equal(&rt, &index.nodes(), &251, "one word");
}

// A word of 1 to 8 letters from 0 to 3.
fn random(rt: &impl Abort, alloc: Global, stream: &mut Lcg64Xsh32) -> Word
    ensures { 0 < length result }
{
    let mut word = Word::new(alloc);
    let more = stream.next_word() % 8;
    let first = Letter((stream.next_word() % 4) as u16);
    word.push(first).expect(rt, "memory");
    for _ in 0..more {
        let letter = Letter((stream.next_word() % 4) as u16);
        word.push(letter).expect(rt, "memory");
    }
    word
}

// The first word of the list that occurs.
fn listed(words: &Listing<(Word, u32)>, text: &Word) -> Option<(u32, usize)> {
    for entry in words.as_slice() {
        if let Some(place) = text.first_place(&entry.0) {
            return Some((entry.1, place));
        }
    }
    None
}

fn compare(rt: &impl Abort, index: &Index, words: &Listing<(Word, u32)>, text: &Word) {
    equal(rt, &index.first_match(text), &listed(words, text), "a word");
}

// How many words are kept before one more: of each fifty the last comes when half of them are taken away.
fn kept_before(number: u32, halved: bool) -> usize {
    if halved && number % 50 == 49 {
        number as usize / 2
    } else {
        usize::MAX
    }
}

// Compares after each of 2000 words, some of which are taken away again.
fn compare_all(rt: &impl Abort, alloc: Global, halved: bool) {
    let mut index = Index::new(alloc).expect(rt, "memory");
    let mut words = Listing::new(alloc);
    let mut stream = Lcg64Xsh32::new(1, 1);
    for number in 0..2000u32 {
        let kept = kept_before(number, halved);
        index.truncate(kept);
        words.truncate(kept);
        let word = random(rt, alloc, &mut stream);
        insert(rt, &mut index, &word, number);
        words.push((word, number)).expect(rt, "memory");
        compare(rt, &index, &words, &random(rt, alloc, &mut stream));
    }
}

#[test]
fn the_same_as_a_search_of_the_list(rt: HostRuntime) {
    compare_all(&rt, rt.alloc(), false);
    compare_all(&rt, rt.alloc(), true);
}
