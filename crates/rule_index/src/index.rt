//! Numbered words, which contracts see as a list.

ghost use Rattle.std.specs.Prelude.{◌≡◌, ◌<◌, [], ◌∷◌, ◌++◌, length, take, IfOk, IfSome, IfNone, OnOk, OnErr};
ghost use Rattle.std.specs.List.{All};
ghost use Rattle.rule_index.specs.Matches.{IsAscending, IsLeastMatch, HasNoMatch, match_of, match_or, place_in};
ghost use Rattle.rule_index.specs.Prefixes.{IsPrefixCount};
ghost use Rattle.rule_index.specs.Automaton.{IsTree, IsMarked, HasLetters, words_of};
ghost use Rattle.rule_index.specs.Cuts.{IsCounted};

use crate::cutting::cut;
use crate::insertion::{insert, starts};
use crate::tree::{Tree, first_in, new_tree, put, reserve};
use lists::Listing;
use std::alloc::{AllocError, Global};
use std::marker::Model;
use word_core::Word;

/// Words with numbers, which contracts see as a list of pairs with ascending numbers.
#[derive(Drop)]
pub struct Index {
    entries: Listing<(Word, u32)>,
    tree: Tree,
    sizes: Vec<usize>,
    ghost ascending: { IsAscending entries },
    ghost grown: { IsTree tree.nodes.items tree.heads.items tree.nexts.items tree.links.items },
    ghost marked: { IsMarked entries (words_of tree.nodes.items) tree.leasts.items },
    ghost lettered: { HasLetters tree },
    ghost counted: { IsCounted entries (words_of tree.nodes.items) sizes.items },
}

impl Model for Index {
    ghost use Rattle.std.specs.Prelude.{List, ℕ};

    ghost Value = { List (List ℕ × ℕ) };

    ghost view = { λ i. i.entries };
}

impl Index {
    /// The empty index.
    pub fn new(alloc: Global) -> Result<Index, AllocError>
        ensures { IfOk result (λ i. i ≡ []) }
    {
        let mut sizes = Vec::new(alloc);
        sizes.push(1)?;
        Ok(Index {
            entries: Listing::new(alloc),
            tree: new_tree(alloc)?,
            sizes,
        })
    }

    /// Adds a word, under a number above all others; where memory is short, the index is unchanged.
    pub fn insert(&mut self, word: &Word, number: u32) -> Result<(), AllocError>
        requires above { All (λ e. e.1 < number) self.old }
        requires nonempty { 0 < length word.now }
        ensures ok { OnOk result (self.new ≡ self.old ++ (word.now, number) ∷ []) }
        ensures err { OnErr result (self.new ≡ self.old) }
    {
        let copy = word.copy()?;
        reserve(&mut self.tree, word.len())?;
        self.sizes.reserve(1)?;
        let alloc = self.entries.allocator();
        let first = word.letter(0).0;
        let ends = starts(alloc, &self.tree, first)?;
        let place = self.entries.len();
        self.entries.push((copy, number))?;
        insert(&mut self.tree, word, place, ends);
        put(&mut self.sizes, self.tree.nodes.len());
        Ok(())
    }

    /// Keeps the first `count` words. It takes no memory.
    pub fn truncate(&mut self, count: usize)
        ensures { self.new ≡ take count self.old }
    {
        let count = count.min(self.entries.len());
        cut(&mut self.tree, self.sizes[count], count);
        self.entries.truncate(count);
        self.sizes.truncate(count + 1);
    }

    /// The least number whose word occurs in the word, with the leftmost place at which it does, counted from 0.
    /// `None` is returned exactly where none of the words occurs. It takes no memory.
    pub fn first_match(&self, word: &Word) -> Option<(u32, usize)>
        ensures exact { result ≡ match_of self.now word.now }
        ensures least { IfSome result (λ m. IsLeastMatch self.now word.now m.0 m.1) }
        ensures absent { IfNone result (HasNoMatch self.now word.now) }
    {
        search(&self.entries, &self.tree, word)
    }

    /// The number of distinct prefixes of the words, the empty one included.
    pub fn nodes(&self) -> usize
        ensures { IsPrefixCount self.now result }
    {
        self.tree.nodes.len()
    }
}

// The first entry whose word occurs in the word.
fn search(entries: &Listing<(Word, u32)>, tree: &Tree, word: &Word) -> Option<(u32, usize)>
    requires tree { IsTree tree.now.nodes.items tree.now.heads.items tree.now.nexts.items tree.now.links.items }
    requires marked { IsMarked entries.now (words_of tree.now.nodes.items) tree.now.leasts.items }
    ensures { result ≡ match_of entries.now word.now }
{
    match first_in(tree, word) {
        None => None,
        Some(found) => match_with(entries.at(found), word),
    }
}

// The number of the entry, with the leftmost place at which its word occurs.
fn match_with(entry: &(Word, u32), word: &Word) -> Option<(u32, usize)>
    ensures { result ≡ match_or entry.now.1 (place_in word.now entry.now.0) None }
{
    match first_place(word, &entry.0) {
        Some(place) => Some((entry.1, place)),
        None => None,
    }
}

// The leftmost place at which the other word occurs.
fn first_place(word: &Word, sub: &Word) -> Option<usize>
    ensures { result ≡ place_in word.now sub.now }
{
    word.first_place(sub)
}
