//! The tree of the first words.

ghost use Rattle.std.specs.Prelude.{◌≡◌, ℕ, ◌<◌, ◌≤◌, length, get_or, None};
ghost use Rattle.rule_index.specs.Automaton.{IsTree, IsLinked, IsSpelled, HasLetters, words_of};
ghost use Rattle.rule_index.specs.Cuts.{IsKept, IsLinkedFrom, IsCut, earlier as earlier_of};

use crate::chains::{chain_all, chain_letters};
use crate::tree::Tree;

/// Keeps the first `size` nodes, without the places from `count` on.
pub fn cut(tree: &mut Tree, size: usize, count: usize)
    requires tree { IsTree tree.old.nodes.items tree.old.heads.items tree.old.nexts.items tree.old.links.items }
    requires lettered { HasLetters tree.old }
    requires sized { length tree.old.leasts.items ≡ length tree.old.nodes.items }
    requires some { 0 < size }
    requires inside { size ≤ length tree.old.nodes.items }
    ensures { IsCut tree.old tree.new size count }
{
    cut_links(tree, size);
    tree.nodes.truncate(size);
    tree.nexts.truncate(size);
    tree.letter_nexts.truncate(size);
    tree.links.truncate(size);
    tree.leasts.truncate(size);
    chain_all(&tree.nodes, &mut tree.heads, &mut tree.nexts);
    chain_letters(&tree.nodes, &mut tree.letter_heads, &mut tree.letter_nexts);
    keep_earlier(&mut tree.leasts, count);
}

// The first node along the links that is among the first ones.
fn kept(tree: &Tree, from: usize, size: usize) -> usize
    requires spelled { IsSpelled tree.now.nodes.items (words_of tree.now.nodes.items) }
    requires linked { IsLinkedFrom (words_of tree.now.nodes.items) size tree.now.links.items }
    requires sized { length tree.now.links.items ≡ length tree.now.nodes.items }
    requires some { 0 < size }
    requires few { size ≤ length tree.now.nodes.items }
    requires inside { from < length tree.now.nodes.items }
    ensures { IsKept (words_of tree.now.nodes.items) size from result }
{
    let mut at = from;
    while at >= size {
        at = tree.links[at];
    }
    at
}

// Makes the links of the first nodes lead to first nodes.
fn cut_links(tree: &mut Tree, size: usize)
    requires spelled { IsSpelled tree.old.nodes.items (words_of tree.old.nodes.items) }
    requires linked { IsLinked (words_of tree.old.nodes.items) tree.old.links.items }
    requires some { 0 < size }
    requires inside { size ≤ length tree.old.nodes.items }
    ensures nodes { tree.new.nodes.items ≡ tree.old.nodes.items }
    ensures heads { tree.new.heads.items ≡ tree.old.heads.items }
    ensures nexts { tree.new.nexts.items ≡ tree.old.nexts.items }
    ensures letter_heads { tree.new.letter_heads.items ≡ tree.old.letter_heads.items }
    ensures letter_nexts { tree.new.letter_nexts.items ≡ tree.old.letter_nexts.items }
    ensures leasts { tree.new.leasts.items ≡ tree.old.leasts.items }
    ensures len { length tree.new.links.items ≡ length tree.old.links.items }
    ensures links { (k : ℕ) → k < size → IsKept (words_of tree.old.nodes.items) size (get_or tree.old.links.items k 0) (get_or tree.new.links.items k 0) }
{
    for node in 0..size {
        let link = kept(tree, tree.links[node], size);
        tree.links[node] = link;
    }
}

// The place, if it is below the number.
fn earlier(place: Option<usize>, count: usize) -> Option<usize>
    ensures { result ≡ earlier_of count place }
{
    match place {
        Some(found) if found < count => Some(found),
        _ => None,
    }
}

// Keeps the places below the number.
fn keep_earlier(leasts: &mut [Option<usize>], count: usize)
    ensures { (k : ℕ) → k < length leasts.old → get_or leasts.new k None ≡ earlier_of count (get_or leasts.old k None) }
{
    for node in 0..leasts.len() {
        leasts[node] = earlier(leasts[node], count);
    }
}
