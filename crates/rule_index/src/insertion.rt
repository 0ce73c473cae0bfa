//! The insertion of a word into the tree.

ghost use Rattle.std.specs.Prelude.{IsTrue, ◌↔◌, ◌≡◌, ℕ, [], ◌∷◌, ◌++◌, ◌+◌, ◌<◌, length, drop, get_or, slice_index, slice_set, None, IfOk};
ghost use Rattle.rule_index.specs.Prefixes.{word_at};
ghost use Rattle.rule_index.specs.Automaton.{IsChained, IsChild, IsSpelled, IsTree, IsLongest, words_of, marked, relinked, added_node};
ghost use Rattle.rule_index.specs.Automaton.{node_at, HasLetters, Lists, IsAdvanced, IsRelinked, HasRoom, IsEnds, IsGrown, IsGrowing};
ghost use Rattle.rule_index.specs.Automaton.{IsMarkedAt, IsInserted, IsStarts};

use crate::chains::{chain_letter, chain_one, child, last_by_letter};
use crate::tree::{Node, Tree, put, step};
use std::alloc::{AllocError, Global};
use word_core::Word;

/// The nodes by this letter whose parent isn't the root.
pub fn starts(alloc: Global, tree: &Tree, letter: u16) -> Result<Vec<usize>, AllocError>
    requires tree { IsTree tree.now.nodes.items tree.now.heads.items tree.now.nexts.items tree.now.links.items }
    requires lettered { HasLetters tree.now }
    ensures { IfOk result (λ v. IsStarts tree.now.nodes.items (length tree.now.nodes.items) letter v.items) }
{
    let mut starts = Vec::new(alloc);
    let mut node = last_by_letter(&tree.letter_heads, letter);
    while node != 0 {
        if is_start(tree.nodes[node], letter) {
            starts.push(node)?;
        }
        node = tree.letter_nexts[node];
    }
    Ok(starts)
}

// Whether the node has this letter, and not the root as its parent.
fn is_start(node: Node, letter: u16) -> bool
    ensures { IsTrue result ↔ ((0 < node.parent) × (node.letter ≡ letter)) }
{
    node.letter == letter && node.parent != 0
}

// The children of some nodes by this letter.
fn advance(nodes: &[Node], heads: &[usize], nexts: &[usize], ends: &mut Vec<usize>, letter: u16)
    requires chained { IsChained nodes.now (length nodes.now) heads.now nexts.now }
    requires spelled { IsSpelled nodes.now (words_of nodes.now) }
    requires inside { (k : ℕ) → Lists ends.old.items k → k < length nodes.now }
    ensures { IsAdvanced nodes.now letter ends.old.items ends.new.items }
{
    let mut kept = 0;
    for place in 0..ends.len() {
        if let Some(node) = child(nodes, heads, nexts, ends[place], letter) {
            ends[kept] = node;
            kept += 1;
        }
    }
    ends.truncate(kept);
}

// The node of the longest proper suffix of the node's prefix with the letter after it.
fn link_of(tree: &Tree, at: usize, letter: u16) -> usize
    requires tree { IsTree tree.now.nodes.items tree.now.heads.items tree.now.nexts.items tree.now.links.items }
    requires inside { at < length tree.now.nodes.items }
    ensures { IsLongest tree.now.nodes.items (drop 1 (word_at (words_of tree.now.nodes.items) at ++ letter ∷ [])) result }
{
    if at == 0 {
        return 0;
    }
    step(
        &tree.nodes,
        &tree.heads,
        &tree.nexts,
        &tree.links,
        tree.links[at],
        letter,
    )
}

// Adds a new child of the node.
fn add(tree: &mut Tree, at: usize, letter: u16, link: usize)
    requires tree { IsTree tree.old.nodes.items tree.old.heads.items tree.old.nexts.items tree.old.links.items }
    requires lettered { HasLetters tree.old }
    requires inside { at < length tree.old.nodes.items }
    requires link_in { link < length tree.old.leasts.items }
    requires room { HasRoom tree.old 1 }
    ensures nodes { tree.new.nodes.items ≡ tree.old.nodes.items ++ added_node tree.old.nodes.items at letter ∷ [] }
    ensures chained { IsChained tree.new.nodes.items (length tree.new.nodes.items) tree.new.heads.items tree.new.nexts.items }
    ensures lettered { HasLetters tree.new }
    ensures links { tree.new.links.items ≡ tree.old.links.items ++ link ∷ [] }
    ensures leasts { tree.new.leasts.items ≡ tree.old.leasts.items ++ get_or tree.old.leasts.items link None ∷ [] }
    ensures room { (count : ℕ) → HasRoom tree.old (count + 1) → HasRoom tree.new count }
{
    let node = tree.nodes.len();
    let depth = tree.nodes[at].depth + 1;
    let least = tree.leasts[link];
    put(
        &mut tree.nodes,
        Node {
            parent: at,
            letter,
            depth,
        },
    );
    put(&mut tree.nexts, 0);
    put(&mut tree.letter_nexts, 0);
    put(&mut tree.links, link);
    put(&mut tree.leasts, least);
    chain_one(&tree.nodes, &mut tree.heads, &mut tree.nexts, node);
    chain_letter(
        &tree.nodes,
        &mut tree.letter_heads,
        &mut tree.letter_nexts,
        node,
    );
}

// Makes the node the link of this one, if its link is less deep.
fn relink_one(nodes: &[Node], links: &mut [usize], end: usize, node: usize)
    requires end_in { end < length links.old }
    requires link_in { get_or links.old end 0 < length nodes.now }
    requires inside { node < length nodes.now }
    ensures { links.new ≡ slice_set links.old end (relinked nodes.now node (get_or links.old end 0)) }
{
    if nodes[links[end]].depth < nodes[node].depth {
        links[end] = node;
    }
}

// Makes the node the link of those whose link is less deep.
fn relink(nodes: &[Node], links: &mut [usize], ends: &[usize], node: usize)
    requires inside { node < length nodes.now }
    requires links { (k : ℕ) → get_or links.old k 0 < length nodes.now }
    requires ends { (k : ℕ) → Lists ends.now k → k < length links.old }
    ensures { (k : ℕ) → k < length links.old → IsRelinked nodes.now ends.now (length ends.now) node (get_or links.old k 0) (get_or links.new k 0) k }
{
    for end in ends {
        relink_one(nodes, links, *end, node);
    }
}

// Adds a new child by this letter, and updates all links.
fn grow_new(tree: &mut Tree, at: usize, letter: u16, ends: &[usize]) -> usize
    requires tree { IsTree tree.old.nodes.items tree.old.heads.items tree.old.nexts.items tree.old.links.items }
    requires lettered { HasLetters tree.old }
    requires inside { at < length tree.old.nodes.items }
    requires absent { (k : ℕ) → IsChild tree.old.nodes.items at letter k → ⊥ }
    requires sized { length tree.old.leasts.items ≡ length tree.old.nodes.items }
    requires room { HasRoom tree.old 1 }
    requires ends { IsEnds (words_of tree.old.nodes.items) (word_at (words_of tree.old.nodes.items) at ++ letter ∷ []) ends.now }
    ensures { IsGrown tree.old tree.new (word_at (words_of tree.old.nodes.items) at ++ letter ∷ []) ends.now result }
{
    let node = tree.nodes.len();
    let link = link_of(tree, at, letter);
    add(tree, at, letter, link);
    relink(&tree.nodes, &mut tree.links, ends, node);
    node
}

// The child by this letter, which is made where there is none.
fn grow(tree: &mut Tree, at: usize, letter: u16, ends: &[usize]) -> usize
    requires tree { IsTree tree.old.nodes.items tree.old.heads.items tree.old.nexts.items tree.old.links.items }
    requires lettered { HasLetters tree.old }
    requires inside { at < length tree.old.nodes.items }
    requires sized { length tree.old.leasts.items ≡ length tree.old.nodes.items }
    requires room { HasRoom tree.old 1 }
    requires ends { IsEnds (words_of tree.old.nodes.items) (word_at (words_of tree.old.nodes.items) at ++ letter ∷ []) ends.now }
    ensures { IsGrown tree.old tree.new (word_at (words_of tree.old.nodes.items) at ++ letter ∷ []) ends.now result }
{
    if let Some(node) = child(&tree.nodes, &tree.heads, &tree.nexts, at, letter) {
        return node;
    }
    grow_new(tree, at, letter, ends)
}

// Marks that the word at this place ends here, unless an earlier one does.
fn mark(leasts: &mut [Option<usize>], node: usize, place: usize)
    requires { node < length leasts.old }
    ensures { leasts.new ≡ slice_set leasts.old node (marked (get_or leasts.old node None) place) }
{
    if leasts[node].is_none() {
        leasts[node] = Some(place);
    }
}

// Marks that the word at this place ends these nodes, unless an earlier one does.
fn mark_all(leasts: &mut [Option<usize>], ends: &[usize], place: usize)
    requires { (k : ℕ) → Lists ends.now k → k < length leasts.old }
    ensures { (k : ℕ) → k < length leasts.old → IsMarkedAt ends.now (length ends.now) place (get_or leasts.old k None) (get_or leasts.new k None) k }
{
    for end in ends {
        mark(leasts, *end, place);
    }
}

// The node of the word, with all its prefixes made.
fn grow_all(tree: &mut Tree, word: &Word, ends: &mut Vec<usize>) -> usize
    requires tree { IsTree tree.old.nodes.items tree.old.heads.items tree.old.nexts.items tree.old.links.items }
    requires lettered { HasLetters tree.old }
    requires sized { length tree.old.leasts.items ≡ length tree.old.nodes.items }
    requires room { HasRoom tree.old (length word.now) }
    requires nonempty { 0 < length word.now }
    requires starts { IsStarts tree.old.nodes.items (length tree.old.nodes.items) (slice_index word.now 0) ends.old.items }
    ensures { IsGrowing tree.old tree.new word.now (length word.now) result ends.new.items }
{
    let mut at = grow(tree, 0, word.letter(0).0, ends);
    for index in 1..word.len() {
        let letter = word.letter(index).0;
        advance(&tree.nodes, &tree.heads, &tree.nexts, ends, letter);
        at = grow(tree, at, letter, ends);
    }
    at
}

/// Inserts the word at this place of the list.
pub fn insert(tree: &mut Tree, word: &Word, place: usize, ends: Vec<usize>)
    requires tree { IsTree tree.old.nodes.items tree.old.heads.items tree.old.nexts.items tree.old.links.items }
    requires lettered { HasLetters tree.old }
    requires sized { length tree.old.leasts.items ≡ length tree.old.nodes.items }
    requires room { HasRoom tree.old (length word.now) }
    requires nonempty { 0 < length word.now }
    requires starts { IsStarts tree.old.nodes.items (length tree.old.nodes.items) (slice_index word.now 0) ends.items }
    ensures { IsInserted tree.old tree.new word.now place }
{
    let mut ends = ends;
    let at = grow_all(tree, word, &mut ends);
    mark(&mut tree.leasts, at, place);
    mark_all(&mut tree.leasts, &ends, place);
}
