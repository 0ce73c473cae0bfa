//! The prefixes of the words as nodes, and the walk along them.

ghost use Rattle.std.specs.Prelude.{List, ◌≡◌, ℕ, [], ◌∷◌, ◌++◌, ◌+◌, ◌<◌, ◌≤◌, length, IfOk, OnOk, vec_len};
ghost use Rattle.std.specs.Vec.{vec_capacity};
ghost use Rattle.rule_index.specs.Prefixes.{word_at};
ghost use Rattle.rule_index.specs.Automaton.{IsTree, IsLongest, IsMarked, words_of, first_of, occurs, sooner as sooner_of, marked, HasRoom, IsSame, IsNewTree};

use crate::chains::{buckets, chain_all, child, empty_buckets};
use std::alloc::{AllocError, Global};
use word_core::Word;

// More than a statement has letters, so that each has a bucket of its own there.
const LETTER_BUCKETS: usize = 4096;

/// A prefix of the words: that of the parent with one more letter.
#[derive(Clone, Copy)]
pub struct Node {
    /// The node of the prefix without its last letter.
    pub parent: usize,
    /// The last letter.
    pub letter: u16,
    /// The number of letters.
    pub depth: usize,
}

/// The prefixes of some words as nodes. Node 0 is the empty one.
#[derive(Drop)]
pub struct Tree {
    pub nodes: Vec<Node>,
    /// Of each bucket its last node, or 0 where there is none. A node is in the bucket of its parent and letter.
    pub heads: Vec<usize>,
    /// Of each node the one before it in its bucket, or 0 where there is none.
    pub nexts: Vec<usize>,
    /// Of each bucket of letters its last node, or 0 where there is none.
    pub letter_heads: Vec<usize>,
    /// Of each node the one before it in the bucket of its letter, or 0 where there is none.
    pub letter_nexts: Vec<usize>,
    /// Of each node that of its longest proper suffix that is a prefix too.
    pub links: Vec<usize>,
    /// Of each node the place of the first word that it ends with.
    pub leasts: Vec<Option<usize>>,
}

/// The node of the longest suffix of the node's prefix with the letter after it.
pub fn step(
    nodes: &[Node],
    heads: &[usize],
    nexts: &[usize],
    links: &[usize],
    from: usize,
    letter: u16,
) -> usize
    requires tree { IsTree nodes.now heads.now nexts.now links.now }
    requires inside { from < length nodes.now }
    ensures { IsLongest nodes.now (word_at (words_of nodes.now) from ++ letter ∷ []) result }
{
    let mut at = from;
    'up: loop {
        if let Some(node) = child(nodes, heads, nexts, at, letter) {
            return node;
        }
        if at == 0 {
            return 0;
        }
        at = links[at];
    }
}

// The lesser of two places.
fn sooner(left: Option<usize>, right: Option<usize>) -> Option<usize>
    ensures { result ≡ sooner_of left right }
{
    match (left, right) {
        (Some(x), Some(y)) => Some(x.min(y)),
        (Some(x), None) => Some(x),
        (None, other) => other,
    }
}

/// The place of the first word that occurs in this one.
pub fn first_in(tree: &Tree, word: &Word) -> Option<usize>
    requires tree { IsTree tree.now.nodes.items tree.now.heads.items tree.now.nexts.items tree.now.links.items }
    requires marked { length tree.now.leasts.items ≡ length tree.now.nodes.items }
    ensures { (entries : List (List ℕ × ℕ))
        → IsMarked entries (words_of tree.now.nodes.items) tree.now.leasts.items
        → result ≡ first_of (occurs word.now) entries }
{
    let mut at = 0;
    let mut found = tree.leasts[0];
    for place in 0..word.len() {
        let letter = word.letter(place).0;
        at = step(
            &tree.nodes,
            &tree.heads,
            &tree.nexts,
            &tree.links,
            at,
            letter,
        );
        found = sooner(found, tree.leasts[at]);
    }
    found
}

/// Appends an item, for which there is room.
pub fn put<T: Drop>(items: &mut Vec<T>, value: T)
    requires { vec_len items.old < vec_capacity items.old }
    ensures items { items.new.items ≡ items.old.items ++ value ∷ [] }
    ensures len { vec_len items.new ≡ vec_len items.old + 1 }
    ensures capacity { vec_capacity items.old ≤ vec_capacity items.new }
{
    let _ = items.push(value);
}

/// The tree with only the empty prefix.
pub fn new_tree(alloc: Global) -> Result<Tree, AllocError>
    ensures { IfOk result IsNewTree }
{
    let mut nodes = Vec::new(alloc);
    nodes.push(Node {
        parent: 0,
        letter: 0,
        depth: 0,
    })?;
    let mut heads = Vec::new(alloc);
    heads.push(0)?;
    let mut nexts = Vec::new(alloc);
    nexts.push(0)?;
    let mut letter_nexts = Vec::new(alloc);
    letter_nexts.push(0)?;
    let mut links = Vec::new(alloc);
    links.push(0)?;
    let mut leasts = Vec::new(alloc);
    leasts.push(None)?;
    Ok(Tree {
        nodes,
        heads,
        nexts,
        letter_heads: empty_buckets(alloc, LETTER_BUCKETS)?,
        letter_nexts,
        links,
        leasts,
    })
}

/// Makes room for `count` more nodes, and a bucket for each.
pub fn reserve(tree: &mut Tree, count: usize) -> Result<(), AllocError>
    requires tree { IsTree tree.old.nodes.items tree.old.heads.items tree.old.nexts.items tree.old.links.items }
    ensures tree { IsTree tree.new.nodes.items tree.new.heads.items tree.new.nexts.items tree.new.links.items }
    ensures same { IsSame tree.new tree.old }
    ensures room { OnOk result (HasRoom tree.new count) }
{
    tree.nodes.reserve(count)?;
    tree.nexts.reserve(count)?;
    tree.letter_nexts.reserve(count)?;
    tree.links.reserve(count)?;
    tree.leasts.reserve(count)?;
    let nodes = tree.nodes.len().saturating_add(count);
    if tree.heads.len() < nodes {
        tree.heads = buckets(*tree.nodes.allocator(), nodes)?;
        chain_all(&tree.nodes, &mut tree.heads, &mut tree.nexts);
    }
    Ok(())
}
