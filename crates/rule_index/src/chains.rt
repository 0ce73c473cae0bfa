//! The nodes in buckets: by their parents and letters, and by their letters alone.

ghost use Rattle.std.specs.Prelude.{◌≡◌, ℕ, ◌<◌, ◌≤◌, ◌+◌, length, get_or, slice_set, IfOk, IfSome, IfNone};
ghost use Rattle.rule_index.specs.Automaton.{IsChained, IsLettered, IsChild, bucket_of, letter_bucket_of};

use crate::tree::Node;
use std::alloc::{AllocError, Global};

// Of `count` buckets, that of the children by a letter.
fn bucket(count: usize, parent: usize, letter: u16) -> usize
    requires { 0 < count }
    ensures is { result ≡ bucket_of count parent letter }
    ensures inside { result < count }
{
    let spread = letter as usize * 40503;
    parent.wrapping_add(spread) & (count - 1)
}

/// The child by this letter.
pub fn child(
    nodes: &[Node],
    heads: &[usize],
    nexts: &[usize],
    at: usize,
    letter: u16,
) -> Option<usize>
    requires { IsChained nodes.now (length nodes.now) heads.now nexts.now }
    ensures found { IfSome result (λ k. IsChild nodes.now at letter k) }
    ensures absent { IfNone result ((k : ℕ) → IsChild nodes.now at letter k → ⊥) }
{
    let mut node = heads[bucket(heads.len(), at, letter)];
    while node != 0 {
        let here = nodes[node];
        if here.parent == at && here.letter == letter {
            return Some(node);
        }
        node = nexts[node];
    }
    None
}

/// At least this many buckets: a power of 2.
pub fn buckets(alloc: Global, least: usize) -> Result<Vec<usize>, AllocError>
    requires { 0 < least }
    ensures { IfOk result (λ v. 0 < length v.items) }
{
    match least.checked_next_power_of_two() {
        Some(count) => empty_buckets(alloc, count),
        None => Err(AllocError),
    }
}

/// `count` empty buckets.
pub fn empty_buckets(alloc: Global, count: usize) -> Result<Vec<usize>, AllocError>
    ensures len { IfOk result (λ v. length v.items ≡ count) }
    ensures none { IfOk result (λ v. (b : ℕ) → get_or v.items b 0 ≡ 0) }
{
    Ok(vec![in alloc; 0; count]?)
}

/// Puts the node at the end of its bucket.
pub fn chain_one(nodes: &[Node], heads: &mut [usize], nexts: &mut [usize], node: usize)
    requires chained { IsChained nodes.now node heads.old nexts.old }
    requires inside { node < length nodes.now }
    ensures { IsChained nodes.now (node + 1) heads.new nexts.new }
{
    let here = nodes[node];
    let bucket = bucket(heads.len(), here.parent, here.letter);
    put_last(heads, nexts, bucket, node);
}

/// Puts all nodes into their buckets.
pub fn chain_all(nodes: &[Node], heads: &mut [usize], nexts: &mut [usize])
    requires some { 0 < length nodes.now }
    requires wide { 0 < length heads.old }
    requires sized { length nexts.old ≡ length nodes.now }
    ensures { IsChained nodes.now (length nodes.now) heads.new nexts.new }
{
    clear(heads);
    for node in 1..nodes.len() {
        chain_one(nodes, heads, nexts, node);
    }
}

/// Puts the node at the end of the bucket of its letter.
pub fn chain_letter(nodes: &[Node], heads: &mut [usize], nexts: &mut [usize], node: usize)
    requires lettered { IsLettered nodes.now node heads.old nexts.old }
    requires inside { node < length nodes.now }
    ensures { IsLettered nodes.now (node + 1) heads.new nexts.new }
{
    let bucket = letter_bucket(heads.len(), nodes[node].letter);
    put_last(heads, nexts, bucket, node);
}

/// Puts all nodes into the buckets of their letters.
pub fn chain_letters(nodes: &[Node], heads: &mut [usize], nexts: &mut [usize])
    requires some { 0 < length nodes.now }
    requires wide { 0 < length heads.old }
    requires sized { length nexts.old ≡ length nodes.now }
    ensures { IsLettered nodes.now (length nodes.now) heads.new nexts.new }
{
    clear(heads);
    for node in 1..nodes.len() {
        chain_letter(nodes, heads, nexts, node);
    }
}

/// The last node in the bucket of the letter, or 0 where there is none.
pub fn last_by_letter(heads: &[usize], letter: u16) -> usize
    requires { 0 < length heads.now }
    ensures { result ≡ get_or heads.now (letter_bucket_of (length heads.now) letter) 0 }
{
    heads[letter_bucket(heads.len(), letter)]
}

// Of `count` buckets, that of the letter.
fn letter_bucket(count: usize, letter: u16) -> usize
    requires { 0 < count }
    ensures is { result ≡ letter_bucket_of count letter }
    ensures inside { result < count }
{
    letter as usize % count
}

// Puts the node at the end of the bucket.
fn put_last(heads: &mut [usize], nexts: &mut [usize], bucket: usize, node: usize)
    requires bucket_in { bucket < length heads.old }
    requires node_in { node < length nexts.old }
    ensures heads { heads.new ≡ slice_set heads.old bucket node }
    ensures nexts { nexts.new ≡ slice_set nexts.old node (get_or heads.old bucket 0) }
{
    nexts[node] = heads[bucket];
    heads[bucket] = node;
}

// Empties all buckets.
fn clear(heads: &mut [usize])
    ensures len { length heads.new ≡ length heads.old }
    ensures none { (b : ℕ) → get_or heads.new b 0 ≡ 0 }
{
    for bucket in 0..heads.len() {
        heads[bucket] = 0;
    }
}
