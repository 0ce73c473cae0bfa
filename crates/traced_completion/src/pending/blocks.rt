//! The blocks of the store: how they are cut, and how ambiguities are inserted.
ghost use Rattle.std.specs.Prelude.{◌≡◌, ◌+◌, ◌<◌, ◌≤◌, suc, [], ◌∷◌, ◌++◌, length, take, drop, IfOk, OnOk, OnErr, slice_index_or, slice_get, Some};
ghost use Rattle.std.specs.List.{All, AllPairs};
ghost use Rattle.std.specs.List.Sorted.{IsPermutation};
ghost use Rattle.traced_completion.specs.Blocks.{IsUpTo};
ghost use Rattle.word_core.specs.Letters.{IsOver};
ghost use Rattle.traced_completion.specs.Blocks.{IsPut, IsFilled, restored, joined};

use super::block::Block;
use super::finding::{block_for, first_above};
use ambiguities::Waiting;
use std::alloc::AllocError;
use word_orders::WordOrder;

// Inserts an ambiguity at its place in the blocks from a number on. The search begins at the near block. The
// result is its block's number and its place. Where memory is short, the blocks are unchanged.
fn put<O: WordOrder>(
    order: &O,
    blocks: &mut Vec<Block>,
    from: usize,
    near: usize,
    waiting: Waiting,
) -> Result<(usize, usize), AllocError>
    requires some { from < length blocks.old.items }
    requires nonempty { All (λ b. 0 < length b) blocks.old.items }
    requires over { All (All (λ w. IsOver (O.letters order.now) w.word)) blocks.old.items }
    requires waiting_over { IsOver (O.letters order.now) waiting.word }
    ensures ok { IfOk result (IsPut (O.compare order.now) from waiting blocks.old.items blocks.new.items) }
    ensures err { OnErr result (blocks.new.items ≡ blocks.old.items) }
{
    let number = block_for(order, blocks.as_slice(), from, near, &waiting);
    let place = first_above(order, blocks[number].as_slice(), &waiting);
    blocks[number].insert(place, waiting)?;
    Ok((number, place))
}

// Removes what was inserted at these places, the last one first.
fn take_out(blocks: &mut Vec<Block>, mut places: Vec<(usize, usize)>)
    ensures { blocks.new.items ≡ restored places.items blocks.old.items }
{
    while let Some((number, place)) = places.pop() {
        if number < blocks.len() {
            blocks[number].remove(place);
        }
    }
}

// Inserts ambiguities at their places in the blocks from a number on. Where memory is short, the blocks are unchanged.
fn put_all<O: WordOrder>(
    order: &O,
    blocks: &mut Vec<Block>,
    from: usize,
    items: Vec<Waiting>,
) -> Result<(), AllocError>
    requires some { from < length blocks.old.items }
    requires nonempty { All (λ b. 0 < length b) blocks.old.items }
    requires over { All (All (λ w. IsOver (O.letters order.now) w.word)) blocks.old.items }
    requires items_over { All (λ w. IsOver (O.letters order.now) w.word) items.items }
    ensures ok { OnOk result (IsFilled (O.letters order.now) (O.compare order.now) from items.items blocks.old.items blocks.new.items) }
    ensures err { OnErr result (blocks.new.items ≡ blocks.old.items) }
{
    let mut places = Vec::with_capacity(*items.allocator(), items.len())?;
    let mut near = from;
    for waiting in items {
        match put(order, blocks, from, near, waiting) {
            Ok(place) => {
                near = place.0;
                places.push_reserved(place);
            }
            Err(failed) => {
                take_out(blocks, places);
                return Err(failed);
            }
        }
    }
    Ok(())
}

// Splits a block in two. Where memory is short, the blocks are unchanged.
fn split(blocks: &mut Vec<Block>, number: usize, place: usize) -> Result<(), AllocError>
    requires number { number < length blocks.old.items }
    requires place { place ≤ length (slice_index_or blocks.old.items number []) }
    ensures ok { OnOk result (blocks.new.items ≡ take number blocks.old.items
        ++ take place (slice_index_or blocks.old.items number []) ∷ drop place (slice_index_or blocks.old.items number [])
        ∷ drop (suc number) blocks.old.items) }
    ensures err { OnErr result (blocks.new.items ≡ blocks.old.items) }
{
    blocks.reserve(1)?;
    let rest = blocks[number].split_off(place)?;
    match blocks.insert(number + 1, rest) {
        Ok(()) => Ok(()),
        Err(_) => unreachable!(),
    }
}

// How many whole blocks the first `count` ambiguities fill, and how many of them are in the next block.
fn filled(blocks: &[Block], count: usize) -> (usize, usize)
    ensures within { result.0 ≤ length blocks.now }
    ensures passed { length (joined (take result.0 blocks.now)) + result.1 ≡ count }
    ensures left { result.0 < length blocks.now → result.1 < length (slice_index_or blocks.now result.0 []) }
{
    let mut rest = count;
    let mut number = 0;
    while number < blocks.len() && rest >= blocks[number].len() {
        rest -= blocks[number].len();
        number += 1;
    }
    (number, rest)
}

// Makes whole blocks of the first `count` ambiguities, and returns how many blocks these are. The order of the
// ambiguities never changes.
fn cut(blocks: &mut Vec<Block>, count: usize) -> Result<usize, AllocError>
    requires nonempty { All (λ b. 0 < length b) blocks.old.items }
    requires count { count ≤ length (joined blocks.old.items) }
    ensures same { joined blocks.new.items ≡ joined blocks.old.items }
    ensures nonempty { All (λ b. 0 < length b) blocks.new.items }
    ensures within { IfOk result (λ number. number ≤ length blocks.new.items) }
    ensures front { IfOk result (λ number. joined (take number blocks.new.items) ≡ take count (joined blocks.old.items)) }
{
    let (number, rest) = filled(blocks.as_slice(), count);
    if rest == 0 {
        return Ok(number);
    }
    split(blocks, number, rest)?;
    Ok(number + 1)
}

// Half of the longest block that isn't split, where there are few blocks, and where there are many. An insertion moves half of a
// block, and a split moves half of the list of blocks.
const LEAST_LIMIT: usize = 8;

const HALF_LIMIT: usize = 32;

// How many more blocks raise that half by one.
const LIMIT_STEP: usize = 128;

// Splits each long block in two. The order of the ambiguities never changes.
fn halve(blocks: &mut Vec<Block>) -> Result<(), AllocError>
    requires nonempty { All (λ b. 0 < length b) blocks.old.items }
    ensures same { joined blocks.new.items ≡ joined blocks.old.items }
    ensures nonempty { All (λ b. 0 < length b) blocks.new.items }
{
    let limit = HALF_LIMIT.min(LEAST_LIMIT + blocks.len() / LIMIT_STEP);
    let mut number = blocks.len();
    while number > 0 {
        number -= 1;
        let half = blocks[number].len() / 2;
        if half > limit {
            split(blocks, number, half)?;
        }
    }
    Ok(())
}

// Removes the first `count` blocks.
fn drop_blocks(blocks: &mut Vec<Block>, count: usize)
    requires { count ≤ length blocks.old.items }
    ensures { blocks.new.items ≡ drop count blocks.old.items }
{
    let rest = blocks.len() - count;
    blocks.rotate_left(count);
    blocks.truncate(rest);
}

// Inserts ambiguities into the blocks after the first `from`, in order where both are in order. Where memory is
// short, the blocks are unchanged.
fn put_behind<O: WordOrder>(
    order: &O,
    blocks: &mut Vec<Block>,
    from: usize,
    others: Vec<Waiting>,
) -> Result<(), AllocError>
    requires from { from ≤ length blocks.old.items }
    requires nonempty { All (λ b. 0 < length b) blocks.old.items }
    requires over { All (All (λ w. IsOver (O.letters order.now) w.word)) blocks.old.items }
    requires others_over { All (λ w. IsOver (O.letters order.now) w.word) others.items }
    requires others_sorted { AllPairs (IsUpTo (O.compare order.now)) others.items }
    ensures within { OnOk result (from ≤ length blocks.new.items) }
    ensures nonempty { OnOk result (All (λ b. 0 < length b) blocks.new.items) }
    ensures moved { OnOk result (IsPermutation (joined (drop from blocks.old.items) ++ others.items) (joined (drop from blocks.new.items))) }
    ensures sorted { OnOk result (AllPairs (IsUpTo (O.compare order.now)) (joined (drop from blocks.old.items))
        → AllPairs (IsUpTo (O.compare order.now)) (joined (drop from blocks.new.items))) }
    ensures err { OnErr result (blocks.new.items ≡ blocks.old.items) }
{
    if from < blocks.len() {
        return put_all(order, blocks, from, others);
    }
    if others.is_empty() {
        return Ok(());
    }
    blocks.push(Block::new(others))?;
    Ok(())
}

// Removes the first `taken` ambiguities, and inserts others among the rest, in order where
// both are in order. Where memory is short, the order of the ambiguities is unchanged.
pub(super) fn renew<O: WordOrder>(
    order: &O,
    blocks: &mut Vec<Block>,
    taken: usize,
    others: Vec<Waiting>,
) -> Result<(), AllocError>
    requires nonempty { All (λ b. 0 < length b) blocks.old.items }
    requires over { All (λ w. IsOver (O.letters order.now) w.word) (joined blocks.old.items) }
    requires taken { taken ≤ length (joined blocks.old.items) }
    requires others_over { All (λ w. IsOver (O.letters order.now) w.word) others.items }
    requires others_sorted { AllPairs (IsUpTo (O.compare order.now)) others.items }
    ensures nonempty { All (λ b. 0 < length b) blocks.new.items }
    ensures moved { OnOk result (IsPermutation (drop taken (joined blocks.old.items) ++ others.items) (joined blocks.new.items)) }
    ensures sorted { OnOk result (AllPairs (IsUpTo (O.compare order.now)) (drop taken (joined blocks.old.items))
        → AllPairs (IsUpTo (O.compare order.now)) (joined blocks.new.items)) }
    ensures err { OnErr result (joined blocks.new.items ≡ joined blocks.old.items) }
{
    halve(blocks)?;
    let front = cut(blocks, taken)?;
    put_behind(order, blocks, front, others)?;
    drop_blocks(blocks, front);
    Ok(())
}

// The ambiguity at a place of the blocks' list.
pub(super) fn at_place(blocks: &[Block], place: usize) -> &Waiting
    requires { place < length (joined blocks.now) }
    ensures { slice_get (joined blocks.now) place ≡ Some result.now }
{
    let (number, rest) = filled(blocks, place);
    &blocks[number].as_slice()[rest]
}
