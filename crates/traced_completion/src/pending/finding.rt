//! Where an ambiguity belongs among waiting ones.
ghost use Rattle.std.specs.Prelude.{◌≡◌, ◌-◌, ◌+◌, ◌<◌, ◌≤◌, [], length, slice_index_or};
ghost use Rattle.std.specs.List.{All};
ghost use Rattle.std.specs.Ordering.{is_lt};
ghost use Rattle.std.specs.declared.cmp.Ordering.TheVariants.{Less};
ghost use Rattle.word_core.specs.Letters.{IsOver};
ghost use Rattle.ambiguities.specs.declared.waiting.Waiting.{Waiting};
ghost use Rattle.ambiguities.specs.Order.{waiting_cmp};
ghost use Rattle.traced_completion.specs.Blocks.{IsUpTo, last_of};

use super::block::Block;
use ambiguities::{Waiting, compare_waiting};
use word_orders::WordOrder;

// The place of the first one above the ambiguity, where they are in order. In any case the one at this place
// is above it, and the one before isn't.
pub(super) fn first_above<O: WordOrder>(order: &O, items: &[Waiting], waiting: &Waiting) -> usize
    requires over { All (λ w. IsOver (O.letters order.now) w.word) items.now }
    requires waiting_over { IsOver (O.letters order.now) waiting.now.word }
    ensures within { result ≤ length items.now }
    ensures before { (d : Waiting) → 0 < result → IsUpTo (O.compare order.now) (slice_index_or items.now (result - 1) d) waiting.now }
    ensures above { (d : Waiting) → result < length items.now → waiting_cmp (O.compare order.now) waiting.now (slice_index_or items.now result d) ≡ Less }
{
    let mut low = 0;
    let mut high = items.len();
    while low < high {
        let middle = low + (high - low) / 2;
        if compare_waiting(order, waiting, &items[middle]).is_lt() {
            high = middle;
        } else {
            low = middle + 1;
        }
    }
    low
}

// Whether the last ambiguity of the block is above the given one.
fn is_last_above<O: WordOrder>(order: &O, block: &Block, waiting: &Waiting) -> bool
    requires nonempty { 0 < length block.now }
    requires over { All (λ w. IsOver (O.letters order.now) w.word) block.now }
    requires waiting_over { IsOver (O.letters order.now) waiting.now.word }
    ensures { (d : Waiting) → result ≡ is_lt (waiting_cmp (O.compare order.now) waiting.now (last_of block.now d)) }
{
    let items = block.as_slice();
    compare_waiting(order, waiting, &items[items.len() - 1]).is_lt()
}

// A block from which on the ambiguity may belong: the near one, where the last ambiguity of the block before it isn't above
// this one, and the first one otherwise.
fn start_for<O: WordOrder>(
    order: &O,
    blocks: &[Block],
    from: usize,
    near: usize,
    waiting: &Waiting,
) -> usize
    requires some { from < length blocks.now }
    requires nonempty { All (λ b. 0 < length b) blocks.now }
    requires over { All (All (λ w. IsOver (O.letters order.now) w.word)) blocks.now }
    requires waiting_over { IsOver (O.letters order.now) waiting.now.word }
    ensures reached { from ≤ result }
    ensures within { result < length blocks.now }
    ensures before { (d : Waiting) → from < result → IsUpTo (O.compare order.now) (last_of (slice_index_or blocks.now (result - 1) []) d) waiting.now }
{
    if near <= from || near >= blocks.len() {
        return from;
    }
    if is_last_above(order, &blocks[near - 1], waiting) {
        from
    } else {
        near
    }
}

// The first block from a number on whose last ambiguity is above the given one, where all are in order, or
// the last block. The steps from the near block on grow, so that a block close to it is found by few comparisons.
pub(super) fn block_for<O: WordOrder>(
    order: &O,
    blocks: &[Block],
    from: usize,
    near: usize,
    waiting: &Waiting,
) -> usize
    requires some { from < length blocks.now }
    requires nonempty { All (λ b. 0 < length b) blocks.now }
    requires over { All (All (λ w. IsOver (O.letters order.now) w.word)) blocks.now }
    requires waiting_over { IsOver (O.letters order.now) waiting.now.word }
    ensures reached { from ≤ result }
    ensures within { result < length blocks.now }
    ensures before { (d : Waiting) → from < result → IsUpTo (O.compare order.now) (last_of (slice_index_or blocks.now (result - 1) []) d) waiting.now }
    ensures above { (d : Waiting) → result + 1 < length blocks.now
        → waiting_cmp (O.compare order.now) waiting.now (last_of (slice_index_or blocks.now result []) d) ≡ Less }
{
    let start = start_for(order, blocks, from, near, waiting);
    let mut low = start;
    let mut high = blocks.len() - 1;
    while low < high {
        let middle = low + (low - start).min((high - low) / 2);
        if is_last_above(order, &blocks[middle], waiting) {
            high = middle;
        } else {
            low = middle + 1;
        }
    }
    low
}
