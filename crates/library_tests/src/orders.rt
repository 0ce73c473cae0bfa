//! Orders of words: how they compare through their bound.
ghost use Rattle.std.specs.Prelude.{◌<◌, ◌≤◌, ◌^◌};

use crate::comparing::equal;
use crate::notation::word;
use lists::Listing;
use std::alloc::Global;
use std::cmp::Ordering;
use std::process::Abort;
use word_core::{Letter, Word};
use word_orders::{AnyOrder, BlockLex, DegLex, OrderFault, OrderSpec, WeightLex, WordOrder};

// As many letters as a word can tell apart.
const LETTERS: u32 = 65536;

const HEAVY: &[(Letter, u32)] = &[(Letter(0), 1000), (Letter(1), 3), (Letter(2), 5)];

const BLOCK: &[Letter] = &[Letter(0), Letter(2)];

const LESS: Ordering = Ordering::Less;

const EQUAL: Ordering = Ordering::Equal;

const GREATER: Ordering = Ordering::Greater;

// Two words, and how they compare in the canonical order, by the weights and by the block.
type Compared = (&'static str, &'static str, [Ordering; 3]);

const COMPARED: &[Compared] = &[
    ("bab", "aba", [GREATER, LESS, LESS]),
    ("cc", "bbb", [LESS, GREATER, GREATER]),
    ("cd", "bb", [GREATER, GREATER, GREATER]),
    ("bc", "cb", [LESS, LESS, LESS]),
    ("bbbbb", "ccc", [GREATER, GREATER, LESS]),
    ("ac", "ac", [EQUAL, EQUAL, EQUAL]),
];

fn compared<O: WordOrder>(order: &O, left: &Word, right: &Word) -> Ordering
    requires { 2 ^ 16 ≤ O.letters order.now }
{
    // The letters of every word are below 2^16.
    let _lengths = (left.len(), right.len());
    order.cmp(left, right)
}

// Asserts how the two words of each row compare in an order, by the place of its answer.
fn compare_rows<O: WordOrder>(rt: &impl Abort, alloc: Global, order: &O, place: usize)
    requires letters { 2 ^ 16 ≤ O.letters order.now }
    requires place { place < 3 }
{
    for (left, right, want) in COMPARED {
        let first = word(rt, alloc, left);
        let second = word(rt, alloc, right);
        equal(rt, &compared(order, &first, &second), &want[place], left);
    }
}

#[test]
fn orders_compare_what_they_are_named_for(rt: HostRuntime) {
    let alloc = rt.alloc();
    compare_rows(&rt, alloc, &DegLex::new(), 0);
    let heavy = WeightLex::new(alloc, HEAVY, LETTERS).expect(&rt, "weights");
    compare_rows(&rt, alloc, &heavy, 1);
    let block = BlockLex::new(alloc, BLOCK, LETTERS).expect(&rt, "a block");
    compare_rows(&rt, alloc, &block, 2);
    let any = AnyOrder::new(alloc, &OrderSpec::Degree, LETTERS).expect(&rt, "degrees");
    compare_rows(&rt, alloc, &any, 0);
}

#[test]
fn a_weight_of_zero_is_refused(rt: HostRuntime) {
    let weights = Vec::from_slice(rt.alloc(), &[(Letter(1), 0)]).expect(&rt, "memory");
    let alone = WeightLex::new(rt.alloc(), &weights, 3);
    assert!(rt; matches!(alone, Err(OrderFault::BadWeight { letter: Letter(1) })));
    let spec = OrderSpec::Weight(Listing::from_vec(weights));
    let any = AnyOrder::new(rt.alloc(), &spec, 3);
    assert!(rt; matches!(any, Err(OrderFault::BadWeight { letter: Letter(1) })));
}
