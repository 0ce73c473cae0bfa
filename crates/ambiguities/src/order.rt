//! How two ambiguities compare.
ghost use Rattle.std.specs.Prelude.{◌≡◌};
ghost use Rattle.word_core.specs.Canonical.{word_cmp};
ghost use Rattle.word_core.specs.Letters.{IsOver};
ghost use Rattle.ambiguities.specs.Listed.{kind_number};
ghost use Rattle.ambiguities.specs.Order.{ambiguity_cmp, waiting_cmp};

use crate::{Ambiguity, Kind, Waiting};
use std::cmp::Ordering;
use word_orders::WordOrder;

/// By the overlap word, then by the first rule, then by the second rule, then overlaps before inclusions, then by the place.
pub fn compare_waiting<O: WordOrder>(order: &O, left: &Waiting, right: &Waiting) -> Ordering
    requires left_over { IsOver (O.letters order.now) left.now.word }
    requires right_over { IsOver (O.letters order.now) right.now.word }
    ensures { result ≡ waiting_cmp (O.compare order.now) left.now right.now }
{
    let by_word = order.cmp(&left.word, &right.word);
    by_word.then_with(|| compare_ambiguities(&left.which, &right.which))
}

// The same, where the words are compared canonically.
pub(crate) fn compare_canonically(left: &Waiting, right: &Waiting) -> Ordering
    ensures { result ≡ waiting_cmp word_cmp left.now right.now }
{
    let by_word = left.word.cmp_degree(&right.word);
    by_word.then_with(|| compare_ambiguities(&left.which, &right.which))
}

// By the first rule, then by the second rule, then overlaps before inclusions, then by the place.
fn compare_ambiguities(left: &Ambiguity, right: &Ambiguity) -> Ordering
    ensures { result ≡ ambiguity_cmp left.now right.now }
{
    let by_rules = left.i.cmp(&right.i).then(left.j.cmp(&right.j));
    let by_kind = kind_rank(left.kind).cmp(&kind_rank(right.kind));
    by_rules.then(by_kind.then(left.place.cmp(&right.place)))
}

// Overlaps come before inclusions.
fn kind_rank(kind: Kind) -> u8
    ensures { result ≡ kind_number kind }
{
    match kind {
        Kind::Overlap => 0,
        Kind::Inclusion => 1,
    }
}
