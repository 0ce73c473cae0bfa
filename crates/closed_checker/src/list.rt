//! The list of all ambiguities of rules.
ghost use Rattle.std.specs.Prelude.{◌≡◌, map, IfOk};
ghost use Rattle.ambiguities.specs.Ambiguities.{IsAmbiguity};
ghost use Rattle.ambiguities.specs.Order.{AreAllInOrder};
ghost use Rattle.closed_checker.specs.Finding.{ListsEachOnce};

use crate::finding::find_all;
use crate::table::make_table;
use ambiguities::{Ambiguity, Waiting, in_order};
use lists::Listing;
use rule_reduce::Rules;
use std::alloc::{AllocError, Global};
use word_orders::WordOrder;

/// All ambiguities of the rules, each once: by the overlap word, then the first rule, then the second, overlaps before
/// inclusions, then by the place, ascending.
pub fn all_ambiguities<O: WordOrder>(
    alloc: Global,
    rules: &Rules<O>,
) -> Result<Listing<Ambiguity>, AllocError>
    ensures { IfOk result (AreAllInOrder (O.compare rules.now.order) rules.now.rules) }
{
    let found = find_ambiguities(alloc, rules)?;
    let items = in_order(alloc, rules, found.as_slice())?;
    take_ambiguities(alloc, items.as_slice())
}

// All of them, in whatever order.
fn find_ambiguities<O: WordOrder>(
    alloc: Global,
    rules: &Rules<O>,
) -> Result<Listing<Ambiguity>, AllocError>
    ensures { IfOk result (ListsEachOnce (IsAmbiguity rules.now.rules)) }
{
    let table = make_table(alloc, rules.rules.as_slice())?;
    find_all(alloc, table.as_slice())
}

// The ambiguities without their overlap words.
fn take_ambiguities(alloc: Global, items: &[Waiting]) -> Result<Listing<Ambiguity>, AllocError>
    ensures { IfOk result (λ found. found ≡ map (λ w. w.which) items.now) }
{
    let mut found = Listing::with_room(alloc, items.len())?;
    for waiting in items {
        found.push(waiting.which)?;
    }
    Ok(found)
}
