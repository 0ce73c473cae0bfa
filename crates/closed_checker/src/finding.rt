//! The ambiguities of the words of a sorted table: at each place of each word, the words that begin as it goes on.

ghost use Rattle.std.specs.Prelude.{◌≡◌, ◌↔◌, ◌<◌, ◌^◌, length, IfOk, OnOk, IsTrue};
ghost use Rattle.std.specs.List.{All, AllPairs};
ghost use Rattle.closed_checker.specs.Table.{StandsBefore};
ghost use Rattle.closed_checker.specs.Finding.{ListsEachOnce, IsAdded, MayMeet, IsWith, IsOfFirst, IsOfFirsts};

use crate::table::{Lead, narrow, split_ended};
use ambiguities::{Ambiguity, Kind};
use lists::Listing;
use std::alloc::{AllocError, Global};

// All ambiguities of the words of the table.
pub(crate) fn find_all(alloc: Global, table: &[Lead]) -> Result<Listing<Ambiguity>, AllocError>
    requires sorted { AllPairs StandsBefore table.now }
    requires nonempty { All (λ l. 0 < length l.letters) table.now }
    requires short { All (λ l. length l.letters < 2 ^ 32) table.now }
    ensures { IfOk result (ListsEachOnce (IsOfFirsts table.now table.now)) }
{
    let mut found = Listing::new(alloc);
    for first in table {
        push_first(&mut found, table, first)?;
    }
    Ok(found)
}

// Those with this first word.
fn push_first(
    found: &mut Listing<Ambiguity>,
    table: &[Lead],
    first: &Lead,
) -> Result<(), AllocError>
    requires sorted { AllPairs StandsBefore table.now }
    requires nonempty { All (λ l. 0 < length l.letters) table.now }
    requires short { length first.now.letters < 2 ^ 32 }
    ensures { OnOk result (IsAdded (IsOfFirst table.now first.now (λ place. Unit {0})) found.old found.new) }
{
    for place in 0..first.letters.len() {
        push_place(found, table, first, place)?;
    }
    Ok(())
}

// Those in which the second word begins at this place of the first.
fn push_place(
    found: &mut Listing<Ambiguity>,
    table: &[Lead],
    first: &Lead,
    place: usize,
) -> Result<(), AllocError>
    requires sorted { AllPairs StandsBefore table.now }
    requires nonempty { All (λ l. 0 < length l.letters) table.now }
    requires short { length first.now.letters < 2 ^ 32 }
    requires inside { place < length first.now.letters }
    ensures { OnOk result (IsAdded (IsOfFirst table.now first.now (λ p. p ≡ place)) found.old found.new) }
{
    let rest = &first.letters.as_slice()[place..];
    let mut longer = table;
    for depth in 0..rest.len() {
        if longer.is_empty() {
            return Ok(());
        }
        let going_on = narrow(longer, depth, rest[depth]);
        let (ended, further) = split_ended(going_on, depth + 1);
        push_all(found, ended, first.number, Kind::Inclusion, place as u32)?;
        longer = further;
    }
    if place > 0 {
        push_all(found, longer, first.number, Kind::Overlap, place as u32)?;
    }
    Ok(())
}

// Those of one kind at one place of the first rule with the rules of these words.
fn push_all(
    found: &mut Listing<Ambiguity>,
    seconds: &[Lead],
    first: u32,
    kind: Kind,
    place: u32,
) -> Result<(), AllocError>
    requires { AllPairs StandsBefore seconds.now }
    ensures { OnOk result (IsAdded (IsWith seconds.now first kind place) found.old found.new) }
{
    for second in seconds {
        if may_meet(kind, first, second.number) {
            found.push(Ambiguity {
                i: first,
                j: second.number,
                kind,
                place,
            })?;
        }
    }
    Ok(())
}

fn may_meet(kind: Kind, first: u32, second: u32) -> bool
    ensures { IsTrue result ↔ MayMeet kind first second }
{
    match kind {
        Kind::Overlap => true,
        Kind::Inclusion => first != second,
    }
}
