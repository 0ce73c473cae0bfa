//! The expansion of a record: rows over generators alone.
ghost use Rattle.std.specs.Prelude.{◌≡◌, ℕ, ◌+◌, ◌<◌, ◌≤◌, ◌^◌, ◌||◌, false, length, map, reverse, slice_index_or, Ok, IfOk, MatchResult};
ghost use Rattle.std.specs.List.{All, list_any};
ghost use Rattle.cofactor_trace.specs.Needed.{IsAmongFirst, IsRecord, AreRecords, is_rule, needed_rules, expansion_of};
ghost use Rattle.cofactor_trace.specs.Faults.{Explains};
ghost use Rattle.cofactor_trace.specs.Ranges.{IsRanged};

use crate::record::expand_record;
use crate::{Cofactors, ExpandFault, Made, Origin, Row};
use std::alloc::{AllocError, Global};
use std::collections::BTreeMap;

/// The expansion of the target: its rows over generators and rules become rows over generators, where `made` has the records of the
/// rules, numbered from 1. The rules that it needs are expanded in ascending order, and then the target. A record's denominator
/// is its scale times the least common multiple of those of its generators and rules; its rows have each multiple of a generator
/// once, ascending; the denominator and the coefficients have no common divisor. A fault is the first one: of a record
/// a product of the denominator that is no coefficient, then `Size`, then `Rows`, then a product or a sum of the rows.
pub fn expand(alloc: Global, made: &[Made], target: &Made) -> Result<Cofactors, ExpandFault>
    requires records { AreRecords made.now }
    requires target { IsRecord (length made.now) target.now }
    ensures exact { MatchResult result (λ c. expansion_of made.now target.now ≡ Ok c) (Explains (expansion_of made.now target.now)) }
    ensures in_range { IfOk result IsRanged }
{
    let mut numbers = needed_numbers(alloc, made, target)?;
    let mut expansions = BTreeMap::new(alloc);
    while let Some(number) = numbers.pop() {
        let cofactors = expand_record(alloc, &expansions, &made[number - 1])?;
        expansions.insert(number, cofactors)?;
    }
    expand_record(alloc, &expansions, target)
}

// The numbers of the rules that the target needs, descending.
pub(crate) fn needed_numbers(
    alloc: Global,
    made: &[Made],
    target: &Made,
) -> Result<Vec<usize>, AllocError>
    requires records { AreRecords made.now }
    requires target { IsRecord (length made.now) target.now }
    ensures exact { IfOk result (λ numbers. reverse numbers.items ≡ map (λ e. e.0) (needed_rules made.now target.now)) }
    ensures in_range { IfOk result (λ numbers. All (λ n. n < 2 ^ 32) numbers.items) }
{
    let mut marks = vec![in alloc; false; made.len()]?;
    let named = marks.as_mut_slice();
    let mut numbers = Vec::new(alloc);
    mark(named, target.rows.as_slice());
    for place in (0..made.len()).rev() {
        if named[place] {
            mark(named, made[place].rows.as_slice());
            numbers.push(place + 1)?;
        }
    }
    Ok(numbers)
}

// Marks the places of the rules that the rows name.
fn mark(named: &mut [bool], rows: &[Row])
    requires { All (λ r. IsAmongFirst (length named.old) r.from) rows.now }
    ensures marks { (place : ℕ) → place < length named.old
        → slice_index_or named.new place false
        ≡ (slice_index_or named.old place false || list_any (λ r. is_rule (place + 1) r.from) rows.now) }
    ensures far { (place : ℕ) → 2 ^ 32 ≤ place + 1
        → slice_index_or named.new place false ≡ slice_index_or named.old place false }
{
    for row in rows {
        if let Origin::Rule(number) = row.from {
            named[number as usize - 1] = true;
        }
    }
}
