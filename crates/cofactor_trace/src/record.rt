//! The expansion of one record, from those of the rules that it names.
ghost use Rattle.std.specs.Prelude.{◌≡◌, ◌<ℤ◌, pos, [], None, Ok, IfOk, OnOk, MatchResult};
ghost use Rattle.std.specs.List.{All};
ghost use Rattle.std.specs.Map.{values_of};
ghost use Rattle.coef_int.specs.Range.{IsCoefficient};
ghost use Rattle.traced_rows.specs.declared.Origin.TheVariants as origin;
ghost use Rattle.cofactor_trace.specs.Expansion as expansion;
ghost use Rattle.cofactor_trace.specs.Expansion.{overflow_in, multiple_products, denominators, joined, joined_rows, joined_products};
ghost use Rattle.cofactor_trace.specs.Expansion.{row_products, limit_fault, record_expansion};
ghost use Rattle.cofactor_trace.specs.Needed.{known_from};
ghost use Rattle.cofactor_trace.specs.Faults.{Explains, IsFirst};
ghost use Rattle.cofactor_trace.specs.Ranges.{IsRanged};
ghost use Rattle.cofactor_trace.specs.Table.{IsInRange, with_rows};

use crate::divisor::{primitive, raise};
use crate::size::{Size, check_size, measure_joined};
use crate::table::{Sums, add_joined, nonzero_rows};
use crate::{CertRow, Cofactors, ExpandFault, Made, Origin, Row};
use coef_int::{quotient, times};
use std::alloc::Global;
use std::collections::BTreeMap;
use word_core::Word;

/// The expansions of rules, by their numbers.
pub(crate) type Expansions = BTreeMap<usize, Cofactors>;

// The denominator of the expansion of a generator or a rule.
fn denominator_of(expansions: &Expansions, from: Origin) -> i128
    requires { All IsRanged (values_of expansions.now.entries) }
    ensures exact { result ≡ (known_from expansions.now.entries from).denominator }
    ensures positive { pos 0 <ℤ result }
    ensures in_range { IsCoefficient result }
{
    match from {
        Origin::Generator(_) => 1,
        Origin::Rule(number) => match expansions.get(&(number as usize)) {
            Some(cofactors) => cofactors.denominator,
            None => 1,
        },
    }
}

// The rows of a rule's expansion.
fn rows_of_rule(expansions: &Expansions, number: u32) -> &[CertRow]
    requires { All IsRanged (values_of expansions.now.entries) }
    ensures exact { result.now ≡ (known_from expansions.now.entries (origin.Rule number)).rows }
    ensures in_range { All (λ r. IsCoefficient r.coef) result.now }
{
    match expansions.get(&(number as usize)) {
        Some(cofactors) => cofactors.rows.as_slice(),
        None => &[],
    }
}

// The generator as a row.
fn itself(alloc: Global, generator: u32) -> CertRow
    ensures { result ≡ record { coef = pos 1; left = []; generator = generator; right = [] } }
{
    CertRow {
        coef: 1,
        left: Word::new(alloc),
        generator,
        right: Word::new(alloc),
    }
}

// The least common multiple of the denominators of the rows' generators and rules, taken in order.
fn common_denominator(expansions: &Expansions, rows: &[Row]) -> Result<i128, ExpandFault>
    requires { All IsRanged (values_of expansions.now.entries) }
    ensures exact { let known = known_from expansions.now.entries in
        let first = overflow_in (multiple_products (pos 1) (denominators known rows.now)) in
        MatchResult result (λ common. (first ≡ None) × (common ≡ expansion.common_denominator known rows.now)) (IsFirst first) }
    ensures positive { IfOk result (λ common. pos 0 <ℤ common) }
    ensures in_range { IfOk result IsCoefficient }
{
    let mut common = 1;
    for row in rows {
        common = raise(common, denominator_of(expansions, row.from))?;
    }
    Ok(common)
}

// Whether the rows that are to be added up are within the limits.
fn check_limits(
    alloc: Global,
    expansions: &Expansions,
    common: i128,
    rows: &[Row],
) -> Result<(), ExpandFault>
    requires { All IsRanged (values_of expansions.now.entries) }
    ensures { let first = limit_fault (joined (known_from expansions.now.entries) common rows.now) in
        MatchResult result (λ _. first ≡ None) (IsFirst first) }
{
    let mut size = Size {
        long: false,
        rows: 0,
        letters: 0,
    };
    for row in rows {
        size = match row.from {
            Origin::Generator(generator) => {
                let inner = [itself(alloc, generator)];
                measure_joined(size, row, &inner)
            }
            Origin::Rule(number) => measure_joined(size, row, rows_of_rule(expansions, number)),
        };
    }
    check_size(size)
}

// Adds the expansion of one row.
fn add_row(
    alloc: Global,
    expansions: &Expansions,
    common: i128,
    row: &Row,
    sums: &mut Sums,
) -> Result<(), ExpandFault>
    requires ranged { All IsRanged (values_of expansions.now.entries) }
    requires common_in { IsCoefficient common }
    requires coefficient_in { IsCoefficient row.now.coef }
    requires sums_in { All IsInRange (values_of sums.old.entries) }
    ensures sums_in { OnOk result (All IsInRange (values_of sums.new.entries)) }
    ensures added { OnOk result (sums.new.entries ≡ with_rows sums.old.entries (joined_rows (known_from expansions.now.entries) common row.now)) }
    ensures exact { let first = overflow_in (row_products (known_from expansions.now.entries) common row.now) in
        MatchResult result (λ _. first ≡ None) (IsFirst first) }
{
    let share = quotient(common, denominator_of(expansions, row.from));
    let factor = times(row.coef, share)?;
    match row.from {
        Origin::Generator(generator) => {
            let inner = [itself(alloc, generator)];
            add_joined(sums, factor, row, &inner)
        }
        Origin::Rule(number) => add_joined(sums, factor, row, rows_of_rule(expansions, number)),
    }
}

// The sums of the expansions of the rows.
fn add_rows(
    alloc: Global,
    expansions: &Expansions,
    common: i128,
    rows: &[Row],
) -> Result<Sums, ExpandFault>
    requires ranged { All IsRanged (values_of expansions.now.entries) }
    requires common_in { IsCoefficient common }
    requires coefficients_in { All (λ r. IsCoefficient r.coef) rows.now }
    ensures sums_in { IfOk result (λ sums. All IsInRange (values_of sums.entries)) }
    ensures added { IfOk result (λ sums. sums.entries ≡ with_rows [] (joined (known_from expansions.now.entries) common rows.now)) }
    ensures exact { let first = overflow_in (joined_products (known_from expansions.now.entries) common rows.now) in
        MatchResult result (λ _. first ≡ None) (IsFirst first) }
{
    let mut sums = BTreeMap::new(alloc);
    for row in rows {
        add_row(alloc, expansions, common, row, &mut sums)?;
    }
    Ok(sums)
}

/// The expansion of a record, or its first fault.
pub(crate) fn expand_record(
    alloc: Global,
    expansions: &Expansions,
    made: &Made,
) -> Result<Cofactors, ExpandFault>
    requires ranged { All IsRanged (values_of expansions.now.entries) }
    requires positive { pos 0 <ℤ made.now.scale }
    requires scale_in { IsCoefficient made.now.scale }
    requires coefficients_in { All (λ r. IsCoefficient r.coef) made.now.rows }
    ensures ranged { IfOk result IsRanged }
    ensures exact { MatchResult result (λ c. record_expansion (known_from expansions.now.entries) made.now ≡ Ok c)
        (Explains (record_expansion (known_from expansions.now.entries) made.now)) }
{
    let rows = made.rows.as_slice();
    let common = common_denominator(expansions, rows)?;
    let denominator = times(made.scale, common)?;
    check_limits(alloc, expansions, common, rows)?;
    let sums = add_rows(alloc, expansions, common, rows)?;
    let gathered = nonzero_rows(alloc, sums)?;
    Ok(primitive(alloc, denominator, gathered)?)
}
