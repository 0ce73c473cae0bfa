//! One step of a reduction: a multiple of a rule is taken away, and a row is added.

ghost use Rattle.std.specs.Prelude.{◌≡◌, ◌<◌, ◌≤◌, ◌<ℤ◌, ◌+◌, ◌^◌, ℕ, List, pos, length, MatchResult, IfOk, Ok};
ghost use Rattle.std.specs.List.{All};
ghost use Rattle.coef_int.specs.Range.{IsCoefficient};
ghost use Rattle.word_core.specs.Letters.{IsOver};
ghost use Rattle.nc_polynomial.specs.Shape.{IsShaped};
ghost use Rattle.nc_polynomial.specs.Faults.{checked, finished, Explains};
ghost use Rattle.rule_reduce.specs.Steps.{multiplied_state, state_operations, less_multiple};
ghost use Rattle.rule_reduce.specs.Steps.{less_operations, move_of, move_row, move_result, step_result};
ghost use Rattle.rule_reduce.specs.Stores.{with_rows, IsBounded, Shows};
ghost use Rattle.traced_rows.specs.declared.Row.{Row};

use crate::Rule;
use crate::adding::add_terms;
use crate::parts::{back, front};
use crate::rule::rule_with;
use crate::state::{Choice, Progress};
use crate::store::RowStore;
use coef_int::{divisor, quotient};
use lists::{Duplicate, Listing};
use nc_polynomial::{Poly, PolyFault, multiply_terms, negate_terms, shift_terms};
use std::alloc::{AllocError, Global};
use traced_rows::{Origin, Row};
use word_core::Word;

// Once the polynomial, with a store of no rows.
pub(crate) fn start<S: RowStore>(poly: &Poly, rows: S) -> Result<Progress<S>, AllocError>
    ensures { IfOk result (λ s. s ≡ record { multiplier = pos 1; rest = poly.now.terms; rows = rows; used = 0 }) }
{
    Ok(Progress {
        multiplier: 1,
        rest: poly.terms.duplicate()?,
        rows,
        used: 0,
    })
}

// Everything times a number. Where it is 1, everything stays.
fn multiply_state<S: RowStore>(
    alloc: Global,
    state: Progress<S>,
    by: i128,
) -> Result<Progress<S>, PolyFault>
    requires factor_in { IsCoefficient by }
    requires in_range { IsBounded S.numbers state }
    ensures in_range { IfOk result (IsBounded S.numbers) }
    ensures used { IfOk result (λ t. t.used ≡ state.used) }
    ensures exact { (rows : List Row) → state.rows ≡ S.of rows → MatchResult result
        (Shows S.of (checked (state_operations by (with_rows state rows)) (multiplied_state by (with_rows state rows))))
        (Explains (checked (state_operations by (with_rows state rows)) (multiplied_state by (with_rows state rows)))) }
{
    if by == 1 {
        return Ok(state);
    }
    let Progress {
        multiplier,
        rest,
        rows,
        used,
    } = state;
    let multiplier = match coef_int::times(multiplier, by) {
        Ok(product) => product,
        Err(fault) => return Err(PolyFault::Overflow(fault)),
    };
    let rest = multiply_terms(alloc, rest, by)?;
    let rows = rows.times(by)?;
    Ok(Progress {
        multiplier,
        rest,
        rows,
        used,
    })
}

// A polynomial less a multiple of a rule.
fn subtract_multiple(
    alloc: Global,
    rest: Listing<(i128, Word)>,
    times: i128,
    left: &Word,
    rule: &Poly,
    right: &Word,
) -> Result<Poly, PolyFault>
    requires times_in { IsCoefficient times }
    requires shaped { IsShaped rest }
    ensures { MatchResult result (λ p. finished (less_operations times left.now rule.now.terms right.now rest)
        (less_multiple times left.now rule.now.terms right.now rest) ≡ Ok p.terms)
        (Explains (finished (less_operations times left.now rule.now.terms right.now rest)
        (less_multiple times left.now rule.now.terms right.now rest))) }
{
    let taken = shift_terms(alloc, times, left, rule.terms.as_slice(), right)?;
    let taken = negate_terms(alloc, taken)?;
    Poly::from_descending(add_terms(alloc, rest, taken)?)
}

// The row of so many times the rule, with what stands on either side of its leading word.
fn row_of(rule: &Rule, choice: &Choice, times: i128) -> Result<Row, AllocError>
    ensures { IfOk result (λ row. row ≡ record (move_row (move_of choice.now rule.now)) { coef = times }) }
{
    let left = front(&choice.word, choice.place)?;
    let right = back(&choice.word, choice.place, rule.lead.len())?;
    Ok(Row {
        coef: times,
        left,
        from: Origin::Rule(choice.number),
        right,
    })
}

// The step with this choice by its rule.
fn take_away<S: RowStore>(
    alloc: Global,
    rule: &Rule,
    choice: &Choice,
    state: Progress<S>,
) -> Result<Progress<S>, PolyFault>
    requires leading_in { IsCoefficient rule.now.leading }
    requires positive { pos 0 <ℤ rule.now.leading }
    requires choice_in { IsCoefficient choice.now.coefficient }
    requires in_range { IsBounded S.numbers state }
    requires steps { state.used + 1 < 2 ^ 32 }
    ensures in_range { IfOk result (IsBounded S.numbers) }
    ensures steps { IfOk result (λ t. t.used ≤ state.used + 1) }
    ensures exact { (rows : List Row) → state.rows ≡ S.of rows → MatchResult result
        (Shows S.of (move_result (move_of choice.now rule.now) (with_rows state rows)))
        (Explains (move_result (move_of choice.now rule.now) (with_rows state rows))) }
{
    let shared = divisor(choice.coefficient, rule.leading);
    let by = quotient(rule.leading, shared);
    let times = quotient(choice.coefficient, shared);
    let row = row_of(rule, choice, times)?;
    let mut next = multiply_state(alloc, state, by)?;
    next.rest = subtract_multiple(
        alloc, next.rest, times, &row.left, &rule.poly, &row.right,
    )?.terms;
    next.rows.push(row)?;
    next.used += 1;
    Ok(next)
}

// The step with this choice.
pub(crate) fn take_step<S: RowStore>(
    alloc: Global,
    rules: &[Rule],
    choice: &Choice,
    state: Progress<S>,
) -> Result<Progress<S>, PolyFault>
    requires leading_in { All (λ g. IsCoefficient g.leading) rules.now }
    requires positive { All (λ g. pos 0 <ℤ g.leading) rules.now }
    requires first { 0 < choice.now.number }
    requires last { choice.now.number ≤ length rules.now }
    requires choice_in { IsCoefficient choice.now.coefficient }
    requires in_range { IsBounded S.numbers state }
    requires steps { state.used + 1 < 2 ^ 32 }
    ensures in_range { IfOk result (IsBounded S.numbers) }
    ensures steps { IfOk result (λ t. t.used ≤ state.used + 1) }
    ensures exact { (rows : List Row) → state.rows ≡ S.of rows → MatchResult result
        (Shows S.of (step_result rules.now choice.now (with_rows state rows)))
        (Explains (step_result rules.now choice.now (with_rows state rows))) }
{
    take_away(alloc, rule_with(rules, choice.number), choice, state)
}
