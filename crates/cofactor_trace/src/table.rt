//! Adds up rows with equal generator and words, in an ordered map.
ghost use Rattle.std.specs.Prelude.{◌≡◌, ◌++◌, refl, None, IfOk, IfErr, OnOk, MatchResult, Ok, map};
ghost use Rattle.std.specs.BTreeMap.{insert_entry};
ghost use Rattle.std.specs.List.{All};
ghost use Rattle.std.specs.Map.{values_of};
ghost use Rattle.std.specs.Ordering.{eq_by_cmp, as_partial_cmp};
ghost use Rattle.std.proofs.lemmas.Cmp.{eq_by_cmp_equiv};
ghost use Rattle.std.specs.Cmp.{partial_equiv_from_equiv, partial_order_from_agreeing_total};
ghost use Rattle.coef_int.specs.Range.{IsCoefficient};
ghost use Rattle.coef_int.specs.Operations.{product_of};
ghost use Rattle.cofactor_trace.specs.Multiples.{multiple_cmp, multiple_cmp_total};
ghost use Rattle.cofactor_trace.specs.Gathered.{kept_row};
ghost use Rattle.cofactor_trace.specs.Expansion.{joined_row, overflow_in};
ghost use Rattle.cofactor_trace.specs.Faults.{IsMemory, IsFirst, IsOverflowOf};
ghost use Rattle.cofactor_trace.specs.Table.{IsInRange, added, sum_in, with_rows, rows_in};

use crate::{CertRow, ExpandFault, Row};
use coef_int::{Overflow, plus, times};
use lists::Listing;
use std::alloc::{AllocError, Global};
use std::cmp::Ordering;
use std::collections::BTreeMap;
use word_core::Word;

/// The multiple l G r of a generator.
#[derive(Drop)]
pub(crate) struct Multiple {
    pub generator: u32,
    pub left: Word,
    pub right: Word,
}

impl PartialEq for Multiple {
    ghost eq = { eq_by_cmp multiple_cmp };

    ghost laws = { partial_equiv_from_equiv (eq_by_cmp_equiv multiple_cmp_total) };

    fn eq(&self, other: &Multiple) -> bool {
        self.cmp(other) == Ordering::Equal
    }
}

impl Eq for Multiple {
    ghost laws = { eq_by_cmp_equiv multiple_cmp_total };
}

impl Ord for Multiple {
    ghost cmp = { multiple_cmp };

    ghost total = { multiple_cmp_total };

    ghost matches_partial_cmp = { λ _ _. refl };

    ghost matches_eq = { λ _ _. refl };

    fn cmp(&self, other: &Multiple) -> Ordering {
        let by_generator = self.generator.cmp(&other.generator);
        by_generator
            .then_with(|| self.left.cmp_degree(&other.left))
            .then_with(|| self.right.cmp_degree(&other.right))
    }
}

impl PartialOrd for Multiple {
    ghost partial_cmp = { as_partial_cmp multiple_cmp };

    ghost laws = { partial_order_from_agreeing_total multiple_cmp multiple_cmp_total (λ _ _. refl) (λ _ _. refl) };

    fn partial_cmp(&self, other: &Multiple) -> Option<Ordering> {
        Some(self.cmp(other))
    }
}

/// The sum of the coefficients of each multiple so far, or the first overflow on the way to it.
pub(crate) type Sums = BTreeMap<Multiple, Result<i128, Overflow>>;

// Adds a number to the sum of a multiple. An overflow is kept as its sum, since another multiple may come before it in the end.
fn add(sums: &mut Sums, multiple: Multiple, coef: i128) -> Result<(), ExpandFault>
    requires coef_in { IsCoefficient coef }
    requires sums_in { All IsInRange (values_of sums.old.entries) }
    ensures sums_in { OnOk result (All IsInRange (values_of sums.new.entries)) }
    ensures added { OnOk result (sums.new.entries ≡ insert_entry multiple_cmp sums.old.entries multiple (added (sum_in sums.old.entries multiple) coef)) }
    ensures err { IfErr result IsMemory }
{
    let sum = match sums.get(&multiple).copied().unwrap_or(Ok(0)) {
        Ok(so_far) => plus(so_far, coef),
        Err(overflow) => Err(overflow),
    };
    sums.insert(multiple, sum)?;
    Ok(())
}

// Adds the rows of an expansion times a number, between the words of a row.
pub(crate) fn add_joined(
    sums: &mut Sums,
    factor: i128,
    outer: &Row,
    inner: &[CertRow],
) -> Result<(), ExpandFault>
    requires factor_in { IsCoefficient factor }
    requires inner_in { All (λ r. IsCoefficient r.coef) inner.now }
    requires sums_in { All IsInRange (values_of sums.old.entries) }
    ensures sums_in { OnOk result (All IsInRange (values_of sums.new.entries)) }
    ensures added { OnOk result (sums.new.entries ≡ with_rows sums.old.entries (map (joined_row factor outer.now) inner.now)) }
    ensures exact { let first = overflow_in (map (λ s. product_of factor s.coef) inner.now) in
        MatchResult result (λ _. first ≡ None) (IsFirst first) }
{
    for row in inner {
        let coef = times(factor, row.coef)?;
        let multiple = Multiple {
            generator: row.generator,
            left: outer.left.concat(&row.left)?,
            right: row.right.concat(&outer.right)?,
        };
        add(sums, multiple, coef)?;
    }
    Ok(())
}

// The rows of the multiples whose sum isn't zero, ascending, or the first sum that overflowed.
pub(crate) fn nonzero_rows(alloc: Global, mut sums: Sums) -> Result<Listing<CertRow>, ExpandFault>
    requires { All IsInRange (values_of sums.entries) }
    ensures in_range { IfOk result (All (λ r. IsCoefficient r.coef)) }
    ensures exact { MatchResult result (λ rows. rows_in sums.entries ≡ Ok rows) (IsOverflowOf (rows_in sums.entries)) }
{
    let mut rows = Listing::new(alloc);
    while let Some((multiple, sum)) = sums.pop_first() {
        push_nonzero(&mut rows, sum?, multiple)?;
    }
    Ok(rows)
}

// The list with a row at its end, unless its coefficient is zero.
fn push_nonzero(
    rows: &mut Listing<CertRow>,
    coef: i128,
    multiple: Multiple,
) -> Result<(), AllocError>
    ensures { OnOk result (rows.new ≡ rows.old ++ kept_row coef multiple) }
{
    if coef != 0 {
        rows.push(CertRow {
            coef,
            left: multiple.left,
            generator: multiple.generator,
            right: multiple.right,
        })?;
    }
    Ok(())
}
