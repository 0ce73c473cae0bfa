//! What a reduction keeps of its rows: the rows, or their coefficients alone.

ghost use Rattle.std.specs.Prelude.{◌≡◌, ℤ, List, [], ◌∷◌, ◌++◌, map, length, MatchResult, IfOk, OnOk, Some, None, refl};
ghost use Rattle.std.specs.List.{All};
ghost use Rattle.coef_int.specs.Range.{IsCoefficient};
ghost use Rattle.coef_int.specs.Operations.{first_overflow};
ghost use Rattle.traced_rows.specs.declared.Row.{Row};
ghost use Rattle.rule_reduce.specs.Steps.{multiplied_row};
ghost use Rattle.rule_reduce.specs.Stores.{coefficients, products_by};

use crate::row_products::{multiply_numbers, multiply_rows};
use coef_int::Overflow;
use lists::Listing;
use std::alloc::AllocError;
use traced_rows::Row;

/// What is kept of rows: enough to tell whether one of their coefficients overflows.
pub(crate) trait RowStore: Drop {
    // What is kept of these rows.
    ghost of: { List Row → Self };

    // The coefficients that are kept.
    ghost numbers: { Self → List ℤ };

    /// One row more.
    fn push(&mut self, row: Row) -> Result<(), AllocError>
        ensures numbers { OnOk result (numbers self.new ≡ numbers self.old ++ row.coef ∷ []) }
        ensures kept { OnOk result ((rows : List Row) → self.old ≡ of rows → self.new ≡ of (rows ++ row ∷ [])) };

    /// The rows with their coefficients times a number, or the first product that is out of range.
    fn times(self, by: i128) -> Result<Self, Overflow>
    where
        Self: Sized,
        requires factor_in { IsCoefficient by }
        requires in_range { All IsCoefficient (numbers self) }
        ensures in_range { IfOk result (λ v. All IsCoefficient (numbers v)) }
        ensures kept { IfOk result (λ v. (rows : List Row) → self ≡ of rows → v ≡ of (map (multiplied_row by) rows)) }
        ensures exact { MatchResult result (λ v. first_overflow (products_by by (numbers self)) ≡ None)
            (λ o. first_overflow (products_by by (numbers self)) ≡ Some o) };

    // The coefficients are those of the rows.
    ghost of_rows: { (rows : List Row) → numbers (of rows) ≡ coefficients rows };
}

impl RowStore for Listing<Row> {
    ghost of = { λ rows. rows };

    ghost numbers = { coefficients };

    fn push(&mut self, row: Row) -> Result<(), AllocError> {
        Ok(self.push(row)?)
    }

    fn times(self, by: i128) -> Result<Listing<Row>, Overflow> {
        multiply_rows(self, by)
    }

    ghost of_rows = { λ rows. refl };
}

impl RowStore for Listing<i128> {
    ghost of = { coefficients };

    ghost numbers = { λ numbers. numbers };

    fn push(&mut self, row: Row) -> Result<(), AllocError> {
        Ok(self.push(row.coef)?)
    }

    fn times(self, by: i128) -> Result<Listing<i128>, Overflow> {
        multiply_numbers(self, by)
    }

    ghost of_rows = { λ rows. refl };
}
