//! The rows of a reduction, or their coefficients, times a number, in their place.

ghost use Rattle.std.specs.Prelude.{◌≡◌, ◌*ℤ◌, map, MatchResult, IfOk, Some, None};
ghost use Rattle.std.specs.List.{All};
ghost use Rattle.coef_int.specs.Range.{IsCoefficient};
ghost use Rattle.coef_int.specs.Operations.{first_overflow};
ghost use Rattle.rule_reduce.specs.Steps.{multiplied_row, row_operations};
ghost use Rattle.rule_reduce.specs.Stores.{products_by};

use coef_int::Overflow;
use lists::Listing;
use traced_rows::Row;

/// The rows with their coefficients times a number, which is the right operand of each product; or the first product that is
/// out of range.
pub fn multiply_rows(rows: Listing<Row>, by: i128) -> Result<Listing<Row>, Overflow>
    requires factor_in { IsCoefficient by }
    requires in_range { All (λ r. IsCoefficient r.coef) rows }
    ensures in_range { IfOk result (All (λ r. IsCoefficient r.coef)) }
    ensures value { IfOk result (λ v. v ≡ map (multiplied_row by) rows) }
    ensures exact { MatchResult result (λ v. first_overflow (row_operations rows by) ≡ None)
        (λ o. first_overflow (row_operations rows by) ≡ Some o) }
{
    let mut multiplied = rows.into_vec();
    for row in multiplied.iter_mut() {
        row.coef = coef_int::times(row.coef, by)?;
    }
    Ok(Listing::from_vec(multiplied))
}

/// The same for coefficients alone.
pub(crate) fn multiply_numbers(numbers: Listing<i128>, by: i128) -> Result<Listing<i128>, Overflow>
    requires factor_in { IsCoefficient by }
    requires in_range { All IsCoefficient numbers }
    ensures in_range { IfOk result (All IsCoefficient) }
    ensures value { IfOk result (λ v. v ≡ map (λ z. z *ℤ by) numbers) }
    ensures exact { MatchResult result (λ v. first_overflow (products_by by numbers) ≡ None)
        (λ o. first_overflow (products_by by numbers) ≡ Some o) }
{
    let mut multiplied = numbers.into_vec();
    for number in multiplied.iter_mut() {
        *number = coef_int::times(*number, by)?;
    }
    Ok(Listing::from_vec(multiplied))
}
