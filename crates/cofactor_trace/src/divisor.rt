//! Common divisors and multiples, and division of an expansion by its common divisor.
ghost use Rattle.std.specs.Prelude.{◌≡◌, ◌<ℤ◌, ◌∷◌, [], pos, map, Some, None, IfOk, MatchResult};
ghost use Rattle.std.specs.List.{All};
ghost use Rattle.coef_int.specs.Range.{IsCoefficient};
ghost use Rattle.coef_int.specs.Operations.{first_overflow};
ghost use Rattle.cofactor_trace.specs.Expansion.{content_of, divided_row, lcm_of, multiple_products, primitive};
ghost use Rattle.cofactor_trace.specs.Ranges.{IsRanged};

use crate::{CertRow, Cofactors};
use coef_int::{Overflow, divisor, quotient, times};
use lists::Listing;
use std::alloc::{AllocError, Global};

// The least common multiple of two numbers.
pub(crate) fn raise(common: i128, scale: i128) -> Result<i128, Overflow>
    requires common_in { IsCoefficient common }
    requires common_positive { pos 0 <ℤ common }
    requires scale_in { IsCoefficient scale }
    requires scale_positive { pos 0 <ℤ scale }
    ensures exact { MatchResult result (λ d. (first_overflow (multiple_products common (scale ∷ [])) ≡ None) × (d ≡ lcm_of common scale))
        (λ o. first_overflow (multiple_products common (scale ∷ [])) ≡ Some o) }
    ensures in_range { IfOk result IsCoefficient }
    ensures positive { IfOk result (λ d. pos 0 <ℤ d) }
{
    let by = divisor(common, scale);
    times(common, quotient(scale, by))
}

// The greatest common divisor of the denominator and the coefficients.
fn content(denominator: i128, rows: &[CertRow]) -> i128
    requires positive { pos 0 <ℤ denominator }
    requires denominator_in { IsCoefficient denominator }
    requires coefficients_in { All (λ r. IsCoefficient r.coef) rows.now }
    ensures same { result ≡ content_of denominator rows.now }
    ensures in_range { IsCoefficient result }
    ensures positive { pos 0 <ℤ result }
{
    let mut content = denominator;
    for row in rows {
        content = divisor(content, row.coef);
    }
    content
}

// The rows with their coefficients divided.
fn divide_rows(
    alloc: Global,
    rows: Listing<CertRow>,
    by: i128,
) -> Result<Listing<CertRow>, AllocError>
    requires by_in { pos 0 <ℤ by }
    requires coefficients_in { All (λ r. IsCoefficient r.coef) rows }
    ensures same { IfOk result (λ v. v ≡ map (divided_row by) rows) }
    ensures in_range { IfOk result (All (λ r. IsCoefficient r.coef)) }
{
    let mut divided = Listing::new(alloc);
    for row in rows.into_vec() {
        let CertRow {
            coef,
            left,
            generator,
            right,
        } = row;
        divided.push(CertRow {
            coef: quotient(coef, by),
            left,
            generator,
            right,
        })?;
    }
    Ok(divided)
}

// The denominator and the rows, divided by their greatest common divisor.
pub(crate) fn primitive(
    alloc: Global,
    denominator: i128,
    rows: Listing<CertRow>,
) -> Result<Cofactors, AllocError>
    requires positive { pos 0 <ℤ denominator }
    requires denominator_in { IsCoefficient denominator }
    requires coefficients_in { All (λ r. IsCoefficient r.coef) rows }
    ensures ranged { IfOk result IsRanged }
    ensures same { IfOk result (λ c. c ≡ primitive denominator rows) }
{
    let by = content(denominator, rows.as_slice());
    Ok(Cofactors {
        denominator: quotient(denominator, by),
        rows: divide_rows(alloc, rows, by)?,
    })
}
