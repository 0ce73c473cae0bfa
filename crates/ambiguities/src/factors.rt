//! The factors that make two leading coefficients equal.

ghost use Rattle.std.specs.Prelude.{◌≡◌, ◌<ℤ◌, pos, int_div};
ghost use Rattle.coef_int.specs.Range.{IsCoefficient};
ghost use Rattle.coef_int.specs.Divisor.{gcd_of};

use coef_int::{divisor, quotient};

// The least positive integers that make the two numbers equal: each is the other number divided by their greatest common
// divisor.
pub(crate) fn factors(first: i128, second: i128) -> (i128, i128)
    requires first_in { IsCoefficient first }
    requires second_in { IsCoefficient second }
    requires positive { pos 0 <ℤ second }
    ensures of_first { result.0 ≡ int_div second (gcd_of first second) }
    ensures of_second { result.1 ≡ int_div first (gcd_of first second) }
    ensures first_in { IsCoefficient result.0 }
    ensures second_in { IsCoefficient result.1 }
{
    let shared = divisor(first, second);
    (quotient(second, shared), quotient(first, shared))
}
