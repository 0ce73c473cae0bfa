//! Coefficients: integers from -(2^127 - 1) to 2^127 - 1, with exact sums and products or the overflow.
#![tactic(auto)]

ghost use Rattle.std.specs.Prelude.{◌≡◌, ◌<◌, ◌^◌, ◌+ℤ◌, ◌*ℤ◌, ◌↔◌, pos, IfOk, IfErr, IsOk, neg_ℤ, true, false};
ghost use Rattle.std.specs.Int.RustNames.{unsigned_abs};
ghost use Rattle.std.specs.Int.{IsGcd, IsNonNegative};
ghost use Rattle.coef_int.specs.Range.{IsCoefficient};

mod laws;
mod quotients;

pub use laws::divisors_are_greatest;
pub use quotients::{divisor, quotient};
use thiserror::Error;

/// A product or sum that is no coefficient, with both its operands.
#[derive(Clone, Copy, Debug, PartialEq, Eq, Error)]
#[error("{left} {} {right} is no coefficient", if *product {"times"} else {"plus"})]
pub struct Overflow {
    /// The operand on the left of the sign.
    pub left: i128,
    /// The operand on its right.
    pub right: i128,
    /// Whether it is a product, and not a sum.
    pub product: bool,
}

/// The product of two coefficients, or its overflow exactly where it is no coefficient.
pub fn times(left: i128, right: i128) -> Result<i128, Overflow>
    requires left_in { IsCoefficient left }
    requires right_in { IsCoefficient right }
    ensures exact { IfOk result (λ product. product ≡ left *ℤ right) }
    ensures fits { IsOk result ↔ IsCoefficient (left *ℤ right) }
    ensures operands { IfErr result (λ e. e ≡ record { left = left; right = right; product = true }) }
{
    match left.checked_mul(right) {
        Some(product) if product != i128::MIN => Ok(product),
        _ => Err(Overflow {
            left,
            right,
            product: true,
        }),
    }
}

/// The sum of two coefficients, or its overflow exactly where it is no coefficient.
pub fn plus(left: i128, right: i128) -> Result<i128, Overflow>
    requires left_in { IsCoefficient left }
    requires right_in { IsCoefficient right }
    ensures exact { IfOk result (λ sum. sum ≡ left +ℤ right) }
    ensures fits { IsOk result ↔ IsCoefficient (left +ℤ right) }
    ensures operands { IfErr result (λ e. e ≡ record { left = left; right = right; product = false }) }
{
    match left.checked_add(right) {
        Some(sum) if sum != i128::MIN => Ok(sum),
        _ => Err(Overflow {
            left,
            right,
            product: false,
        }),
    }
}

/// The negative of a coefficient, which is a coefficient.
pub fn negate(value: i128) -> i128
    requires { IsCoefficient value }
    ensures exact { result ≡ neg_ℤ value }
    ensures in_range { IsCoefficient result }
{
    -value
}

fn gcd_of(mut left: u128, mut right: u128) -> u128
    requires left_in { left < 2 ^ 127 }
    requires right_in { right < 2 ^ 127 }
    ensures divisor { IsGcd left right result }
    ensures bound { result < 2 ^ 127 }
{
    while right != 0 {
        let rest = left % right;
        left = right;
        right = rest;
    }
    left
}

/// The nonnegative greatest common divisor; that of 0 and 0 is 0.
pub fn gcd(left: i128, right: i128) -> i128
    requires left_in { IsCoefficient left }
    requires right_in { IsCoefficient right }
    ensures divisor { IsGcd (unsigned_abs left) (unsigned_abs right) (unsigned_abs result) }
    ensures sign { IsNonNegative result }
    ensures bound { IsCoefficient result }
{
    gcd_of(left.unsigned_abs(), right.unsigned_abs()) as i128
}
