//! The greatest common divisor of two coefficients as a function of both, and quotients.
ghost use Rattle.std.specs.Prelude.{◌≡◌, ◌<ℤ◌, pos, int_div};
ghost use Rattle.coef_int.specs.Range.{IsCoefficient};
ghost use Rattle.coef_int.specs.Divisor.{gcd_of};

/// The greatest common divisor of two coefficients, which is not negative.
pub fn divisor(x: i128, y: i128) -> i128
    requires x_in { IsCoefficient x }
    requires y_in { IsCoefficient y }
    ensures same { result ≡ gcd_of x y }
    ensures in_range { IsCoefficient result }
    ensures positive { pos 0 <ℤ x → pos 0 <ℤ result }
    ensures positive_right { pos 0 <ℤ y → pos 0 <ℤ result }
{
    crate::gcd(x, y)
}

/// The quotient of a coefficient by a positive one, rounded towards zero.
pub fn quotient(value: i128, by: i128) -> i128
    requires value_in { IsCoefficient value }
    requires by_in { pos 0 <ℤ by }
    ensures same { result ≡ int_div value by }
    ensures in_range { IsCoefficient result }
{
    value / by
}
