//! The law of the greatest common divisor.
ghost use Rattle.coef_int.specs.Laws.{DivisorsAreGreatest};

/// The greatest common divisor of two integers divides both and isn't negative, and each common divisor divides it.
pub fn divisors_are_greatest()
    ensures { DivisorsAreGreatest }
{}
