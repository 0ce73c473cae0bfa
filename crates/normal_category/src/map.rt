//! The maps of the category, of which the program makes none.

use std::marker::Model;

/// A fraction: a sign, and the decimal digits of two numbers of any size, the last digit first.
#[derive(Drop)]
pub struct Fraction {
    negative: bool,
    top: Vec<u8>,
    bottom: Vec<u8>,
}

impl Model for Fraction {
    ghost use Rattle.normal_forms.specs.Fractions.{Fraction as Number};
    ghost use Rattle.normal_category.specs.Digits.{fraction_of};

    ghost Value = { Number };

    ghost view = { λ x. fraction_of x.negative x.top.items x.bottom.items };
}

/// A map between two objects: words with fractions.
#[derive(Drop)]
pub struct NormalMap {
    source: usize,
    target: usize,
    terms: Vec<(Fraction, Vec<u16>)>,
}

impl Model for NormalMap {
    ghost use Rattle.std.specs.Prelude.{map};
    ghost use Rattle.normal_forms.specs.Fractions.{Fraction as Number};
    ghost use Rattle.normal_forms.specs.Maps.{NormalMap as Map};

    ghost Value = { Map Number };

    ghost view = { λ m. record { source = m.source; target = m.target; form = map (λ t. (t.0, t.1.items)) m.terms.items } };
}
