//! Whether models are looked for in a shape.
ghost use Rattle.std.specs.Prelude.{◌≡◌, ◌≤◌, ◌^◌, ◌↔◌, length, IfErr, IsTrue, OnOk};
ghost use Rattle.adjoint_rules.specs.Problem.{IsSide, IsShape};
ghost use Rattle.model_candidates.specs.Shapes.{RefusesShape};

use crate::ShapeFault;
use adjoint_rules::{SHAPE_SIDE_LIMIT, Shape, is_field_modulus};
use word_core::Object;

/// Whether the modulus is one of 2, 3, 5, 7, 101, 32003 and 65537, and each side from 1 to 6. There are at most 65,536 sides.
///
/// `BadModulus` comes exactly where the modulus is none of these, and `BadSide` exactly where, else, a side isn't from 1 to 6,
/// with the first such object.
pub fn check_shape(shape: &Shape) -> Result<(), ShapeFault>
    requires { length shape.now.sides ≤ 2 ^ 16 }
    ensures shape { OnOk result (IsShape (length shape.now.sides) shape.now) }
    ensures refused { IfErr result (RefusesShape shape.now) }
{
    if !is_field_modulus(u128::from(shape.modulus)) {
        return Err(ShapeFault::BadModulus);
    }
    for (place, side) in shape.sides.as_slice().iter().enumerate() {
        if !is_side(*side) {
            let object = Object(place as u16);
            return Err(ShapeFault::BadSide { object });
        }
    }
    Ok(())
}

// Whether it is from 1 to the limit.
fn is_side(side: u32) -> bool
    ensures { IsTrue result ↔ IsSide side }
{
    (1..=SHAPE_SIDE_LIMIT).contains(&side)
}
