//! The values of literals, and the ranges that they have to be in.

ghost use Rattle.std.specs.Prelude.{◌≡◌};
ghost use Rattle.std.specs.Result.{result_err};
ghost use Rattle.definitions.specs.Moduli.{is_field_modulus};
ghost use Rattle.statement_tokens.specs.Fault.{placed};
ghost use Rattle.statement_names.specs.Faults.{is_between, number_fault, value_of};

use adjoint_rules::is_field_modulus;
use statement_syntax::Number;
use statement_tokens::{Fault, Placed};

/// The value of a literal, which has no sign.
pub fn value_of(number: &Number) -> u128
    ensures { result ≡ value_of number.now.value }
{
    let value = number.value;
    if value < 0 { 0 } else { value as u128 }
}

/// Refuses a literal that isn't from 1 to `most`.
pub fn check_count(most: u32, number: &Number) -> Result<(), Placed>
    ensures { result_err result ≡ number_fault (is_between 1 most (value_of number.now.value)) (placed Fault.BadNumber number.now.at) }
{
    let value = value_of(number);
    if 1 <= value && value <= u128::from(most) {
        return Ok(());
    }
    Err(Fault::BadNumber.at(number.at))
}

/// Refuses a literal that is no modulus of shapes.
pub fn check_modulus(number: &Number) -> Result<(), Placed>
    ensures { result_err result ≡ number_fault (is_field_modulus (value_of number.now.value)) (placed Fault.BadNumber number.now.at) }
{
    if is_field_modulus(value_of(number)) {
        return Ok(());
    }
    Err(Fault::BadNumber.at(number.at))
}
