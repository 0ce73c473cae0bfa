//! What the shapes of a problem may hold.

ghost use Rattle.std.specs.Prelude.{◌≡◌};
ghost use Rattle.definitions.specs.Moduli.{is_field_modulus};

/// Whether the modulus is one of 2, 3, 5, 7, 101, 32003 and 65537.
pub fn is_field_modulus(modulus: u128) -> bool
    ensures { result ≡ is_field_modulus modulus }
{
    matches!(modulus, 2 | 3 | 5 | 7 | 101 | 32003 | 65537)
}
