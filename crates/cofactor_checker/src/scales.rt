//! The scales of items and of a goal: whether they are positive, and whether they divide the denominator.
ghost use Rattle.std.specs.Prelude.{◌≡◌, ◌≤◌, ◌+◌, ◌⊎◌, ◌↔◌, ℤ, ◌≤ℤ◌, pos, length, All, IsTrue, IfSome, IfNone};
ghost use Rattle.std.specs.Int.{◌∣◌};
ghost use Rattle.std.specs.Int.RustNames.{unsigned_abs};
ghost use Rattle.cofactor_checker.specs.LemmaAcceptance.{HasScale, IsTight};
ghost use Rattle.cofactor_checker.specs.Starts.{ArePositive, AreTight, IsLoose, IsLooseItem};

use traced_rows::Lemma;

/// Whether a number divides another.
pub fn divides(by: i128, value: i128) -> bool
    requires { pos 1 ≤ℤ by }
    ensures { IsTrue result ↔ unsigned_abs by ∣ unsigned_abs value }
{
    value.unsigned_abs() % by.unsigned_abs() == 0
}

/// What may have a scale.
pub trait Scaled: Drop {
    // The scale, if there is one, is at least 1.
    ghost positive: { Self → Type 0 };

    // The scale, if there is one, divides the number.
    ghost tight: { ℤ → Self → Type 0 };

    /// Whether the scale, if there is one, is at least 1.
    fn is_positive(&self) -> bool
        ensures { IsTrue result ↔ positive self.now };

    /// Whether the scale, if there is one, divides the denominator.
    fn is_tight(&self, denominator: i128) -> bool
        requires { positive self.now }
        ensures { IsTrue result ↔ tight denominator self.now };
}

impl Scaled for Lemma {
    ghost positive = { HasScale };

    ghost tight = { IsTight };

    fn is_positive(&self) -> bool {
        self.scale >= 1
    }

    fn is_tight(&self, denominator: i128) -> bool {
        divides(self.scale, denominator)
    }
}

// Whether the scale of each item is at least 1.
fn have_scales<I: Scaled>(items: &[I]) -> bool
    ensures { IsTrue result ↔ All I.positive items.now }
{
    for item in items {
        if !item.is_positive() {
            return false;
        }
    }
    true
}

// The number of the first item whose scale doesn't divide the denominator.
fn first_loose<I: Scaled>(denominator: i128, items: &[I]) -> Option<u32>
    requires scales { All I.positive items.now }
    requires count { length items.now ≤ 4294967295 }
    ensures loose { IfSome result (IsLooseItem (I.tight denominator) items.now) }
    ensures tight { IfNone result (All (I.tight denominator) items.now) }
{
    let mut number = 0u32;
    for item in items {
        number += 1;
        if !item.is_tight(denominator) {
            return Some(number);
        }
    }
    None
}

/// Whether the denominator and all scales are at least 1.
pub(crate) fn are_positive<I: Scaled>(denominator: i128, items: &[I], goal: &Lemma) -> bool
    ensures { IsTrue result ↔ ArePositive I.positive denominator items.now goal.now }
{
    denominator >= 1 && have_scales(items) && goal.scale >= 1
}

/// The number of the first item whose scale doesn't divide the denominator, or 0 for the goal.
pub(crate) fn loose_scale<I: Scaled>(denominator: i128, items: &[I], goal: &Lemma) -> Option<u32>
    requires positive { ArePositive I.positive denominator items.now goal.now }
    requires count { length items.now ≤ 4294967295 }
    ensures loose { IfSome result (IsLoose (I.tight denominator) items.now (IsTight denominator goal.now)) }
    ensures tight { IfNone result (AreTight (I.tight denominator) items.now (IsTight denominator goal.now)) }
{
    if let Some(number) = first_loose(denominator, items) {
        return Some(number);
    }
    if divides(goal.scale, denominator) {
        None
    } else {
        Some(0)
    }
}
