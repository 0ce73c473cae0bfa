//! How large the rows of an expansion are, before any of them is made.
ghost use Rattle.std.specs.Prelude.{◌≡◌, ℤ, None, MatchResult, map};
ghost use Rattle.cofactor_trace.specs.Expansion.{joined_row};
ghost use Rattle.cofactor_trace.specs.Faults.{IsFirst};
ghost use Rattle.cofactor_trace.specs.Sizes.{measured, measured_all, limit_of};

use crate::{CertRow, ExpandFault, Row};
use nc_polynomial::WORD_LIMIT;

/// The greatest number of rows.
pub const ROW_LIMIT: usize = 200_000;

/// The greatest number of letters of all rows.
pub const LETTER_LIMIT: usize = 1_000_000;

/// Whether a word is too long, how many rows there are, and how many letters they have. A count stops at the greatest number.
#[derive(Clone, Copy)]
pub(crate) struct Size {
    pub long: bool,
    pub rows: usize,
    pub letters: usize,
}

// With the row of an expansion between the words of a row.
fn measure_row(size: Size, outer: &Row, inner: &CertRow) -> Size
    ensures { (k : ℤ) → result ≡ measured size (joined_row k outer.now inner.now) }
{
    let left = outer.left.len().saturating_add(inner.left.len());
    let right = inner.right.len().saturating_add(outer.right.len());
    Size {
        long: size.long || left > WORD_LIMIT || right > WORD_LIMIT,
        rows: size.rows.saturating_add(1),
        letters: size.letters.saturating_add(left).saturating_add(right),
    }
}

// With the rows of an expansion between the words of a row.
pub(crate) fn measure_joined(size: Size, outer: &Row, inner: &[CertRow]) -> Size
    ensures { (k : ℤ) → result ≡ measured_all size (map (joined_row k outer.now) inner.now) }
{
    let mut size = size;
    for row in inner {
        size = measure_row(size, outer, row);
    }
    size
}

// The first limit that is exceeded.
pub(crate) fn check_size(size: Size) -> Result<(), ExpandFault>
    ensures { MatchResult result (λ _. limit_of size ≡ None) (IsFirst (limit_of size)) }
{
    if size.long {
        return Err(ExpandFault::Size);
    }
    if size.rows > ROW_LIMIT {
        return Err(ExpandFault::Rows { letters: false });
    }
    if size.letters > LETTER_LIMIT {
        return Err(ExpandFault::Rows { letters: true });
    }
    Ok(())
}
