//! How large a certificate with lemmas is, before any of its rows is made.
ghost use Rattle.std.specs.Prelude.{◌≡◌, ◌++◌, ◌∷◌, [], Some, None, MatchResult};
ghost use Rattle.cofactor_trace.specs.LemmaSizes.{extended, extended_all, no_extent, limit_of};
ghost use Rattle.cofactor_trace.specs.Naming.{records};

use crate::size::{LETTER_LIMIT, ROW_LIMIT};
use crate::{GatherFault, Made};

/// How many rows there are and how many letters they have. A count stops at the greatest number.
#[derive(Clone, Copy)]
pub(crate) struct Extent {
    pub rows: usize,
    pub letters: usize,
}

// With the rows of a record.
fn measure(extent: Extent, made: &Made) -> Extent
    ensures { result ≡ extended extent made.now }
{
    let mut letters = extent.letters;
    for row in made.rows.as_slice() {
        let with_left = letters.saturating_add(row.left.len());
        letters = with_left.saturating_add(row.right.len());
    }
    Extent {
        rows: extent.rows.saturating_add(made.rows.len()),
        letters,
    }
}

// Whether lemmas and goal are within the limits.
pub(crate) fn check_limits(lemmas: &[&Made], goal: &Made) -> Result<(), GatherFault>
    ensures { let first = limit_of (extended_all no_extent (records lemmas.now ++ goal.now ∷ [])) in
        MatchResult result (λ _. first ≡ None) (λ e. first ≡ Some e) }
{
    let mut extent = Extent {
        rows: 0,
        letters: 0,
    };
    for lemma in lemmas {
        extent = measure(extent, lemma);
    }
    extent = measure(extent, goal);
    if extent.rows > ROW_LIMIT {
        return Err(GatherFault::Rows { letters: false });
    }
    if extent.letters > LETTER_LIMIT {
        return Err(GatherFault::Rows { letters: true });
    }
    Ok(())
}
