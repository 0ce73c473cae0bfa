//! The limits on the size of a polynomial.
ghost use Rattle.std.specs.Prelude.{◌≡◌, ◌≤◌, MatchResult, Ok, Err, length};
ghost use Rattle.definitions.specs.Poly.{poly_between};
ghost use Rattle.nc_polynomial.specs.Faults.{sized, has_long_word};
ghost use Rattle.nc_polynomial.specs.Limits.{term_limit};
ghost use Rattle.nc_polynomial.specs.declared.fault.PolyFault.TheVariants as fault;

use crate::SizeFault;
use word_core::Word;

/// The greatest number of letters of a word of a polynomial.
pub const WORD_LIMIT: usize = 500;

/// The greatest number of terms of a polynomial.
pub const TERM_LIMIT: usize = 20_000;

/// Refuses a polynomial in which a word has more than 500 letters, or else one of more than 20,000 terms.
pub fn check_size(terms: &[(i128, Word)]) -> Result<(), SizeFault>
    ensures { MatchResult result (λ _. sized terms.now ≡ Ok terms.now) (λ e. sized terms.now ≡ Err (fault.Size e)) }
{
    if has_long_word(terms) {
        return Err(SizeFault { letters: true });
    }
    if terms.len() > TERM_LIMIT {
        return Err(SizeFault { letters: false });
    }
    Ok(())
}

fn has_long_word(terms: &[(i128, Word)]) -> bool
    ensures { result ≡ has_long_word terms.now }
{
    for term in terms {
        if term.1.len() > WORD_LIMIT {
            return true;
        }
    }
    false
}

// Refuses a polynomial that, with these words on the left and on the right of each word, is too large.
pub(crate) fn check_moved(
    left: &Word,
    terms: &[(i128, Word)],
    right: &Word,
) -> Result<(), SizeFault>
    requires { length terms.now ≤ term_limit }
    ensures { MatchResult result (λ _. sized (poly_between left.now terms.now right.now) ≡ Ok (poly_between left.now terms.now right.now))
        (λ e. sized (poly_between left.now terms.now right.now) ≡ Err (fault.Size e)) }
{
    let around = left.len().saturating_add(right.len());
    for term in terms {
        if term.1.len().saturating_add(around) > WORD_LIMIT {
            return Err(SizeFault { letters: true });
        }
    }
    Ok(())
}
