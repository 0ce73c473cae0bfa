//! The sum of rows compared with the multiple of a claim.
ghost use Rattle.std.specs.Prelude.{◌≡◌, ◌*ℤ◌, ◌<ℤ◌, pos, None, IfOk, Some};
ghost use Rattle.std.specs.List.{All};
ghost use Rattle.coef_int.specs.Operations.{first_overflow};
ghost use Rattle.coef_int.specs.Range.{IsCoefficient};
ghost use Rattle.definitions.specs.Poly.{coefficient_of};
ghost use Rattle.cofactor_checker.specs.Difference.{IsComparison};
ghost use Rattle.nc_polynomial.specs.Shape.{IsShaped};
ghost use Rattle.nc_polynomial.specs.Terms.{products};
ghost use Rattle.nc_polynomial.specs.Collected.{coefficient_in};
ghost use Rattle.cofactor_checker.specs.Running.{IsRunning};

use coef_int::{Overflow, times};
use std::alloc::AllocError;
use std::cmp::Ordering;
use std::collections::BTreeMap;
use word_core::Word;

/// The first product of the denominator with a coefficient that leaves the range.
pub fn overflow_of_multiple(denominator: i128, claim: &[(i128, Word)]) -> Option<Overflow>
    requires denominator { IsCoefficient denominator }
    requires coefficients { All (λ t. IsCoefficient t.0) claim.now }
    ensures { result ≡ first_overflow (products denominator claim.now) }
{
    for term in claim {
        if let Err(overflow) = times(denominator, term.0) {
            return Some(overflow);
        }
    }
    None
}

/// A word with one coefficient where another is wanted.
#[derive(Drop)]
pub(crate) struct Difference {
    pub word: Word,
    pub want: i128,
    pub got: i128,
}

/// The least word at which the sum isn't the denominator times the claim.
pub(crate) fn least_difference(
    sum: &BTreeMap<Word, i128>,
    denominator: i128,
    claim: &[(i128, Word)],
) -> Result<Option<Difference>, AllocError>
    requires running { IsRunning sum.now }
    requires shaped { IsShaped claim.now }
    requires denominator { pos 0 <ℤ denominator }
    requires products { first_overflow (products denominator claim.now) ≡ None }
    ensures { IfOk result (IsComparison (λ w. denominator *ℤ coefficient_of claim.now w) (coefficient_in sum.now)) }
{
    let mut rest = claim;
    for (word, coefficient) in sum {
        let got = *coefficient;
        let Some((term, greater)) = rest.split_last() else {
            return differs(word, 0, got);
        };
        let want = denominator * term.0;
        match word.cmp_degree(&term.1) {
            Ordering::Less => return differs(word, 0, got),
            Ordering::Greater => return differs(&term.1, want, 0),
            Ordering::Equal => {
                if want != got {
                    return differs(word, want, got);
                }
            }
        }
        rest = greater;
    }
    match rest.split_last() {
        Some((term, _)) => differs(&term.1, denominator * term.0, 0),
        None => Ok(None),
    }
}

fn differs(word: &Word, want: i128, got: i128) -> Result<Option<Difference>, AllocError>
    ensures { IfOk result (λ d. d ≡ Some (record { word = word.now; want = want; got = got })) }
{
    Ok(Some(Difference {
        word: word.copy()?,
        want,
        got,
    }))
}
