//! Polynomials: their terms, and copies and comparisons of them.
ghost use Rattle.nc_polynomial.specs.Shape.{IsCanonical};

use crate::{PolyFault, check_size};
use lists::{Duplicate, Listing};
use std::alloc::{AllocError, Global};
use word_core::Word;

/// A polynomial with integer coefficients in letters that do not commute. Its terms, each a coefficient
/// and a word, descend strictly in the canonical order. No coefficient is zero.
#[derive(Drop)]
pub struct Poly {
    /// The terms, at most 20,000 of at most 500 letters each.
    pub terms: Listing<(i128, Word)>,
    pub ghost canonical: { IsCanonical terms },
}

impl Poly {
    ghost use Rattle.std.specs.Prelude.{◌≡◌, ◌<◌, ◌↔◌, [], length, IsTrue, IfOk, MatchResult, Ok, Some, slice_get};
    ghost use Rattle.definitions.specs.Poly.{SamePolynomial};
    ghost use Rattle.nc_polynomial.specs.Faults.{sized, Explains};
    ghost use Rattle.nc_polynomial.specs.Shape.{IsShaped};

    /// The polynomial zero. It takes no memory.
    pub fn zero(alloc: Global) -> Poly
        ensures { result.terms ≡ [] }
    {
        Poly {
            terms: Listing::new(alloc),
        }
    }

    /// The polynomial with these terms, which are moved and not copied. `Size` is returned exactly where
    /// there are too many or one is too long.
    pub fn from_descending(terms: Listing<(i128, Word)>) -> Result<Poly, PolyFault>
        requires { IsShaped terms }
        ensures { MatchResult result (λ p. sized terms ≡ Ok p.terms) (Explains (sized terms)) }
    {
        check_size(terms.as_slice())?;
        Ok(Poly { terms })
    }

    /// The number of terms.
    pub fn terms(&self) -> usize
        ensures { result ≡ length self.now.terms }
    {
        self.terms.len()
    }

    /// The coefficient and the word at this place, counted from 0 at the greatest word.
    pub fn term(&self, place: usize) -> (i128, &Word)
        requires { place < length self.now.terms }
        ensures { slice_get self.now.terms place ≡ Some (result.0, result.1.now) }
    {
        let term = self.terms.at(place);
        (term.0, &term.1)
    }

    /// A copy of the polynomial.
    pub fn copy(&self) -> Result<Poly, AllocError>
        ensures { IfOk result (λ p. p ≡ self.now) }
    {
        Ok(Poly {
            terms: self.terms.duplicate()?,
        })
    }

    /// Whether the two polynomials are the same: term by term, and so coefficient by coefficient.
    pub fn same(&self, other: &Poly) -> bool
        ensures terms { IsTrue result ↔ (self.now.terms ≡ other.now.terms) }
        ensures coefficients { IsTrue result ↔ SamePolynomial self.now.terms other.now.terms }
    {
        self.terms.as_slice() == other.terms.as_slice()
    }
}

impl Duplicate for Poly {
    fn duplicate(&self) -> Result<Poly, AllocError> {
        self.copy()
    }
}
