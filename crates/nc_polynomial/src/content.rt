//! Common divisors of the coefficients of a polynomial.
ghost use Rattle.std.specs.Prelude.{◌≡◌, ◌≢◌, ◌↔◌, [], pos, IfOk};
ghost use Rattle.std.specs.Int.RustNames.{unsigned_abs};
ghost use Rattle.coef_int.specs.Range.{IsCoefficient};
ghost use Rattle.definitions.specs.Poly.{poly_multiple};
ghost use Rattle.nc_polynomial.specs.Content.{IsContent, DividesEach};

use crate::Poly;
use lists::Listing;
use std::alloc::AllocError;

impl Poly {
    /// The greatest common divisor of the coefficients, which is not negative. It is 0 only for zero.
    pub fn content(&self) -> i128
        ensures exact { IsContent self.now.terms result }
        ensures zero { (result ≡ pos 0) ↔ (self.now.terms ≡ []) }
        ensures in_range { IsCoefficient result }
    {
        let mut divisor = 0;
        for term in self.terms.as_slice() {
            if divisor == 1 {
                return 1;
            }
            divisor = coef_int::gcd(divisor, term.0);
        }
        divisor
    }

    /// The polynomial divided by a number that divides each coefficient.
    pub fn divide(&self, by: i128) -> Result<Poly, AllocError>
        requires nonzero { by ≢ pos 0 }
        requires divides { DividesEach (unsigned_abs by) self.now.terms }
        ensures { IfOk result (λ r. poly_multiple by r.terms ≡ self.now.terms) }
    {
        let mut quotients = Listing::new(self.terms.allocator());
        for term in self.terms.as_slice() {
            quotients.push((term.0 / by, term.1.copy()?))?;
        }
        Ok(Poly { terms: quotients })
    }
}
