//! Sums, differences and multiples of polynomials.
ghost use Rattle.std.specs.Prelude.{◌≡◌, negsuc, IfOk, MatchResult, Ok};
ghost use Rattle.coef_int.specs.Range.{IsCoefficient};
ghost use Rattle.definitions.specs.Poly.{SamePolynomial, poly_sum, poly_multiple};
ghost use Rattle.nc_polynomial.specs.Faults.{Explains};
ghost use Rattle.nc_polynomial.specs.Arithmetic.{sum_result, difference_result, multiple_result, combined};

use crate::multiples::{kept_terms, merge_multiples};
use crate::{Poly, PolyFault, scale_terms};

impl Poly {
    /// The sum, in which the coefficients of this polynomial are the left operands. `Overflow` is the first
    /// sum, in descending order, that is no coefficient; `Size` is returned exactly where none is and the sum is
    /// too large.
    pub fn add(&self, other: &Poly) -> Result<Poly, PolyFault>
        ensures exact { MatchResult result (λ r. sum_result self.now.terms other.now.terms ≡ Ok r.terms)
            (Explains (sum_result self.now.terms other.now.terms)) }
        ensures sum { IfOk result (λ r. SamePolynomial r.terms (poly_sum self.now.terms other.now.terms)) }
    {
        Poly::combine(1, self, 1, other)
    }

    /// The difference: the sum with the negated coefficients of the other polynomial.
    pub fn subtract(&self, other: &Poly) -> Result<Poly, PolyFault>
        ensures exact { MatchResult result (λ r. difference_result self.now.terms other.now.terms ≡ Ok r.terms)
            (Explains (difference_result self.now.terms other.now.terms)) }
        ensures difference { IfOk result (λ r. SamePolynomial r.terms (poly_sum self.now.terms (poly_multiple (negsuc 0) other.now.terms))) }
    {
        Poly::combine(1, self, -1, other)
    }

    /// The multiple by a coefficient, which is the left operand of each product. `Overflow` is the first
    /// product, in descending order, that is no coefficient.
    pub fn scale(&self, by: i128) -> Result<Poly, PolyFault>
        requires { IsCoefficient by }
        ensures exact { MatchResult result (λ r. multiple_result by self.now.terms ≡ Ok r.terms) (Explains (multiple_result by self.now.terms)) }
        ensures multiple { IfOk result (λ r. SamePolynomial r.terms (poly_multiple by self.now.terms)) }
    {
        let alloc = self.terms.allocator();
        Poly::from_descending(scale_terms(alloc, by, self.terms.as_slice())?)
    }

    /// The polynomial `a p + b q`. `Overflow` is the first operation whose result is no coefficient, of the
    /// products of `p` in descending order, then those of `q`, then the sums; `Size` is returned exactly where
    /// none is and the result is too large.
    pub fn combine(a: i128, p: &Poly, b: i128, q: &Poly) -> Result<Poly, PolyFault>
        requires left_in { IsCoefficient a }
        requires right_in { IsCoefficient b }
        ensures exact { MatchResult result (λ r. combined a p.now.terms b q.now.terms ≡ Ok r.terms) (Explains (combined a p.now.terms b q.now.terms)) }
        ensures combination { IfOk result (λ r. SamePolynomial r.terms (poly_sum (poly_multiple a p.now.terms) (poly_multiple b q.now.terms))) }
    {
        let left = kept_terms(a, p.terms.as_slice())?;
        let right = kept_terms(b, q.terms.as_slice())?;
        Poly::from_descending(merge_multiples(p.terms.allocator(), a, left, b, right)?)
    }
}
