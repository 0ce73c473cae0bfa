//! Laws of polynomials, which have nothing to run.
ghost use Rattle.nc_polynomial.specs.Shape.{CanonicalIsUnique};

/// A polynomial is determined by its coefficients. It has nothing to run.
#[tactic(auto, using(crate::proofs::Unique::canonical_unique))]
pub fn canonical_is_unique()
    ensures { CanonicalIsUnique }
{}
