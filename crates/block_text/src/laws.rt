//! The laws of polynomials in evidence text. They have nothing to run.
ghost use Rattle.block_text.specs.PolynomialBack.{PolynomialsAreReadBack};
ghost use Rattle.block_text.specs.PolynomialFlaws.{PolynomialLinesAreRead, PolynomialFlawsAreTold};

/// A line is read as the polynomial that it spells within all bounds, and no other line is.
pub fn polynomial_lines_are_read()
    ensures { PolynomialLinesAreRead }
{}

/// A line is refused for its first flaw, and for no other.
pub fn polynomial_flaws_are_told()
    ensures { PolynomialFlawsAreTold }
{}

/// A polynomial that is written is what its line spells.
pub fn polynomials_are_read_back()
    ensures { PolynomialsAreReadBack }
{}
