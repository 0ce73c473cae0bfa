//! The stage of arithmetic: the polynomial of each equation, its left side less its right one.

ghost use Rattle.signature_typing.specs.Typing.{polynomial_stage};

use crate::TypeFault;
use crate::fault::polynomial_fault;
use crate::stage::Stage;
use expressions::equation_poly;
use lists::Listing;
use nc_polynomial::Poly;
use quiver::Quiver;
use statement_syntax::Sum;
use statement_tokens::Spot;
use std::alloc::Global;
use word_core::Word;

/// The polynomials of equations.
pub(crate) struct Polynomials;

impl Stage for Polynomials {
    type Value = Poly;

    type Said = Listing<(i128, Word)>;

    ghost made = { λ _. polynomial_stage };

    ghost said = { λ _ poly. poly.terms };

    fn value_of(
        &self,
        alloc: Global,
        quiver: &Quiver,
        at: Spot,
        left: &Sum,
        right: &Sum,
    ) -> Result<Poly, TypeFault> {
        match equation_poly(alloc, quiver, left, right) {
            Ok(poly) => Ok(poly),
            Err(fault) => Err(polynomial_fault(at, fault)),
        }
    }
}
