//! A polynomial while it is added up: a term that is added costs a look-up, and never a pass over the sum so far.
ghost use Rattle.std.specs.Prelude.{◌≡◌, [], IfOk, OnOk, MatchResult, Ok};
ghost use Rattle.coef_int.specs.Range.{IsCoefficient};
ghost use Rattle.nc_polynomial.specs.Arithmetic.{sum_result};
ghost use Rattle.nc_polynomial.specs.Faults.{Explains};
ghost use Rattle.nc_polynomial.specs.Product.{product_step};
ghost use Rattle.nc_polynomial.specs.Shape.{IsCanonical};

use crate::product::moved_multiple;
use crate::table::{add_within, descending};
use crate::{Poly, PolyFault};
use std::alloc::{AllocError, Global};
use std::collections::BTreeMap;
use std::marker::Model;
use word_core::Word;

/// A sum of polynomials so far, which contracts see as its terms, descending.
#[derive(Drop)]
pub struct RunningSum {
    table: BTreeMap<Word, i128>,
}

impl Model for RunningSum {
    ghost use Rattle.std.specs.Prelude.{List};
    ghost use Rattle.std.specs.BTreeMap.{IsOrdered};
    ghost use Rattle.word_core.specs.Canonical.{word_cmp};
    ghost use Rattle.definitions.specs.Poly.{Term};

    ghost Value = { List Term };

    ghost use Rattle.nc_polynomial.specs.Running.{IsRunning, terms_in};

    ghost view = { λ s. terms_in s.table };

    ghost invariant = { λ s. IsOrdered word_cmp s.table × IsRunning s.table };
}

impl RunningSum {
    /// The sum zero.
    pub fn new(alloc: Global) -> RunningSum
        ensures { result ≡ [] }
    {
        RunningSum {
            table: BTreeMap::new(alloc),
        }
    }

    /// Adds a polynomial, whose words are moved and not copied. The coefficients of the sum so far are the left
    /// operands. `Overflow` is the first sum, in descending order, that is no coefficient; `Size` is returned exactly
    /// where none is and the sum has too many terms. After a fault the sum must not be used.
    pub fn add(&mut self, poly: Poly) -> Result<(), PolyFault>
        requires { IsCanonical self.old }
        ensures exact { MatchResult result (λ _. sum_result self.old poly.terms ≡ Ok self.new) (Explains (sum_result self.old poly.terms)) }
        ensures canonical { OnOk result (IsCanonical self.new) }
    {
        add_within(&mut self.table, poly.terms)
    }

    /// Adds a coefficient times a polynomial with a word on its left. `Size` is returned first, where a word of
    /// the product is too long; then the faults are those of `combine`, by the factors 1 and `coefficient`.
    /// After a fault the sum must not be used.
    pub fn add_moved(
        &mut self,
        coefficient: i128,
        word: &Word,
        poly: &Poly,
    ) -> Result<(), PolyFault>
        requires coefficient { IsCoefficient coefficient }
        requires canonical { IsCanonical self.old }
        ensures exact { MatchResult result (λ _. product_step self.old (coefficient, word.now) poly.now.terms ≡ Ok self.new)
            (Explains (product_step self.old (coefficient, word.now) poly.now.terms)) }
        ensures canonical { OnOk result (IsCanonical self.new) }
    {
        let multiple = moved_multiple(coefficient, word, poly)?;
        add_within(&mut self.table, multiple)
    }

    /// The polynomial of the sum, whose words are moved and not copied.
    pub fn into_poly(self, alloc: Global) -> Result<Poly, AllocError>
        requires { IsCanonical self }
        ensures { IfOk result (λ p. p.terms ≡ self) }
    {
        let terms = descending(alloc, self.table)?;
        Ok(Poly { terms })
    }
}
