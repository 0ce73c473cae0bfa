//! A row added to a running sum.
ghost use Rattle.std.specs.Prelude.{◌≡◌, OnOk, MatchResult, None};
ghost use Rattle.coef_int.specs.Operations.{first_overflow};
ghost use Rattle.coef_int.specs.Range.{IsCoefficient};
ghost use Rattle.definitions.specs.Poly.{poly_multiple, poly_between};
ghost use Rattle.cofactor_checker.specs.Operations.{adding_operations};
ghost use Rattle.nc_polynomial.specs.Shape.{IsShaped};
ghost use Rattle.cofactor_checker.specs.Running.{IsStoppedBy};
ghost use Rattle.cofactor_checker.specs.Table.{coefficient_at, IsTable, Adds};

use crate::table::{Key, add_term};
use coef_int::{Overflow, times};
use lists::Stop;
use std::collections::HashMap;
use word_core::Word;

/// Adds the row c l G r to the sum, where G has these terms.
pub(crate) fn add_row(
    sum: &mut HashMap<Key, i128>,
    coefficient: i128,
    left: &Word,
    terms: &[(i128, Word)],
    right: &Word,
) -> Result<(), Stop<Overflow>>
    requires coefficient { IsCoefficient coefficient }
    requires shaped { IsShaped terms.now }
    requires kept { IsTable sum.old }
    ensures kept { OnOk result (IsTable sum.new) }
    ensures added { OnOk result (Adds sum.old sum.new (poly_multiple coefficient (poly_between left.now terms.now right.now))) }
    ensures exact { let first = first_overflow (adding_operations (coefficient_at sum.old) coefficient left.now terms.now right.now) in
        MatchResult result (λ _. first ≡ None) (IsStoppedBy first) }
{
    for term in terms {
        let product = times(coefficient, term.0).map_err(Stop::Fault)?;
        let word = term.1.between(left, right)?;
        add_term(sum, product, word)?;
    }
    Ok(())
}
