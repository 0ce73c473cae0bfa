//! Whether the drawn entries meet the linear assumptions in which no solved map stands.
ghost use Rattle.std.specs.Prelude.{◌↔◌, IsTrue};
ghost use Rattle.std.specs.List.{All};
ghost use Rattle.model_candidates.specs.Known.{IsKnown};
ghost use Rattle.model_candidates.specs.Plans.{IsAssumption, IsZeroAtSignature};
ghost use Rattle.model_candidates.specs.WordRows.{model_in};

use crate::plan::LinearAssumption;
use crate::solved_terms::Known;
use crate::value_rows::is_zero;

/// Whether the assumptions are zero in the model by the values.
pub(crate) fn are_zero(known: &Known, conditions: &[LinearAssumption]) -> bool
    requires known { IsKnown known.now }
    requires conditions { All (IsAssumption known.now.given.problem.now 0) conditions.now }
    ensures { IsTrue result ↔ All (IsZeroAtSignature known.now.given.problem.now (model_in known.now.given)) conditions.now }
{
    for place in 0..conditions.len() {
        if !is_condition_zero(known, conditions[place]) {
            return false;
        }
    }
    true
}

// Whether the assumption is.
fn is_condition_zero(known: &Known, condition: LinearAssumption) -> bool
    requires known { IsKnown known.now }
    requires condition { IsAssumption known.now.given.problem.now 0 condition }
    ensures { IsTrue result ↔ IsZeroAtSignature known.now.given.problem.now (model_in known.now.given) condition }
{
    let place = condition.place as usize;
    let poly = known.given.problem.parts.assumptions.at(place);
    let coefficients = known.coefficients[place].as_slice();
    is_zero(&known.given, poly, coefficients, condition.sig)
}
