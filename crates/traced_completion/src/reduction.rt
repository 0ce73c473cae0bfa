//! Reductions, with what a record needs of them.
ghost use Rattle.std.specs.Prelude.{◌≡◌, ◌<◌, length, MatchResult, IfOk, Ok};
ghost use Rattle.std.specs.List.{All};
ghost use Rattle.word_core.specs.Letters.{IsOver};
ghost use Rattle.rule_reduce.specs.NormalForms.{halt_of, normal_form_of};
ghost use Rattle.traced_completion.specs.Results.{Explains};
ghost use Rattle.traced_completion.specs.Reductions.{plain, IsKept};

use nc_polynomial::{Poly, PolyFault};
use rule_reduce::{ReduceFault, Reduced, Rules};
use word_orders::WordOrder;

// A fault of polynomial arithmetic as that of a reduction.
pub(crate) fn halt(fault: PolyFault) -> ReduceFault
    ensures { result ≡ halt_of fault }
{
    match fault {
        PolyFault::Overflow(overflow) => ReduceFault::Overflow(overflow),
        PolyFault::Size(size) => ReduceFault::Size(size),
        PolyFault::Memory(failed) => ReduceFault::Memory(failed),
    }
}

// The normal form of a polynomial in which no word is empty.
pub(crate) fn reduce<O: WordOrder + Drop>(
    rules: &Rules<O>,
    poly: &Poly,
    steps: u32,
) -> Result<Reduced, ReduceFault>
    requires over { All (λ t. IsOver (O.letters rules.now.order) t.1) poly.now.terms }
    requires nonempty { All (λ t. 0 < length t.1) poly.now.terms }
    ensures exact { MatchResult result (λ r. normal_form_of (O.compare rules.now.order) rules.now.rules poly.now.terms steps ≡ Ok (plain r))
        (Explains (normal_form_of (O.compare rules.now.order) rules.now.rules poly.now.terms steps)) }
    ensures kept { IfOk result (λ r. IsKept (O.letters rules.now.order) (length rules.now.rules) (plain r)) }
{
    rules.normal_form(poly, steps)
}
