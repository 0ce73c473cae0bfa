//! Whether an adjoint is taken in an expression.
ghost use Rattle.std.specs.Prelude.{◌≡◌};
ghost use Rattle.std.specs.List.{list_any};
ghost use Rattle.abbreviations.specs.Occurrences.{is_adjoint, has_quote, has_quote_in_term, has_quote_in_primary};

use statement_syntax::{Mark, Primary, Sum, Term};

/// Whether a factor of the expression has a quote among its marks, and so an adjoint is taken.
#[cycle(marks)]
pub fn has_quote(sum: &Sum) -> bool
    ensures { result ≡ has_quote sum.now }
{
    for term in sum.terms.as_slice() {
        if has_quote_in_term(term) {
            return true;
        }
    }
    false
}

#[cycle(marks)]
fn has_quote_in_term(term: &Term) -> bool
    ensures { result ≡ has_quote_in_term term.now }
{
    for factor in term.factors.as_slice() {
        if has_quote_in_primary(&factor.primary) || has_adjoint(factor.marks.as_slice()) {
            return true;
        }
    }
    false
}

#[cycle(marks)]
fn has_quote_in_primary(primary: &Primary) -> bool
    ensures { result ≡ has_quote_in_primary primary.now }
{
    match primary {
        Primary::Letter(_) => false,
        Primary::Identity(_) => false,
        Primary::Bracket(sum) => has_quote(sum),
    }
}

fn has_adjoint(marks: &[Mark]) -> bool
    ensures { result ≡ list_any is_adjoint marks.now }
{
    for mark in marks {
        if is_adjoint(mark) {
            return true;
        }
    }
    false
}

fn is_adjoint(mark: &Mark) -> bool
    ensures { result ≡ is_adjoint mark.now }
{
    matches!(mark, Mark::Adjoint)
}
