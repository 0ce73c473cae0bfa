//! Rules, and normal forms by them.
ghost use Rattle.std.specs.Prelude.{◌≤◌, ◌^◌};
ghost use Rattle.std.specs.List.{All};
ghost use Rattle.word_core.specs.Letters.{IsOver};

use crate::comparing::same;
use crate::notation::{Terms, poly, write_sum};
use nc_polynomial::Poly;
use rule_reduce::{ReduceFault, Reduced, Rules};
use std::alloc::Global;
use std::process::Abort;
use word_core::Word;
use word_orders::{DegLex, WordOrder};

/// Reads the letters of the terms. Those of every word are below 2^16, and so below the number of letters of the order.
fn read_letters<O: WordOrder>(order: &O, terms: &[(i128, Word)])
    requires { 2 ^ 16 ≤ O.letters order.now }
    ensures { All (λ t. IsOver (O.letters order.now) t.1) terms.now }
{
    for term in terms {
        let _length = term.1.len();
    }
}

// Pushes a polynomial that may be pushed.
fn push(rt: &impl Abort, rules: &mut Rules<DegLex>, poly: Poly) {
    read_letters(&rules.order, poly.terms.as_slice());
    assert!(rt; rules.may_push(&poly), "the polynomial may not be pushed");
    rules.push(poly).expect(rt, "memory");
}

/// The rules of polynomials that may be pushed.
pub fn rules_of(rt: &impl Abort, alloc: Global, polys: &[Terms]) -> Rules<DegLex> {
    let mut rules = Rules::new(alloc, DegLex::new()).expect(rt, "memory");
    for terms in polys {
        push(rt, &mut rules, poly(rt, alloc, terms));
    }
    rules
}

// Writes the multiplier, the number of steps, the rest and the rows of a normal form, or why there is none.
fn write_form(rt: &impl Abort, text: &mut String, made: &Result<Reduced, ReduceFault>) {
    match made {
        Ok(form) => {
            write!(text, "{} {} ", form.multiplier, form.used).expect(rt, "memory");
            write_sum(rt, text, &form.rest, form.rows.as_slice());
        }
        Err(fault) => write!(text, "{fault:?}").expect(rt, "memory"),
    }
}

// What is told of a normal form by so many steps.
fn told(rt: &impl Abort, alloc: Global, rules: &Rules<DegLex>, terms: Terms, steps: u32) -> String {
    let poly = poly(rt, alloc, terms);
    read_letters(&rules.order, poly.terms.as_slice());
    let mut text = String::new(alloc);
    write_form(rt, &mut text, &rules.normal_form(&poly, steps));
    text
}

// A polynomial, the most steps, and what is told of its normal form by the rule 2 b - a.
type Row = (Terms, u32, &'static str);

const ROWS: &[Row] = &[
    (
        &[(3, "b")],
        1,
        "2 1 [(3, Word { letters: [0] })] + 3 Word { letters: [] } 1 Word { letters: [] }",
    ),
    (&[(3, "b")], 0, "Steps { limit: 0 }"),
    (&[(1, "a")], 0, "1 0 [(1, Word { letters: [0] })]"),
    (
        &[(i128::MAX, "b")],
        1,
        "Overflow(Overflow { left: 170141183460469231731687303715884105727, right: 2, product: true })",
    ),
];

#[test]
fn normal_forms_are_as_worked_out(rt: HostRuntime) {
    let rules = rules_of(&rt, rt.alloc(), &[&[(2, "b"), (-1, "a")]]);
    for (terms, steps, want) in ROWS {
        let got = told(&rt, rt.alloc(), &rules, terms, *steps);
        same(&rt, got.as_str(), want, want);
    }
}
