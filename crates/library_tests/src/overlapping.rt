//! Ambiguities of rules, their overlap words and their S-polynomials.
ghost use Rattle.std.specs.Prelude.{IfSome};
ghost use Rattle.ambiguities.specs.Ambiguities.{IsAmbiguity};

use crate::comparing::same;
use crate::notation::{Terms, write_sum};
use crate::rules::rules_of;
use ambiguities::{Ambiguity, Kind, between, overlap_word, s_poly};
use rule_reduce::Rules;
use std::alloc::AllocError;
use std::process::Abort;
use word_orders::DegLex;

// Rules, and what is told of their ambiguities: the rules, the kind and the place of each in their order, and then the overlap word
// of the first, and its S-polynomial with the rows.
const ROWS: &[(&[Terms], &str)] = &[
    // (b a b - a b a) a b less b a (b a b - a b a)
    (
        &[&[(1, "bab"), (-1, "aba")]],
        "1 1 overlap 2, Word { letters: [1, 0, 1, 0, 1] } \
         [(1, Word { letters: [1, 0, 0, 1, 0] }), (-1, Word { letters: [0, 1, 0, 0, 1] })] + \
         1 Word { letters: [] } 1 Word { letters: [0, 1] } + -1 Word { letters: [1, 0] } 1 Word { letters: [] }",
    ),
    (&[], "none"),
    // 2 (b b a - a) less b (2 b a - b)
    (
        &[&[(1, "bba"), (-1, "a")], &[(2, "ba"), (-1, "b")]],
        "1 2 inclusion 1, Word { letters: [1, 1, 0] } [(1, Word { letters: [1, 1] }), (-2, Word { letters: [0] })] + \
         2 Word { letters: [] } 1 Word { letters: [] } + -1 Word { letters: [1] } 2 Word { letters: [] }",
    ),
];

// Writes all ambiguities, and gives the first of them.
fn first(rt: &impl Abort, text: &mut String, rules: &Rules<DegLex>) -> Option<Ambiguity>
    ensures { IfSome result (IsAmbiguity rules.now.rules) }
{
    let found = between(rules, 0).expect(rt, "memory");
    for which in found.as_slice() {
        write_place(text, which).expect(rt, "memory");
    }
    if found.len() > 0 {
        Some(*found.at(0))
    } else {
        None
    }
}

fn write_place(text: &mut String, which: &Ambiguity) -> Result<(), AllocError> {
    let kind = match which.kind {
        Kind::Overlap => "overlap",
        Kind::Inclusion => "inclusion",
    };
    write!(text, "{} {} {kind} {}, ", which.i, which.j, which.place)
}

fn write_made(rt: &impl Abort, text: &mut String, rules: &Rules<DegLex>, which: &Ambiguity)
    requires { IsAmbiguity rules.now.rules which.now }
{
    let word = overlap_word(rules, which).expect(rt, "memory");
    write!(text, "{word:?} ").expect(rt, "memory");
    match &s_poly(rules, which) {
        Ok(made) => write_sum(rt, text, &made.poly, made.rows.as_slice()),
        Err(fault) => write!(text, "{fault:?}").expect(rt, "memory"),
    }
}

#[test]
fn ambiguities_and_s_polynomials_are_as_worked_out(rt: HostRuntime) {
    for (polys, want) in ROWS {
        let rules = rules_of(&rt, rt.alloc(), polys);
        let mut text = String::new(rt.alloc());
        match first(&rt, &mut text, &rules) {
            Some(which) => write_made(&rt, &mut text, &rules, &which),
            None => text.push_str("none").expect(&rt, "memory"),
        }
        same(&rt, text.as_str(), want, want);
    }
}
