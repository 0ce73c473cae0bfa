//! Overlaps of words, declarations that a quiver refuses, and adjoints of words.
ghost use Rattle.std.specs.Prelude.{◌≡◌, IsTrue};
ghost use Rattle.quiver.specs.Declarations.{object_count};
ghost use Rattle.word_core.specs.Letters.{IsOver};

use crate::comparing::equal;
use crate::notation::word;
use adjoint_rules::adjoint_word;
use lists::Stop;
use quiver::{Quiver, QuiverFault};
use std::alloc::Global;
use std::process::Abort;
use word_core::{Object, Word};

// Two words, and the lengths of what is an end of the first and a beginning of the second.
const OVERLAPS: &[(&str, &str, &[usize])] = &[
    ("bab", "bab", &[2]),
    ("bbb", "bbb", &[1, 2]),
    ("dbc", "bc", &[]),
    ("dbc", "bce", &[1]),
    ("", "b", &[]),
];

#[test]
fn overlaps_are_proper(rt: HostRuntime) {
    for (left, right, want) in OVERLAPS {
        let first = word(&rt, rt.alloc(), left);
        let second = word(&rt, rt.alloc(), right);
        let places = first.overlaps(&second).expect(&rt, "memory");
        equal(&rt, &places.as_slice(), want, left);
    }
}

// The objects U and V with the letters 0 and 1, and the maps a : U -> V and x : V -> U with the letters 2 and 4.
fn two_maps(rt: &impl Abort, alloc: Global) -> Quiver
    ensures { object_count result ≡ 2 }
{
    let mut quiver = Quiver::new(alloc).expect(rt, "memory");
    let source = quiver.add_object("U").expect(rt, "U");
    let target = quiver.add_object("V").expect(rt, "V");
    quiver.add_map("a", source, target, false).expect(rt, "a");
    quiver.add_map("x", target, source, false).expect(rt, "x");
    quiver
}

#[test]
fn names_are_declared_once_and_loops_alone_are_their_own_adjoints(rt: HostRuntime) {
    let mut quiver = two_maps(&rt, rt.alloc());
    let no_loop = quiver.add_map("p", Object(0), Object(1), true);
    assert!(rt; matches!(no_loop, Err(Stop::Fault(QuiverFault::NotSquare))));
    let again = quiver.add_object("a");
    assert!(rt; matches!(again, Err(Stop::Fault(QuiverFault::DoubleName))));
}

// Whether each letter of the word has a number below this one.
fn is_over(word: &Word, letters: u32) -> bool
    ensures { IsTrue result → IsOver letters word.now }
{
    for place in 0..word.len() {
        if u32::from(word.letter(place).0) >= letters {
            return false;
        }
    }
    true
}

// That of a x is x' a'.
#[test]
fn an_adjoint_reverses_a_word(rt: HostRuntime) {
    let quiver = two_maps(&rt, rt.alloc());
    let path = word(&rt, rt.alloc(), "ce");
    assert!(rt;
        is_over(&path, quiver.letters()),
        "a letter is not of the quiver"
    );
    let adjoint = adjoint_word(rt.alloc(), &quiver, &path).expect(&rt, "memory");
    equal(
        &rt,
        &adjoint,
        &word(&rt, rt.alloc(), "fd"),
        "the adjoint of a x",
    );
}
