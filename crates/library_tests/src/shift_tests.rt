//! Texts of shifts: what is written back of them, or their first fault.
ghost use Rattle.std.specs.Prelude.{◌<◌, length};

use crate::comparing::equal;
use crate::shift_test_rows::{BARE, FAULTS, READ, Row};
use crate::shifts::{put_shift, read_shifts};
use block_text::CertFault;
use quiver::Quiver;
use std::alloc::Global;
use std::process::Abort;

// The shifts of a text, written one after another, or its first fault.
fn written(
    rt: &impl Abort,
    alloc: Global,
    quiver: &Quiver,
    text: &[u8],
) -> Result<Vec<u8>, CertFault>
    requires { length text.now < 4294967295 }
{
    let shifts = read_shifts(alloc, text, quiver)?;
    let mut out = Vec::new(alloc);
    for shift in shifts.as_slice() {
        put_shift(&mut out, quiver, shift).expect(rt, "memory");
    }
    Ok(out)
}

// What is written back of the text, or its first fault.
fn told(rt: &impl Abort, alloc: Global, quiver: &Quiver, text: &[u8]) -> String {
    assert!(rt; text.len() < 100_000, "the text is too long for a test");
    match written(rt, alloc, quiver, text) {
        Ok(out) => String::from_utf8(out).expect(rt, "what is written"),
        Err(fault) => format!(in alloc; "{fault}").expect(rt, "memory"),
    }
}

// Asserts that each text is told of as its row says.
fn tell_all(rt: &impl Abort, alloc: Global, quiver: &Quiver, rows: &[Row]) {
    for (text, want) in rows {
        let got = told(rt, alloc, quiver, text.as_bytes());
        equal(rt, &got.as_str(), want, text);
    }
}

// The objects U and V, a map a from U to V, and a map p of V that is its own adjoint.
fn letters(rt: &impl Abort, alloc: Global) -> Quiver {
    let mut quiver = Quiver::new(alloc).expect(rt, "memory");
    let source = quiver.add_object("U").expect(rt, "U");
    let target = quiver.add_object("V").expect(rt, "V");
    quiver.add_map("a", source, target, false).expect(rt, "a");
    quiver.add_map("p", target, target, true).expect(rt, "p");
    quiver
}

#[test]
fn shifts_are_written_back_or_their_first_fault_told(rt: HostRuntime) {
    let quiver = letters(&rt, rt.alloc());
    tell_all(&rt, rt.alloc(), &quiver, READ);
    tell_all(&rt, rt.alloc(), &quiver, FAULTS);
}

#[test]
fn letters_of_shifts_are_those_of_the_quiver(rt: HostRuntime) {
    let bare = Quiver::new(rt.alloc()).expect(&rt, "memory");
    tell_all(&rt, rt.alloc(), &bare, BARE);
}
