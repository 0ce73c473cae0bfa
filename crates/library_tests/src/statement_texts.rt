//! Statement texts: what is written back of them, and their first faults.
use crate::comparing::{equal, halves};
use crate::statement_rows::{
    FAULTS, LINES, LITERALS, MISFITS, NAMED, NOT_UTF8, SECOND_LANGUAGE, STATEMENTS,
};
use statement_syntax::{read_tree, write_tree};
use std::alloc::Global;
use std::process::Abort;

// The text that is written back, or the first fault.
fn written(rt: &impl Abort, alloc: Global, text: &[u8]) -> String {
    assert!(rt; text.len() < 100_000, "the text is too long for a test");
    match &read_tree(alloc, text) {
        Ok(tree) => {
            let written = write_tree(alloc, tree).expect(rt, "memory");
            String::from_utf8(written).expect(rt, "what is written")
        }
        Err(fault) => format!(in alloc; "{fault}\n").expect(rt, "memory"),
    }
}

// Asserts that this is written of the text.
fn tell_text(rt: &impl Abort, alloc: Global, text: &[u8], want: &str) {
    let got = written(rt, alloc, text);
    equal(rt, &got.as_str(), &want, want);
}

// Asserts that what is written of each text is as its row says.
fn tell_written(rt: &impl Abort, alloc: Global, rows: &str) {
    for row in rows.split("%\n") {
        let (text, want) = halves(rt, row);
        tell_text(rt, alloc, text.as_bytes(), want);
    }
}

#[test]
fn a_text_is_written_back_or_its_first_fault_told(rt: HostRuntime) {
    let alloc = rt.alloc();
    tell_written(&rt, alloc, STATEMENTS);
    tell_written(&rt, alloc, SECOND_LANGUAGE);
    tell_written(&rt, alloc, LINES);
    tell_written(&rt, alloc, NAMED);
    tell_written(&rt, alloc, LITERALS);
    tell_written(&rt, alloc, FAULTS);
    tell_written(&rt, alloc, MISFITS);
    for (text, want) in NOT_UTF8 {
        tell_text(&rt, alloc, text, want);
    }
}
