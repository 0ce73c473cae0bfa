//! Asserts that words are answered over files as rows say.
use crate::answers::{Row, answer};
use crate::comparing::equal;
use crate::parts::{LimitRow, text_of};
use std::alloc::Global;
use std::process::Abort;
use std::thread::Threads;

/// Asserts that the words are answered so over the texts.
pub fn tell<R: Threads + Sync + Abort>(
    rt: &R,
    alloc: Global,
    words: &[&str],
    statement: &[u8],
    evidence: &[u8],
    want: &str,
) {
    let got = answer(rt, alloc, words, statement, evidence);
    equal(
        rt,
        &(words, statement, got.as_str()),
        &(words, statement, want),
        "a run",
    );
}

/// The same statement after the line that names the second language.
pub fn renamed(rt: &impl Abort, alloc: Global, statement: &[u8]) -> Vec<u8> {
    let mut text = b"language 2\n".to_vec(alloc).expect(rt, "memory");
    text.extend_from_slice(statement).expect(rt, "memory");
    text
}

/// Asserts that the words are answered so over the texts, and the same after the line that names the second language, which moves
/// the places of faults of the statement.
pub fn tell_twice<R: Threads + Sync + Abort>(
    rt: &R,
    alloc: Global,
    words: &[&str],
    statement: &[u8],
    evidence: &[u8],
    want: &str,
) {
    tell(rt, alloc, words, statement, evidence, want);
    if !want.starts_with("3 ") && !statement.starts_with(b"language 2\n") {
        let statement = renamed(rt, alloc, statement);
        tell(rt, alloc, words, &statement, evidence, want);
    }
}

/// The same of each row.
pub fn tell_all<R: Threads + Sync + Abort>(rt: &R, alloc: Global, words: &[&str], rows: &[Row]) {
    for (statement, evidence, want) in rows {
        tell_twice(rt, alloc, words, statement, evidence, want);
    }
}

/// Asserts that the words of each row are answered so over the same texts.
pub fn tell_words<R: Threads + Sync + Abort>(
    rt: &R,
    alloc: Global,
    rows: &[(&[&str], &str)],
    statement: &[u8],
    evidence: &[u8],
) {
    for (words, want) in rows {
        tell(rt, alloc, words, statement, evidence, want);
    }
}

// Asserts that the words are answered so over the files, which are not told where they aren't.
fn tell_limit<R: Threads + Sync + Abort>(rt: &R, alloc: Global, row: &LimitRow) {
    let (words, statement, evidence, want) = row;
    let statement = text_of(rt, alloc, statement);
    let evidence = text_of(rt, alloc, evidence);
    let got = answer(rt, alloc, words, statement.as_bytes(), evidence.as_bytes());
    let want = text_of(rt, alloc, want);
    let got = (*words, got.as_str());
    equal(rt, &got, &(*words, want.as_str()), "a run over parts");
}

/// Asserts that the words of each row are answered so over its files.
pub fn tell_limits<R: Threads + Sync + Abort>(rt: &R, alloc: Global, rows: &[LimitRow]) {
    for row in rows {
        tell_limit(rt, alloc, row);
    }
}

/// Asserts that the report of the first words over the statement, after this status, is evidence to which the second words answer so.
pub fn tell_report<R: Threads + Sync + Abort>(
    rt: &R,
    alloc: Global,
    (first, second): (&[&str], &[&str]),
    statement: &[u8],
    status: &str,
    want: &str,
) {
    let told = answer(rt, alloc, first, statement, b"");
    let report = told.strip_prefix(status).unwrap_or("");
    tell(rt, alloc, second, statement, report.as_bytes(), want);
}
