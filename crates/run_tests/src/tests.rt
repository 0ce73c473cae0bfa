//! Runs of the program over files and a sink in memory, each in both languages.
use crate::answers::answer;
use crate::check_rows::{CALLS, GENERATORS, JUDGED, LEMMAS, REFUSED, REPORTS, SOUND};
use crate::decided_rows::{
    BEGINNINGS, BROKEN, CallRow, INNER, OTHERS, PROVED, PROVED_PLAINLY, WITHOUT_FILES,
};
use crate::evidence_rows::{CANCELLED, CONFIRMED, EXPLAINED};
use crate::model_rows::MODELS;
use crate::telling::{tell, tell_all, tell_report, tell_twice, tell_words};
use std::alloc::Global;
use std::process::Abort;
use std::thread::Threads;

const CHECK: &[&str] = &["check", "s", "c"];

const MODEL: &[&str] = &["model", "s", "c"];

#[test]
fn certificates_are_judged(rt: HostRuntime) {
    tell_all(&rt, rt.alloc(), CHECK, JUDGED);
    tell_all(&rt, rt.alloc(), CHECK, LEMMAS);
}

#[test]
fn generators_are_as_worked_out(rt: HostRuntime) {
    tell_all(&rt, rt.alloc(), CHECK, GENERATORS);
}

#[test]
fn faulty_files_and_other_words_are_refused(rt: HostRuntime) {
    tell_all(&rt, rt.alloc(), CHECK, REFUSED);
    tell_words(&rt, rt.alloc(), CALLS, SOUND.0, SOUND.1);
}

#[test]
fn reports_are_evidence(rt: HostRuntime) {
    tell_all(&rt, rt.alloc(), CHECK, REPORTS);
}

#[test]
fn models_are_judged(rt: HostRuntime) {
    tell_all(&rt, rt.alloc(), MODEL, MODELS);
}

#[test]
fn proofs_that_cancel_bases_and_chains_are_judged(rt: HostRuntime) {
    tell_all(&rt, rt.alloc(), &["cancel", "s", "c"], CANCELLED);
    tell_all(&rt, rt.alloc(), &["confirm", "s", "c"], CONFIRMED);
    tell_all(&rt, rt.alloc(), &["explain", "s", "c"], EXPLAINED);
}

// Asserts that the words of each row are answered so over its statement, in both languages.
fn tell_calls<R: Threads + Sync + Abort>(rt: &R, alloc: Global, rows: &[CallRow]) {
    for (words, statement, want) in rows {
        tell_twice(rt, alloc, words, statement, b"", want);
    }
}

#[test]
fn claims_are_proved(rt: HostRuntime) {
    tell_calls(&rt, rt.alloc(), PROVED);
    tell_calls(&rt, rt.alloc(), PROVED_PLAINLY);
}

#[test]
fn other_claims_have_their_verdict(rt: HostRuntime) {
    tell_calls(&rt, rt.alloc(), OTHERS);
    tell_calls(&rt, rt.alloc(), BROKEN);
}

#[test]
fn languages_and_words_are_told_apart(rt: HostRuntime) {
    for (words, statement, want) in BEGINNINGS {
        tell(&rt, rt.alloc(), words, statement, b"", want);
    }
    tell_calls(&rt, rt.alloc(), WITHOUT_FILES);
}

// Numbers of threads.
const WORKERS: &[&str] = &["3", "7", "64"];

// Candidates that are drawn are the same on any number of threads.
#[test]
fn drawn_models_are_the_same_on_all_threads(rt: HostRuntime) {
    let one: &[&str] = &["refute", "s", "--workers", "1"];
    let want = answer(&rt, rt.alloc(), one, INNER, b"");
    for workers in WORKERS {
        let words = &["refute", "s", "--workers", *workers];
        tell(&rt, rt.alloc(), words, INNER, b"", want.as_str());
    }
    let confirmed = "0 # block 1 confirmed claim 1\n";
    tell_report(&rt, rt.alloc(), (one, MODEL), INNER, "11 ", confirmed);
}
