//! What no clause says of the runs that decide and refute claims: that rounds and candidates are on threads, and that all claims
//! share one run.
use crate::answers::{owned, shelf_of};
use crate::comparing::equal;
use category_laws::Parity;
use command_runs::run;
use flow_io::MemorySink;
use in_order_parallel::Gate;
use lists::Listing;
use std::alloc::Global;
use std::process::Abort;
use std::sync::atomic::{AtomicU64, Ordering};
use std::thread::Threads;

const WORDS: &[&str] = &[
    "prove",
    "s",
    "--pairs",
    "33",
    "--workers",
    "2",
    "--no-models",
];

// A letter 34 times, which overlaps itself at 33 places: a statement with one claim, and the same with two.
const ONE_CLAIM: &[u8] =
    b"object U\nmap a : U -> U\nassume a a a a a a a a a a a a a a a a a a a a a a a a a a a a a a a a a a = 0\nclaim a = 0\n";

const TWO_CLAIMS: &[u8] =
    b"object U\nmap a : U -> U\nassume a a a a a a a a a a a a a a a a a a a a a a a a a a a a a a a a a a = 0\nclaim a = 0\nclaim a = 0\n";

// A true claim with one shape of side 1 modulo 2.
const TWO_CANDIDATES: &[u8] = b"object U\nmap a : U -> U\nclaim a = a\nmodel 2 U 1\n";

// Each item is counted, and then waits for another one.
#[derive(Drop)]
struct Meeting {
    passed: AtomicU64,
    met: AtomicU64,
}

impl Gate for Meeting {
    fn pass(&self, _item: usize) {
        self.passed.fetch_add(1, Ordering::SeqCst);
        for _ in 0..50_000_000u32 {
            if self.passed.load(Ordering::SeqCst) > 1 {
                self.met.fetch_add(1, Ordering::SeqCst);
                return;
            }
        }
    }
}

// Asserts that a run over the statement has this status, and that so many items pass the gate and meet another.
fn tell_meetings<R: Threads + Sync + Abort>(
    rt: &R,
    alloc: Global,
    words: &[&str],
    statement: &[u8],
    want: (u8, u64),
) {
    let gate = Meeting {
        passed: AtomicU64::new(0),
        met: AtomicU64::new(0),
    };
    let words = owned(rt, alloc, words);
    let mut shelf = shelf_of(rt, alloc, statement, b"", &[]);
    let sink = MemorySink::new(alloc, 8, 1000, Listing::new(alloc));
    let mut sink = sink.expect(rt, "memory");
    let status = run(rt, alloc, &Parity, &words, &mut shelf, &mut sink, &gate);
    let passed = gate.passed.load(Ordering::SeqCst);
    equal(rt, &(status, passed), &want, "the status, and what passes");
    equal(rt, &gate.met.load(Ordering::SeqCst), &want.1, "meetings");
}

#[test]
fn claims_share_one_run(rt: HostRuntime) {
    tell_meetings(&rt, rt.alloc(), WORDS, TWO_CLAIMS, (10, 33));
}

#[test]
fn reductions_of_a_round_meet(rt: HostRuntime) {
    tell_meetings(&rt, rt.alloc(), WORDS, ONE_CLAIM, (10, 33));
}

#[test]
fn candidates_of_a_block_meet(rt: HostRuntime) {
    let words = &["refute", "s", "--workers", "2"];
    tell_meetings(&rt, rt.alloc(), words, TWO_CANDIDATES, (13, 2));
}
