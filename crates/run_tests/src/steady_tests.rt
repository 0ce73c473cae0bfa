//! Runs over devices that never fail: their status is never 5, and the output is finished unless memory ran out.
ghost use Rattle.std.specs.Prelude.{◌≡◌, ◌≢◌, IsTrue};

use crate::answers::{listing, owned};
use crate::comparing::equal;
use category_laws::Parity;
use command_runs::run;
use command_shape::usage_text;
use flow_io::{SteadyShelf, SteadySink};
use in_order_parallel::OpenGate;
use lists::Text;
use std::alloc::Global;
use std::process::Abort;
use std::thread::Threads;

const CHECK: &[&str] = &["check", "s", "c"];

const STATEMENT: &[u8] = b"object U\nmap a b : U -> U\nassume a = b\nclaim a = b\n";

const EVIDENCE: &[u8] = b"certificate 1\nclaim 1\ndenominator 1\nrow 1 () 1 ()\nend\n";

// Words, the file `s`, and the status with the number of bytes of the report.
type Row = (&'static [&'static str], &'static [u8], u8, u64);

const ROWS: &[Row] = &[
    // # block 1 accepted claim 1 denominator 1
    (CHECK, STATEMENT, 0, 41),
    // # refused S15
    (CHECK, b"object U\n", 3, 14),
];

// A run over devices that never fail.
fn steady_run<R: Threads + Sync>(
    rt: &R,
    alloc: Global,
    words: &[String],
    shelf: &mut SteadyShelf,
    sink: &mut SteadySink,
) -> u8
    ensures no_failure { result ≢ 5 }
    ensures finished { result ≢ 6 → IsTrue sink.new.finished }
{
    run(rt, alloc, &Parity, words, shelf, sink, &OpenGate)
}

// The status of a run over the statement, how many bytes were taken, and whether the output was finished.
fn taken_over<R: Threads + Sync + Abort>(
    rt: &R,
    alloc: Global,
    words: &[&str],
    statement: &[u8],
) -> (u8, u64, bool) {
    let words = owned(rt, alloc, words);
    let name = Text::from_str(alloc, "s").expect(rt, "memory");
    let first = listing(rt, alloc, statement);
    let mut shelf = SteadyShelf::new(name, first, listing(rt, alloc, EVIDENCE));
    let mut sink = SteadySink::new();
    let status = steady_run(rt, alloc, &words, &mut shelf, &mut sink);
    (status, sink.taken(), sink.finished())
}

#[test]
fn steady_devices_take_whole_reports(rt: HostRuntime) {
    let alloc = rt.alloc();
    for (words, statement, status, taken) in ROWS {
        let got = taken_over(&rt, alloc, words, statement);
        equal(&rt, &got, &(*status, *taken, true), "over a steady sink");
    }
    let usage = usage_text(alloc).expect(&rt, "memory").len() as u64;
    let got = taken_over(&rt, alloc, &["check", "s"], STATEMENT);
    equal(&rt, &got, &(2, usage + 1, true), "words that are no call");
    let long = vec![in alloc; b'x'; 1_048_577].expect(&rt, "memory");
    let got = taken_over(&rt, alloc, CHECK, &long);
    equal(&rt, &got, &(4, 27, true), "a statement that is too long");
}
