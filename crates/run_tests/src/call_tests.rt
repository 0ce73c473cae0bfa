//! What no clause says of the calls of the devices: their order, and that none comes after one that failed.
use crate::answers::{owned, shelf_of};
use crate::comparing::equal;
use crate::telling::tell;
use category_laws::Parity;
use command_runs::run;
use flow_io::MemorySink;
use in_order_parallel::OpenGate;
use lists::Listing;
use std::alloc::Global;
use std::process::Abort;
use std::thread::Threads;

const CHECK: &[&str] = &["check", "s", "c"];

// Two one-sided inverses of one map are equal.
const INVERSES: &[u8] =
    b"object U V\nmap l : V -> U\nmap a : U -> V\nmap r : V -> U\nassume l a = [U]\nassume a r = [V]\nclaim l = r\n";

const DOUBLED: &[u8] = b"object U\nmap x : U -> U\nassume 2 x = 0\nclaim x = 0\n";

const EVIDENCE: &str =
    "certificate 1\nclaim 1\ndenominator 1\nrow 1 () 1 (r)\nrow -1 (l) 2 ()\nrow 1 () 6 ()\nrow -1 () 8 ()\nend\n";

// The reports on the doubled map by rows over generators alone, and by lemmas.
const PLAIN_REPORT: &str =
    "# claim 1 proved denominator 2 rows 1\ncertificate 1\nclaim 1\ndenominator 2\nrow 1 () 1 ()\nend\n";

const REPORT: &str =
    "# claim 1 proved denominator 2 rows 2\ncertificate 2\nclaim 1\ndenominator 2\nlemma 1 scale 2\nrow 1 () 1 ()\ngoal scale 1\n\
     row 1 () lemma 1 ()\nend\n";

const FAULTY: &[u8] = b"object U\nclaim\n";

const ACCEPTED: &str = "# block 1 accepted claim 1 denominator 1\n";

const NO_BLOCK: &str = "7 # refused K7\n";

const CUT_OFF: &str = "7 # refused K6\n";

const WHOLE: &str = "0 # block 1 accepted claim 1 denominator 1\n";

// The numbers of the loads and of the calls of the sink that fail, the status, the bytes that are put, and the numbers of loads and of
// calls of the sink.
type Row = (&'static [u64], &'static [u64], u8, &'static str, (u64, u64));

// Eight bytes a put: the report of an accepted certificate takes six puts and a finish.
const CALLS: &[Row] = &[
    (&[], &[], 0, ACCEPTED, (2, 7)),
    (&[1], &[], 4, "# load failed s\n", (1, 3)),
    (&[2], &[], 4, "# load failed c\n", (2, 3)),
    (&[1, 2], &[], 4, "# load failed s\n", (1, 3)),
    (&[], &[1], 5, "", (2, 1)),
    (&[], &[2], 5, "# block ", (2, 2)),
    (
        &[],
        &[6],
        5,
        "# block 1 accepted claim 1 denominator 1",
        (2, 6),
    ),
    (&[], &[7], 5, ACCEPTED, (2, 7)),
    (&[1], &[1], 5, "", (1, 1)),
];

// What a run did: its status, what is put, the numbers of loads and of calls of the sink, and whether the output was finished.
#[derive(Drop)]
struct Done {
    status: u8,
    sink: MemorySink,
    loads: u64,
}

// What a run does over the statement, where these loads and these calls of the sink fail.
fn done_over<R: Threads + Sync + Abort>(
    rt: &R,
    alloc: Global,
    words: &[&str],
    statement: &[u8],
    loads: &[u64],
    puts: &[u64],
) -> Done {
    let words = owned(rt, alloc, words);
    let mut shelf = shelf_of(rt, alloc, statement, EVIDENCE.as_bytes(), loads);
    let failing = Listing::from_vec(puts.to_vec(alloc).expect(rt, "memory"));
    let sink = MemorySink::new(alloc, 8, 1000, failing);
    let mut sink = sink.expect(rt, "memory");
    let status = run(rt, alloc, &Parity, &words, &mut shelf, &mut sink, &OpenGate);
    let loads = shelf.loads();
    Done {
        status,
        sink,
        loads,
    }
}

// Asserts that a run does no more: its status, the bytes that are put, and the numbers of loads and of calls of the sink.
fn tell_done(rt: &impl Abort, done: &Done, status: u8, put: &[u8], calls: (u64, u64)) {
    let sink = &done.sink;
    let got = (done.status, sink.bytes(), (done.loads, sink.calls()));
    equal(rt, &got, &(status, put, calls), "what is done");
    equal(rt, &sink.finished(), &(status != 5), "whether it is whole");
}

#[test]
fn no_call_comes_after_one_that_failed(rt: HostRuntime) {
    for (loads, puts, status, put, calls) in CALLS {
        let done = done_over(&rt, rt.alloc(), CHECK, INVERSES, loads, puts);
        tell_done(&rt, &done, *status, put.as_bytes(), *calls);
    }
}

#[test]
fn both_files_are_loaded_before_the_statement_is_read(rt: HostRuntime) {
    let done = done_over(&rt, rt.alloc(), CHECK, FAULTY, &[], &[]);
    let got = (done.status, done.loads);
    equal(&rt, &got, &(3, 2), "a faulty statement");
}

// Ends the test where a report is not cut, at each of so many calls of the sink, to the bytes that were put before it.
fn cut_at_each<R: Threads + Sync + Abort>(
    rt: &R,
    alloc: Global,
    words: &[&str],
    report: &str,
    calls: u8,
) {
    let bytes = report.as_bytes();
    for before in 0..calls {
        let number = u64::from(before) + 1;
        let done = done_over(rt, alloc, words, DOUBLED, &[], &[number]);
        let put = &bytes[..bytes.len().min(8 * usize::from(before))];
        tell_done(rt, &done, 5, put, (1, number));
    }
}

#[test]
fn a_report_is_cut_at_each_call_that_fails(rt: HostRuntime) {
    let plain = &["prove", "s", "--format", "1"];
    cut_at_each(&rt, rt.alloc(), plain, PLAIN_REPORT, 13);
    cut_at_each(&rt, rt.alloc(), &["prove", "s"], REPORT, 19);
}

#[test]
fn a_certificate_is_refused_up_to_its_last_line(rt: HostRuntime) {
    let bytes = EVIDENCE.as_bytes();
    tell(&rt, rt.alloc(), CHECK, INVERSES, b"", NO_BLOCK);
    for (place, byte) in bytes.iter().enumerate() {
        if *byte == b'\n' {
            let is_whole = place + 1 == bytes.len();
            let want = if is_whole { WHOLE } else { CUT_OFF };
            tell(&rt, rt.alloc(), CHECK, INVERSES, &bytes[..=place], want);
        }
    }
}
