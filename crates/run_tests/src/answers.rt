//! What comes of a run over files and a sink in memory, as a text.
use category_laws::Parity;
use command_runs::run;
use command_shape::usage_text;
use flow_io::{MemoryShelf, MemorySink};
use in_order_parallel::OpenGate;
use lists::{Listing, Text};
use std::alloc::Global;
use std::process::Abort;
use std::thread::Threads;

/// What is told of words that are no call: their status and their report, the usage line of the command set.
pub const USAGE: &str = "2 usage line";

/// A statement, a text of evidence, and the status with the report.
pub type Row = (&'static [u8], &'static [u8], &'static str);

/// The words as texts of their own.
pub fn owned(rt: &impl Abort, alloc: Global, words: &[&str]) -> Vec<String> {
    let mut all = Vec::new(alloc);
    for word in words {
        let word = String::from_str(alloc, word).expect(rt, "memory");
        all.push(word).expect(rt, "memory");
    }
    all
}

/// The bytes as a listing.
pub fn listing(rt: &impl Abort, alloc: Global, bytes: &[u8]) -> Listing<u8> {
    Listing::from_vec(bytes.to_vec(alloc).expect(rt, "memory"))
}

/// A shelf with the files `s` and `c`, of which the loads with these numbers fail.
pub fn shelf_of(
    rt: &impl Abort,
    alloc: Global,
    statement: &[u8],
    evidence: &[u8],
    failing: &[u64],
) -> MemoryShelf {
    let mut files = Listing::new(alloc);
    let first = Text::from_str(alloc, "s").expect(rt, "memory");
    let file = (first, listing(rt, alloc, statement));
    files.push(file).expect(rt, "memory");
    let second = Text::from_str(alloc, "c").expect(rt, "memory");
    let file = (second, listing(rt, alloc, evidence));
    files.push(file).expect(rt, "memory");
    let failing = Listing::from_vec(failing.to_vec(alloc).expect(rt, "memory"));
    MemoryShelf::new(alloc, files, failing).expect(rt, "memory")
}

// Whether the bytes are the usage line.
fn is_usage(rt: &impl Abort, alloc: Global, bytes: &[u8]) -> bool {
    let usage = usage_text(alloc).expect(rt, "memory");
    bytes.strip_suffix(b"\n") == Some(usage.as_slice())
}

// The status and what was put, where the usage line is told as `USAGE`.
fn told(rt: &impl Abort, alloc: Global, status: u8, sink: &MemorySink) -> String {
    let mut put = std::str::from_utf8(sink.bytes()).unwrap_or("bytes that are no text");
    if status == 2 && is_usage(rt, alloc, sink.bytes()) {
        put = "usage line";
    }
    let end = if sink.finished() { "" } else { " not finished" };
    format!(in alloc; "{status} {put}{end}").expect(rt, "memory")
}

// Room for a long report, of which no more is touched than is put.
const ROOM: usize = 50_000_000;

/// The status of a run over a statement and a text of evidence, and what it puts into a sink that takes eight bytes a put.
pub fn answer<R: Threads + Sync + Abort>(
    rt: &R,
    alloc: Global,
    words: &[&str],
    statement: &[u8],
    evidence: &[u8],
) -> String {
    let words = owned(rt, alloc, words);
    let mut shelf = shelf_of(rt, alloc, statement, evidence, &[]);
    let sink = MemorySink::new(alloc, 8, ROOM, Listing::new(alloc));
    let mut sink = sink.expect(rt, "memory");
    let status = run(rt, alloc, &Parity, &words, &mut shelf, &mut sink, &OpenGate);
    told(rt, alloc, status, &sink)
}
