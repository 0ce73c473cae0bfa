//! A job at each item of a slice: that threads are started, what the gate sees, and that the calls succeed.
ghost use Rattle.std.specs.Prelude.{◌≡◌, ◌<◌, ◌≤◌, ◌*◌, IfOk, map};
ghost use Rattle.in_order_parallel.specs.Limits.{worker_limit};

use crate::comparing::equal;
use in_order_parallel::{Gate, Job, OpenGate, map_in_order};
use std::alloc::{AllocError, Global};
use std::process::Abort;
use std::sync::atomic::{AtomicU64, Ordering};
use std::thread::Threads;

struct Doubling;

impl Job for Doubling {
    type In = u32;

    type Out = u64;

    ghost can_go = { λ _ _. Unit {0} };

    ghost gives = { λ _ number answer. answer ≡ 2 * number };

    fn go(&self, number: &u32) -> u64 {
        2 * u64::from(*number)
    }
}

// Twice each of the numbers.
fn doubled<R: Threads + Sync, G: Gate + Sync>(
    rt: &R,
    alloc: Global,
    numbers: &[u32],
    workers: u32,
    gate: &G,
) -> Result<Vec<u64>, AllocError>
    requires some_worker { 0 < workers }
    requires few_workers { workers ≤ worker_limit }
    ensures { IfOk result (λ answers. answers.items ≡ map (λ number. 2 * number) numbers.now) }
{
    map_in_order(rt, alloc, numbers, &Doubling, workers, gate)
}

// Two items see each other: each sets its flag and then waits for the other's.
#[derive(Drop)]
struct Meeting {
    flags: [AtomicU64; 2],
    met: AtomicU64,
}

impl Gate for Meeting {
    fn pass(&self, item: usize) {
        if item > 1 {
            return;
        }
        self.flags[item].store(1, Ordering::SeqCst);
        let other = &self.flags[1 - item];
        for _ in 0..50_000_000u32 {
            if other.load(Ordering::SeqCst) == 1 {
                self.met.fetch_add(1, Ordering::SeqCst);
                return;
            }
        }
    }
}

// How often each place was passed, which is also the answer of the work at the place.
#[derive(Drop)]
struct Passes {
    counts: Vec<AtomicU64>,
    strays: AtomicU64,
}

impl Gate for Passes {
    fn pass(&self, item: usize) {
        let count = self.counts.get(item).unwrap_or(&self.strays);
        count.fetch_add(1, Ordering::SeqCst);
    }
}

impl Job for Passes {
    type In = usize;

    type Out = u64;

    ghost can_go = { λ _ _. Unit {0} };

    ghost gives = { λ _ _ _. Unit {0} };

    fn go(&self, place: &usize) -> u64 {
        let count = self.counts.get(*place).unwrap_or(&self.strays);
        count.load(Ordering::SeqCst)
    }
}

// Ends the test where the answers aren't twice the numbers.
fn tell_doubled<R: Threads + Sync + Abort, G: Gate + Sync>(
    rt: &R,
    alloc: Global,
    numbers: &[u32],
    workers: u32,
    gate: &G,
)
    requires some_worker { 0 < workers }
    requires few_workers { workers ≤ worker_limit }
{
    let answers = doubled(rt, alloc, numbers, workers, gate).expect(rt, "memory");
    equal(rt, &answers.len(), &numbers.len(), "answers");
    for (number, answer) in numbers.iter().zip(&answers) {
        equal(rt, answer, &(2 * u64::from(*number)), "twice a number");
    }
}

#[test]
fn two_items_meet_on_two_threads(rt: HostRuntime) {
    let gate = Meeting {
        flags: [AtomicU64::new(0), AtomicU64::new(0)],
        met: AtomicU64::new(0),
    };
    tell_doubled(&rt, rt.alloc(), &[5, 7], 2, &gate);
    equal(&rt, &gate.met.load(Ordering::SeqCst), &2, "meetings");
}

#[test]
fn answers_are_the_same_on_any_threads(rt: HostRuntime) {
    let numbers = Vec::from_iter(rt.alloc(), 0..1000u32).expect(&rt, "memory");
    for workers in WORKERS {
        tell_doubled(&rt, rt.alloc(), &numbers, *workers, &OpenGate);
    }
}

fn no_passes(rt: &impl Abort, alloc: Global, places: usize) -> Passes {
    let mut counts = Vec::new(alloc);
    for _place in 0..places {
        counts.push(AtomicU64::new(0)).expect(rt, "memory");
    }
    Passes {
        counts,
        strays: AtomicU64::new(0),
    }
}

// Ends the test where a place isn't passed once and first.
fn pass_on<R: Threads + Sync + Abort>(rt: &R, alloc: Global, items: usize, workers: u32)
    requires some_worker { 0 < workers }
    requires few_workers { workers ≤ worker_limit }
{
    let log = no_passes(rt, alloc, items);
    let places = Vec::from_iter(alloc, 0..items).expect(rt, "memory");
    let answers = map_in_order(rt, alloc, &places, &log, workers, &log);
    let answers = answers.expect(rt, "memory");
    pass_once(rt, &log, &answers, items);
}

#[test]
fn each_place_passes_the_gate_once_and_first(rt: HostRuntime) {
    for items in ITEMS {
        for workers in WORKERS {
            pass_on(&rt, rt.alloc(), *items, *workers);
        }
    }
}

const ITEMS: &[usize] = &[0, 1, 2, 7, 1000];

const WORKERS: &[u32] = &[1, 3, 64];

fn pass_once(rt: &impl Abort, log: &Passes, answers: &[u64], items: usize) {
    equal(rt, &answers.len(), &items, "answers");
    for before in answers {
        equal(rt, before, &1, "what was passed before an answer");
    }
    for count in &log.counts {
        equal(rt, &count.load(Ordering::SeqCst), &1, "passes of a place");
    }
    equal(rt, &log.strays.load(Ordering::SeqCst), &0, "strays");
}
