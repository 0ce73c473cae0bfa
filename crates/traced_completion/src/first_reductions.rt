//! The first reductions of a round, on several threads.
ghost use Rattle.std.specs.Prelude.{◌≡◌, ◌<◌, ◌≤◌, ◌/◌, min, max, map, length, MatchResult, IfOk, Ok};
ghost use Rattle.std.specs.List.{All};
ghost use Rattle.in_order_parallel.specs.Limits.{worker_limit};
ghost use Rattle.ambiguities.specs.Ambiguities.{IsAmbiguity};
ghost use Rattle.traced_completion.specs.Limits.{share};
ghost use Rattle.traced_completion.specs.Results.{Explains, each_in_turn};
ghost use Rattle.traced_completion.specs.Works.{first_of};
ghost use Rattle.traced_completion.specs.Reductions.{plain_first, IsKeptFirst, IsAnswer};

use crate::reduction::{halt, reduce};
use ambiguities::{Ambiguity, s_poly};
use cofactor_trace::Row;
use in_order_parallel::{Gate, Job, map_in_order};
use lists::Listing;
use rule_reduce::{ReduceFault, Reduced, Rules};
use std::alloc::{AllocError, Global};
use std::thread::Threads;
use word_orders::WordOrder;

// The least number of items for which another thread is worth starting.
const SHARE: usize = 8;

// The rows of an S-polynomial, and its reduction.
#[derive(Drop)]
pub(crate) struct First {
    pub rows: Listing<Row>,
    pub reduced: Reduced,
}

// The S-polynomial of an ambiguity, reduced.
fn reduce_first<O: WordOrder + Drop>(
    rules: &Rules<O>,
    which: &Ambiguity,
    steps: u32,
) -> Result<First, ReduceFault>
    requires { IsAmbiguity rules.now.rules which.now }
    ensures exact { MatchResult result (λ f. first_of (O.compare rules.now.order) steps rules.now.rules which.now ≡ Ok (plain_first f))
        (Explains (first_of (O.compare rules.now.order) steps rules.now.rules which.now)) }
    ensures kept { IfOk result (λ f. IsKeptFirst (O.letters rules.now.order) (length rules.now.rules) (plain_first f)) }
{
    let s_polynomial = match s_poly(rules, which) {
        Ok(s_polynomial) => s_polynomial,
        Err(fault) => return Err(halt(fault)),
    };
    match reduce(rules, &s_polynomial.poly, steps) {
        Ok(reduced) => Ok(First {
            rows: s_polynomial.rows,
            reduced,
        }),
        Err(fault) => Err(fault),
    }
}

// First reductions by borrowed rules.
#[derive(Clone, Copy)]
pub(crate) struct Reducer<'a, O: WordOrder> {
    pub rules: &'a Rules<O>,
    pub steps: u32,
}

impl<O: WordOrder + Drop> Job for Reducer<'_, O> {
    type In = Ambiguity;

    type Out = Result<First, ReduceFault>;

    ghost can_go = { λ job which. IsAmbiguity job.rules.now.rules which };

    ghost gives = { λ job which answer. IsAnswer (O.letters job.rules.now.order) (O.compare job.rules.now.order) job.steps
        job.rules.now.rules which answer };

    fn go(&self, which: &Ambiguity) -> Result<First, ReduceFault> {
        reduce_first(self.rules, which, self.steps)
    }
}

// Whether memory was short for one of the answers.
fn is_memory_short(answers: &[Result<First, ReduceFault>]) -> bool {
    for answer in answers {
        if let Err(ReduceFault::Memory(_)) = answer {
            return true;
        }
    }
    false
}

// The values of the answers, or the first fault.
fn collect_answers(
    alloc: Global,
    answers: Vec<Result<First, ReduceFault>>,
) -> Result<Listing<First>, ReduceFault>
    ensures { MatchResult result (λ firsts. each_in_turn (λ answer. answer) answers.items ≡ Ok firsts)
        (Explains (each_in_turn (λ answer. answer) answers.items)) }
{
    if is_memory_short(&answers) {
        return Err(ReduceFault::Memory(AllocError));
    }
    let mut firsts = Listing::new(alloc);
    for answer in answers {
        firsts.push(answer?)?;
    }
    Ok(firsts)
}

// How many steps the reductions made together.
pub(crate) fn step_count(firsts: &[First]) -> u32 {
    let mut count: u32 = 0;
    for first in firsts {
        count = count.saturating_add(first.reduced.used);
    }
    count
}

// How many of the workers are used: at most as many as have a worker's share of the items each, and at least one.
fn busy_workers(items: usize, workers: u32) -> u32
    requires { 0 < workers }
    ensures { result ≡ min workers (max 1 (items / share)) }
{
    let most = (items / SHARE).max(1);
    most.min(workers as usize) as u32
}

// The first reductions of the ambiguities, in their order, on at most as many threads as there are workers. The fault is
// the first one in this order, whichever ended first.
pub(crate) fn reduce_all<R: Threads + Sync, O: WordOrder + Drop + Sync, G: Gate + Sync>(
    rt: &R,
    alloc: Global,
    reducer: &Reducer<O>,
    taken: &[Ambiguity],
    workers: u32,
    gate: &G,
) -> Result<Listing<First>, ReduceFault>
    requires ambiguities { All (IsAmbiguity reducer.now.rules.now.rules) taken.now }
    requires some_worker { 0 < workers }
    requires few_workers { workers ≤ worker_limit }
    ensures exact { MatchResult result
        (λ firsts. each_in_turn (first_of (O.compare reducer.now.rules.now.order) reducer.now.steps reducer.now.rules.now.rules)
        taken.now ≡ Ok (map plain_first firsts))
        (Explains (each_in_turn (first_of (O.compare reducer.now.rules.now.order) reducer.now.steps reducer.now.rules.now.rules)
        taken.now)) }
    ensures kept { IfOk result
        (All (λ f. IsKeptFirst (O.letters reducer.now.rules.now.order) (length reducer.now.rules.now.rules) (plain_first f))) }
    ensures one_each { IfOk result (λ firsts. length firsts ≡ length taken.now) }
{
    let busy = busy_workers(taken.len(), workers);
    let answers = map_in_order(rt, alloc, taken, reducer, busy, gate)?;
    collect_answers(alloc, answers)
}
