//! Rounds of completions: which ambiguities are pending; and one claim that is decided alone.
ghost use Rattle.std.specs.Prelude.{◌<◌, ◌≤◌};
ghost use Rattle.in_order_parallel.specs.Limits.{worker_limit};
ghost use Rattle.traced_completion.specs.Completions.{IsCompletionOf};

use crate::comparing::equal;
use adjoint_rules::Problem;
use ambiguities::Kind;
use claim_decider::{Decided, Outcome, decide};
use cofactor_trace::Format;
use in_order_parallel::OpenGate;
use signature_typing::elaborate;
use statement_syntax::read_tree;
use std::alloc::Global;
use std::process::Abort;
use std::thread::Threads;
use traced_completion::{Budget, Completion, Step};
use word_core::{Letter, Word};

// A statement, how many rounds are made, how many ambiguities are pending then, and the first of them, an overlap of rule 1
// with itself: its place, and the letters of its word.
type Row = (&'static [u8], u32, usize, u32, &'static [u16]);

const BRAID: &[u8] = b"object V\nmap a b : V -> V\nassume b a b = a b a\nclaim b a b = a b a\n";

// The word overlaps itself at the places 1 to 33. A round takes 32 of these, and the last one's word has 67 letters.
const POWER: &[u8] =
    b"object U\nmap a : U -> U\nassume a a a a a a a a a a a a a a a a a a a a a a a a a a a a a a a a a a = 0\nclaim a = 0\n";

const ROWS: &[Row] = &[
    (BRAID, 1, 1, 2, &[3, 1, 3, 1, 3]),
    (POWER, 1, 33, 1, &[1; 35]),
    (POWER, 2, 1, 33, &[1; 67]),
];

const BUDGET: Budget = Budget {
    pairs: 33,
    steps: 100,
};

// The problem that a statement stands for.
fn problem_of(rt: &impl Abort, alloc: Global, statement: &[u8]) -> Problem {
    assert!(rt;
        statement.len() <= 1000,
        "the statement is too long for a test"
    );
    let tree = read_tree(alloc, statement).expect(rt, "a statement");
    elaborate(alloc, &tree).expect(rt, "a problem")
}

// The next round, which has no fault.
fn go_on<R: Threads + Sync + Abort>(
    rt: &R,
    alloc: Global,
    problem: &Problem,
    completion: &mut Completion,
    workers: u32,
)
    requires started { IsCompletionOf problem.now completion.old }
    requires some_worker { 0 < workers }
    requires few_workers { workers ≤ worker_limit }
    ensures { IsCompletionOf problem.now completion.new }
{
    let step = completion.round(rt, alloc, problem, workers, &OpenGate);
    let went = matches!(step.expect(rt, "memory"), Step::Went);
    assert!(rt; went, "a round has a fault");
}

fn word_of(rt: &impl Abort, alloc: Global, letters: &[u16]) -> Word {
    let mut word = Word::new(alloc);
    for letter in letters {
        word.push(Letter(*letter)).expect(rt, "memory");
    }
    word
}

// Ends the test where another word came.
fn tell_word(rt: &impl Abort, alloc: Global, got: &Word, letters: &[u16]) {
    equal(rt, got, &word_of(rt, alloc, letters), "the word");
}

// Ends the test where other ambiguities are pending than the row says.
fn tell_pending(rt: &impl Abort, alloc: Global, completion: &Completion, row: &Row) {
    let (_, _, pending, place, letters) = row;
    equal(rt, &completion.pending(), pending, "what is pending");
    assert!(rt; completion.pending() > 0, "nothing is pending");
    let (first, word) = completion.pending_at(0);
    assert!(rt; matches!(first.kind, Kind::Overlap), "no overlap");
    equal(
        rt,
        &(first.i, first.j, first.place),
        &(1, 1, *place),
        "i, j, place",
    );
    tell_word(rt, alloc, word, letters);
}

// Ends the test where something else is pending after the rounds of a row.
fn tell_rounds<R: Threads + Sync + Abort>(
    rt: &R,
    alloc: Global,
    problem: &Problem,
    row: &Row,
    workers: u32,
)
    requires some_worker { 0 < workers }
    requires few_workers { workers ≤ worker_limit }
{
    let mut completion = Completion::start(alloc, problem, BUDGET).expect(rt, "memory");
    for _ in 0..row.1 {
        go_on(rt, alloc, problem, &mut completion, workers);
    }
    tell_pending(rt, alloc, &completion, row);
}

// The same of the problem of a row.
fn tell_row<R: Threads + Sync + Abort>(rt: &R, alloc: Global, row: &Row, workers: u32)
    requires some_worker { 0 < workers }
    requires few_workers { workers ≤ worker_limit }
{
    let problem = problem_of(rt, alloc, row.0);
    tell_rounds(rt, alloc, &problem, row, workers);
}

#[test]
fn ambiguities_are_pending_in_order(rt: HostRuntime) {
    for row in ROWS {
        for workers in 1..3 {
            tell_row(&rt, rt.alloc(), row, workers);
        }
    }
}

// Ends the test where claim 1, which is decided alone, doesn't follow from one rule.
fn tell_decided<R: Threads + Sync + Abort>(rt: &R, alloc: Global, problem: &Problem) {
    assert!(rt; problem.parts.claims.len() > 0, "there is no claim");
    let decided = decide(rt, alloc, problem, 1, BUDGET, Format::Plain, 1, &OpenGate);
    let derived = is_derived(&decided.expect(rt, "memory"));
    assert!(rt; derived, "the claim doesn't follow from one rule");
}

// Whether the one outcome is that the claim follows from one rule.
fn is_derived(decided: &Decided) -> bool {
    decided.rules.len() == 1 && matches!(decided.outcomes.as_slice(), [Outcome::Derived(_)])
}

// The same of the braid relation.
fn tell_braid<R: Threads + Sync + Abort>(rt: &R, alloc: Global) {
    let problem = problem_of(rt, alloc, BRAID);
    tell_decided(rt, alloc, &problem);
}

#[test]
fn a_claim_is_decided_alone(rt: HostRuntime) {
    tell_braid(&rt, rt.alloc());
}
