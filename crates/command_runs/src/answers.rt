//! The answer of a call.
ghost use Rattle.std.specs.Prelude.{◌≡◌, ◌≤◌, IfOk, length};
ghost use Rattle.std.specs.List.{AllZip};
ghost use Rattle.command_shape.specs.Calls.{IsInRange};
ghost use Rattle.command_shape.specs.FileWords.{statement_limit, evidence_limit};
ghost use Rattle.stated_problem.specs.Statement.{OverStatement};
ghost use Rattle.command_shape.specs.Stop.{EndsAs};
ghost use Rattle.command_runs.specs.CallFiles.{files_of, written_by};
ghost use Rattle.command_runs.specs.Answers.{AnswersOver, Answers};

use adjoint_rules::Problem;
use command_shape::{Call, Ending};
use evidence_commands::answer_evidence;
use in_order_parallel::{Crew, Gate};
use lists::{Listing, Stop};
use prove_command::{ASKED_BY_BENCH, Extent, asked_by, report_claims};
use refute_command::report_search;
use report_text::write_bench;
use stated_problem::read_statement;
use std::alloc::{AllocError, Global};
use std::thread::Threads;

/// How a run of the call ends once the contents of its files are loaded. `bench` makes its statement itself.
pub fn answer<R: Threads + Sync, G: Gate + Sync>(
    rt: &R,
    alloc: Global,
    call: &Call,
    contents: &[Listing<u8>],
    gate: &G,
) -> Result<Ending, Stop<Ending>>
    requires in_range { IsInRange call.now }
    requires contents_fit { AllZip (λ file bytes. length bytes ≤ file.limit) (files_of call.now) contents.now }
    ensures { EndsAs (Answers call.now contents.now) result }
{
    match contents {
        [] => {
            let statement = write_statement(alloc, call)?;
            answer_over(rt, alloc, call, &statement, &[], gate)
        }
        [statement] => answer_over(rt, alloc, call, statement.as_slice(), &[], gate),
        [statement, evidence, ..] => {
            let evidence = evidence.as_slice();
            answer_over(rt, alloc, call, statement.as_slice(), evidence, gate)
        }
    }
}

// The statement that a call without files makes.
fn write_statement(alloc: Global, call: &Call) -> Result<Vec<u8>, AllocError>
    requires { IsInRange call.now }
    ensures written { IfOk result (λ text. text.items ≡ written_by call.now) }
    ensures fits { IfOk result (λ text. length text.items ≤ statement_limit) }
{
    match call {
        Call::Bench(bench) => write_bench(alloc, bench.size),
        _ => Ok(Vec::new(alloc)),
    }
}

// How a run of the call ends over its statement and its text of evidence, which is empty where it has none.
fn answer_over<R: Threads + Sync, G: Gate + Sync>(
    rt: &R,
    alloc: Global,
    call: &Call,
    statement: &[u8],
    evidence: &[u8],
    gate: &G,
) -> Result<Ending, Stop<Ending>>
    requires in_range { IsInRange call.now }
    requires statement_fits { length statement.now ≤ statement_limit }
    requires evidence_fits { length evidence.now ≤ evidence_limit }
    ensures { EndsAs (OverStatement statement.now (AnswersOver call.now evidence.now)) result }
{
    let problem = read_statement(alloc, statement)?;
    answer_problem(rt, alloc, call, &problem, evidence, gate)
}

// How a run of the call ends over the problem of its statement.
fn answer_problem<R: Threads + Sync, G: Gate + Sync>(
    rt: &R,
    alloc: Global,
    call: &Call,
    problem: &Problem,
    evidence: &[u8],
    gate: &G,
) -> Result<Ending, Stop<Ending>>
    requires in_range { IsInRange call.now }
    requires evidence_fits { length evidence.now ≤ evidence_limit }
    ensures { EndsAs (AnswersOver call.now evidence.now problem.now) result }
{
    match call {
        Call::Prove(call) => {
            let asked = asked_by(call);
            let workers = call.workers;
            let crew = Crew { rt, workers, gate };
            report_claims(&crew, alloc, problem, asked, Extent::Report)
        }
        Call::Refute(call) => {
            let workers = call.workers;
            let crew = Crew { rt, workers, gate };
            report_search(&crew, alloc, problem, call.seed)
        }
        Call::Bench(call) => {
            let workers = call.workers;
            let crew = Crew { rt, workers, gate };
            report_claims(&crew, alloc, problem, ASKED_BY_BENCH, Extent::Heads)
        }
        Call::Evidence(command, _) => answer_evidence(alloc, *command, problem, evidence),
    }
}
