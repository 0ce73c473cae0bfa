//! What `refute` answers over a statement.
ghost use Rattle.std.specs.Prelude.{◌≡◌, ◌<◌, ◌≤◌, ℕ, IfOk};
ghost use Rattle.std.specs.List.{All, AllZip};
ghost use Rattle.in_order_parallel.specs.Limits.{worker_limit};
ghost use Rattle.adjoint_rules.specs.Claims.{claim_numbers};
ghost use Rattle.model_search.specs.LeastBreaking.{IsFoundFor};
ghost use Rattle.report_text.specs.Report.{IsVerdictOver};
ghost use Rattle.refute_command.specs.Answers.{IsSearchedOn, AnswersSearch};
ghost use Rattle.command_shape.specs.Stop.{EndsAs};

use adjoint_rules::Problem;
use command_shape::Ending;
use in_order_parallel::{Crew, Gate};
use lists::{Listing, Stop};
use model_candidates::all_candidates;
use model_search::{Found, search_each};
use report_text::{Verdict, report, status_of};
use std::alloc::{AllocError, Global};
use std::thread::Threads;

/// How a run of `refute` ends over a problem: with the report of all verdicts.
pub fn report_search<R: Threads + Sync, G: Gate + Sync>(
    crew: &Crew<'_, R, G>,
    alloc: Global,
    problem: &Problem,
    seed: u64,
) -> Result<Ending, Stop<Ending>>
    requires some_worker { 0 < crew.now.workers }
    requires few_workers { crew.now.workers ≤ worker_limit }
    ensures { EndsAs (AnswersSearch seed problem.now) result }
{
    let verdicts = search_all(crew, alloc, problem, seed)?;
    let verdicts = verdicts.as_slice();
    let report = report(alloc, &problem.parts.quiver, verdicts, &[])?;
    Ok(Ending::decided(status_of(verdicts), report))
}

// The verdict on each claim of the problem.
fn search_all<R: Threads + Sync, G: Gate + Sync>(
    crew: &Crew<'_, R, G>,
    alloc: Global,
    problem: &Problem,
    seed: u64,
) -> Result<Listing<Verdict>, AllocError>
    requires some_worker { 0 < crew.now.workers }
    requires few_workers { crew.now.workers ≤ worker_limit }
    ensures each { IfOk result (AllZip (IsSearchedOn problem.now seed) (claim_numbers problem.now)) }
    ensures over { IfOk result (All (IsVerdictOver problem.now.parts.quiver)) }
{
    let claims = claim_numbers(alloc, problem)?;
    let found = search_each(crew, alloc, problem, claims.as_slice(), seed)?;
    let mut verdicts = Listing::with_room(alloc, found.len())?;
    for one in found.into_vec() {
        verdicts.push(verdict_by(problem, one))?;
    }
    Ok(verdicts)
}

// The numbers of the claims.
fn claim_numbers(alloc: Global, problem: &Problem) -> Result<Vec<u32>, AllocError>
    ensures { IfOk result (λ numbers. numbers.items ≡ claim_numbers problem.now) }
{
    let count = problem.parts.claims.len() as u32;
    (1..count + 1).collect(alloc)
}

// The verdict on a claim by the candidate that was found for it.
fn verdict_by(problem: &Problem, found: Option<Found>) -> Verdict
    ensures { (seed claim : ℕ) → IsFoundFor problem.now seed claim found → IsSearchedOn problem.now seed claim result }
{
    match found {
        Some(found) => Verdict::Refuted(found.model),
        None => Verdict::NotRefuted {
            candidates: all_candidates(problem),
        },
    }
}
