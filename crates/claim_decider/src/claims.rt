//! The outcomes of claims, which share one run.
ghost use Rattle.std.specs.Prelude.{◌≡◌, ◌≢◌, ◌<◌, ◌≤◌, ◌↔◌, [], ◌∷◌, length, IsTrue, IfOk, OnOk};
ghost use Rattle.std.specs.List.{All, AllZip};
ghost use Rattle.in_order_parallel.specs.Limits.{worker_limit};
ghost use Rattle.traced_completion.specs.declared.budget.Budget.{Budget as Asked};
ghost use Rattle.traced_completion.specs.PlainRun.{start, setting_of};
ghost use Rattle.traced_completion.specs.Completions.{IsBudget, IsCompletionOf, state_of};
ghost use Rattle.adjoint_rules.specs.Claims.{claim_numbers};
ghost use Rattle.claim_decider.specs.Decided.{AreOutcomesOf, AreLastRules, IsLastRound, polynomials_in};
ghost use Rattle.claim_decider.specs.Cases.{IsNumber, IsOfProblem, HasRounds, Follows, IsCase, IsSettled, case_numbers, Gives};

use crate::case::{Case, Standing, follow, open_case};
use crate::{Decided, Outcome};
use adjoint_rules::Problem;
use cofactor_trace::Format;
use in_order_parallel::{Crew, Gate};
use lists::Listing;
use nc_polynomial::Poly;
use rule_reduce::Rule;
use std::alloc::{AllocError, Global};
use std::thread::Threads;
use traced_completion::{Budget, Completion, Step};

/// The outcome of each claim of the problem, in one run of the completion for all of them. A claim leaves when it has its
/// outcome, and the run ends with the last one.
pub fn decide_all<R: Threads + Sync, G: Gate + Sync>(
    rt: &R,
    alloc: Global,
    problem: &Problem,
    budget: Budget,
    format: Format,
    workers: u32,
    gate: &G,
) -> Result<Decided, AllocError>
    requires budget { IsBudget budget }
    requires some_worker { 0 < workers }
    requires few_workers { workers ≤ worker_limit }
    ensures outcomes { IfOk result (λ d. AreOutcomesOf (setting_of problem.now budget) format problem.now (claim_numbers problem.now) d.outcomes) }
    ensures rules { IfOk result (λ d. AreLastRules (setting_of problem.now budget) format problem.now (claim_numbers problem.now) d.rules) }
{
    let cases = open_all(alloc, problem, format)?;
    let crew = Crew { rt, workers, gate };
    run(&crew, alloc, problem, budget, format, cases)
}

/// The outcome of the claim with this number.
pub fn decide<R: Threads + Sync, G: Gate + Sync>(
    rt: &R,
    alloc: Global,
    problem: &Problem,
    claim: u32,
    budget: Budget,
    format: Format,
    workers: u32,
    gate: &G,
) -> Result<Decided, AllocError>
    requires claim { IsNumber problem.now claim }
    requires budget { IsBudget budget }
    requires some_worker { 0 < workers }
    requires few_workers { workers ≤ worker_limit }
    ensures outcome { IfOk result (λ d. AreOutcomesOf (setting_of problem.now budget) format problem.now (claim ∷ []) d.outcomes) }
    ensures rules { IfOk result (λ d. AreLastRules (setting_of problem.now budget) format problem.now (claim ∷ []) d.rules) }
{
    let mut cases = Vec::new(alloc);
    cases.push(open_case(alloc, problem, format, claim)?)?;
    let crew = Crew { rt, workers, gate };
    run(&crew, alloc, problem, budget, format, cases)
}

// All claims before the first round.
fn open_all(alloc: Global, problem: &Problem, format: Format) -> Result<Vec<Case>, AllocError>
    ensures numbers { IfOk result (λ cases. case_numbers cases.items ≡ claim_numbers problem.now) }
    ensures named { IfOk result (λ cases. All (IsOfProblem problem.now) cases.items) }
    ensures cases { IfOk result (λ cases. (budget : Asked) → All (IsCase (setting_of problem.now budget) format problem.now 0 start) cases.items) }
{
    let mut cases = Vec::new(alloc);
    for place in 0..problem.parts.claims.len() {
        cases.push(open_case(alloc, problem, format, place as u32 + 1)?)?;
    }
    Ok(cases)
}

// Runs the completion until each of the claims has its outcome.
fn run<R: Threads + Sync, G: Gate + Sync>(
    crew: &Crew<'_, R, G>,
    alloc: Global,
    problem: &Problem,
    budget: Budget,
    format: Format,
    cases: Vec<Case>,
) -> Result<Decided, AllocError>
    requires budget { IsBudget budget }
    requires some_worker { 0 < crew.now.workers }
    requires few_workers { crew.now.workers ≤ worker_limit }
    requires numbers { All (IsOfProblem problem.now) cases.items }
    requires cases { All (IsCase (setting_of problem.now budget) format problem.now 0 start) cases.items }
    ensures outcomes { IfOk result (λ d. AreOutcomesOf (setting_of problem.now budget) format problem.now (case_numbers cases.items) d.outcomes) }
    ensures rules { IfOk result (λ d. AreLastRules (setting_of problem.now budget) format problem.now (case_numbers cases.items) d.rules) }
{
    let mut completion = Completion::start(alloc, problem, budget)?;
    decide_cases(crew, alloc, problem, format, &mut completion, cases)
}

// The outcomes of the claims, by a completion before its first round.
fn decide_cases<R: Threads + Sync, G: Gate + Sync>(
    crew: &Crew<'_, R, G>,
    alloc: Global,
    problem: &Problem,
    format: Format,
    completion: &mut Completion,
    mut cases: Vec<Case>,
) -> Result<Decided, AllocError>
    requires some_worker { 0 < crew.now.workers }
    requires few_workers { crew.now.workers ≤ worker_limit }
    requires of_problem { IsCompletionOf problem.now completion.old }
    requires no_round { completion.old.rounds ≡ 0 }
    requires numbers { All (IsOfProblem problem.now) cases.items }
    requires cases { All (IsCase (setting_of problem.now completion.old.budget) format problem.now completion.old.rounds
        (state_of completion.old)) cases.items }
    ensures outcomes { IfOk result (λ d. AreOutcomesOf (setting_of problem.now completion.old.budget) format problem.now
        (case_numbers cases.items) d.outcomes) }
    ensures rules { IfOk result (λ d. AreLastRules (setting_of problem.now completion.old.budget) format problem.now (case_numbers cases.items) d.rules) }
{
    settle(crew, alloc, problem, format, completion, &mut cases)?;
    let rules = polynomials(alloc, completion.rules.rules.as_slice())?;
    let outcomes = outcomes(alloc, cases)?;
    Ok(Decided { outcomes, rules })
}

// Makes rounds of a completion until each of the claims has its outcome.
fn settle<R: Threads + Sync, G: Gate + Sync>(
    crew: &Crew<'_, R, G>,
    alloc: Global,
    problem: &Problem,
    format: Format,
    completion: &mut Completion,
    cases: &mut Vec<Case>,
) -> Result<(), AllocError>
    requires some_worker { 0 < crew.now.workers }
    requires few_workers { crew.now.workers ≤ worker_limit }
    requires of_problem { IsCompletionOf problem.now completion.old }
    requires no_round { completion.old.rounds ≡ 0 }
    requires numbers { All (IsOfProblem problem.now) cases.old.items }
    requires cases { All (IsCase (setting_of problem.now completion.old.budget) format problem.now completion.old.rounds
        (state_of completion.old)) cases.old.items }
    ensures of_problem { OnOk result (IsCompletionOf problem.now completion.new) }
    ensures budget { OnOk result (completion.new.budget ≡ completion.old.budget) }
    ensures numbers { OnOk result (case_numbers cases.new.items ≡ case_numbers cases.old.items) }
    ensures settled { OnOk result (All IsSettled cases.new.items) }
    ensures cases { OnOk result (All (IsCase (setting_of problem.now completion.old.budget) format problem.now completion.new.rounds
        (state_of completion.new)) cases.new.items) }
    ensures last { OnOk result (IsLastRound (setting_of problem.now completion.old.budget) format problem.now
        (case_numbers cases.new.items) completion.new.rounds) }
{
    while !are_settled(cases.as_slice()) {
        let step = completion.round(crew.rt, alloc, problem, crew.workers, crew.gate)?;
        follow_all(alloc, problem, format, completion, step, cases)?;
    }
    Ok(())
}

// Whether each claim has its outcome.
fn are_settled(cases: &[Case]) -> bool
    ensures { IsTrue result ↔ All IsSettled cases.now }
{
    cases
        .iter()
        .all(|case| matches!(case.standing, Standing::Settled(_)))
}

// The claims after a step of the completion.
fn follow_all(
    alloc: Global,
    problem: &Problem,
    format: Format,
    completion: &Completion,
    step: Step,
    cases: &mut Vec<Case>,
) -> Result<(), AllocError>
    requires numbers { All (IsOfProblem problem.now) cases.old.items }
    requires of_problem { IsCompletionOf problem.now completion.now }
    requires some_round { HasRounds step completion.now.rounds }
    ensures { OnOk result (AllZip (Follows format problem.now completion.now step) cases.old.items cases.new.items) }
{
    let step = &step;
    for case in cases.iter_mut() {
        follow(alloc, problem, format, completion, step, case)?;
    }
    Ok(())
}

// The outcomes of claims that have them.
fn outcomes(alloc: Global, cases: Vec<Case>) -> Result<Listing<Outcome>, AllocError>
    requires { All IsSettled cases.items }
    ensures { IfOk result (AllZip Gives cases.items) }
{
    let mut outcomes = Listing::new(alloc);
    for case in cases {
        match case.standing {
            Standing::Settled(outcome) => outcomes.push(outcome)?,
            Standing::Open(_) => unreachable!(),
        }
    }
    Ok(outcomes)
}

// Copies of the polynomials of rules.
fn polynomials(alloc: Global, rules: &[Rule]) -> Result<Listing<Poly>, AllocError>
    ensures { IfOk result (λ polys. polys ≡ polynomials_in rules.now) }
{
    let mut polys = Listing::new(alloc);
    for rule in rules {
        polys.push(rule.poly.copy()?)?;
    }
    Ok(polys)
}
