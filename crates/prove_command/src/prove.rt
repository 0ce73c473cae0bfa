//! What `prove` and `bench` answer.
ghost use Rattle.std.specs.Prelude.{◌≡◌, ◌<◌, ◌≤◌, ◌^◌, IfOk, IfSome, IfNone, length};
ghost use Rattle.std.specs.List.{All, AllZip};
ghost use Rattle.in_order_parallel.specs.Limits.{worker_limit};
ghost use Rattle.command_shape.specs.Calls.{IsInRange};
ghost use Rattle.command_shape.specs.declared.call.Call.TheVariants.{Prove};
ghost use Rattle.adjoint_rules.specs.Claims.{claim_numbers};
ghost use Rattle.model_candidates.specs.Candidates.{IsLeastBreaking, NoneBreaks};
ghost use Rattle.quiver.specs.Over.{IsPolyOver};
ghost use Rattle.report_text.specs.Report.{IsVerdictOver};
ghost use Rattle.report_text.specs.declared.verdict.Verdict.TheVariants.{Refuted, Undecided};
ghost use Rattle.traced_completion.specs.Completions.{IsBudget};
ghost use Rattle.prove_command.specs.Answers.{format_of, asked_by, AreVerdictsOn, Decides, print_of, AnswersClaims};
ghost use Rattle.prove_command.specs.Searched.{searched_from};
ghost use Rattle.command_shape.specs.Stop.{EndsAs};

use adjoint_rules::Problem;
use claim_decider::{Outcome, decide_all};
use cofactor_trace::{Format, Halt};
use command_shape::{DEFAULT_PAIRS, DEFAULT_SEED, DEFAULT_STEPS, Ending, ProveCall};
use in_order_parallel::{Crew, Gate};
use lists::{Listing, Stop};
use model_search::{Found, search_each};
use nc_polynomial::Poly;
use quiver::Quiver;
use report_text::{Verdict, heads, report, status_of};
use std::alloc::{AllocError, Global};
use std::thread::Threads;
use traced_completion::Budget;

/// How claims are decided.
#[derive(Clone, Copy)]
pub struct Asked {
    /// The limits of the completion.
    pub budget: Budget,
    /// The format of evidence.
    pub form: Format,
    /// The seed of the search for models.
    pub seed: u64,
    /// Whether models are searched where a claim is left undecided.
    pub models: bool,
}

/// How much is printed.
#[derive(Clone, Copy)]
pub enum Extent {
    /// The whole report.
    Report,
    /// Only the head lines.
    Heads,
}

/// How `bench` decides its claims.
pub const ASKED_BY_BENCH: Asked = Asked {
    budget: Budget {
        pairs: DEFAULT_PAIRS,
        steps: DEFAULT_STEPS,
    },
    form: Format::Lemmas,
    seed: DEFAULT_SEED,
    models: false,
};

// A verdict on each claim of a problem, and the rules by which they were decided.
#[derive(Drop)]
struct Said {
    verdicts: Listing<Verdict>,
    rules: Listing<Poly>,
}

// The format with this number.
fn format_of(number: u32) -> Format
    ensures { result ≡ format_of number }
{
    match number {
        1 => Format::Plain,
        _ => Format::Lemmas,
    }
}

/// What the words of `prove` ask for.
pub fn asked_by(call: &ProveCall) -> Asked
    requires { IsInRange (Prove call.now) }
    ensures { result ≡ asked_by call.now }
{
    Asked {
        budget: Budget {
            pairs: call.pairs,
            steps: call.steps,
        },
        form: format_of(call.format),
        seed: call.seed,
        models: call.models,
    }
}

// The numbers of the claims for which a model is searched.
fn searched_claims(
    alloc: Global,
    asked: Asked,
    outcomes: &[Outcome],
) -> Result<Vec<u32>, AllocError>
    requires { length outcomes.now < 2 ^ 32 }
    ensures { IfOk result (λ claims. claims.items ≡ searched_from asked.models 1 outcomes.now) }
{
    let mut claims = Vec::new(alloc);
    if asked.models {
        for (place, outcome) in outcomes.iter().enumerate() {
            if let Outcome::Halted(_) = outcome {
                claims.push(place as u32 + 1)?;
            }
        }
    }
    Ok(claims)
}

// For each claim for which a model is searched the least candidate that breaks it, or None where none does. All of them are
// tested in one pass over the candidates, and where there are none no candidate is made.
fn found_for<R: Threads + Sync, G: Gate + Sync>(
    crew: &Crew<'_, R, G>,
    alloc: Global,
    problem: &Problem,
    asked: Asked,
    outcomes: &[Outcome],
) -> Result<Listing<Option<Found>>, AllocError>
    requires one_each { length outcomes.now ≡ length problem.now.parts.claims }
    requires some_worker { 0 < crew.now.workers }
    requires few_workers { crew.now.workers ≤ worker_limit }
    ensures found { IfOk result (AllZip (λ claim found.
        IfSome found (λ f. IsLeastBreaking problem.now claim asked.seed f.shape f.candidate f.model))
        (searched_from asked.models 1 outcomes.now)) }
    ensures none { IfOk result (AllZip (λ claim found. IfNone found (NoneBreaks problem.now claim asked.seed))
        (searched_from asked.models 1 outcomes.now)) }
{
    let claims = searched_claims(alloc, asked, outcomes)?;
    if claims.is_empty() {
        return Ok(Listing::new(alloc));
    }
    search_each(crew, alloc, problem, claims.as_slice(), asked.seed)
}

// The verdict on a claim that halted, by what was found for it.
fn verdict_on_halted(halt: Halt, found: Option<Found>) -> Verdict
    ensures refuted { IfSome found (λ f. result ≡ Refuted f.model) }
    ensures undecided { IfNone found (result ≡ Undecided halt) }
{
    match found {
        Some(found) => Verdict::Refuted(found.model),
        None => Verdict::Undecided(halt),
    }
}

// The verdict on each claim by its outcome.
fn verdicts_of<R: Threads + Sync, G: Gate + Sync>(
    crew: &Crew<'_, R, G>,
    alloc: Global,
    problem: &Problem,
    asked: Asked,
    outcomes: Listing<Outcome>,
) -> Result<Listing<Verdict>, AllocError>
    requires one_each { length outcomes ≡ length problem.now.parts.claims }
    requires some_worker { 0 < crew.now.workers }
    requires few_workers { crew.now.workers ≤ worker_limit }
    ensures { IfOk result (AreVerdictsOn problem.now asked (claim_numbers problem.now) outcomes) }
{
    let found = found_for(crew, alloc, problem, asked, outcomes.as_slice())?;
    let mut found = found.into_vec().into_iter();
    let mut verdicts = Listing::with_room(alloc, outcomes.len())?;
    for outcome in outcomes.into_vec() {
        let verdict = match outcome {
            Outcome::Derived(evidence) => Verdict::Proved(evidence),
            Outcome::Closed { rest } => Verdict::NotDerivable { rest },
            Outcome::Halted(halt) => verdict_on_halted(halt, found.next().flatten()),
        };
        verdicts.push(verdict)?;
    }
    Ok(verdicts)
}

// Decides the claims of the problem.
fn decide<R: Threads + Sync, G: Gate + Sync>(
    crew: &Crew<'_, R, G>,
    alloc: Global,
    problem: &Problem,
    asked: Asked,
) -> Result<Said, AllocError>
    requires budget { IsBudget asked.budget }
    requires some_worker { 0 < crew.now.workers }
    requires few_workers { crew.now.workers ≤ worker_limit }
    ensures decides { IfOk result (λ said. Decides problem.now asked said.verdicts said.rules) }
    ensures verdicts { IfOk result (λ said. All (IsVerdictOver problem.now.parts.quiver) said.verdicts) }
    ensures rules { IfOk result (λ said. All (IsPolyOver problem.now.parts.quiver) said.rules) }
{
    let (rt, workers, gate) = (crew.rt, crew.workers, crew.gate);
    let decided = decide_all(rt, alloc, problem, asked.budget, asked.form, workers, gate)?;
    let verdicts = verdicts_of(crew, alloc, problem, asked, decided.outcomes)?;
    Ok(Said {
        verdicts,
        rules: decided.rules,
    })
}

// The text of verdicts and rules.
fn printed(
    alloc: Global,
    extent: Extent,
    quiver: &Quiver,
    verdicts: &[Verdict],
    rules: &[Poly],
) -> Result<Vec<u8>, AllocError>
    requires verdicts { All (IsVerdictOver quiver.now) verdicts.now }
    requires rules { All (IsPolyOver quiver.now) rules.now }
    ensures { IfOk result (λ text. text.items ≡ print_of extent quiver.now rules.now verdicts.now) }
{
    match extent {
        Extent::Report => report(alloc, quiver, verdicts, rules),
        Extent::Heads => heads(alloc, quiver, verdicts, rules),
    }
}

/// How a run of `prove` or `bench` ends over a problem: all verdicts are printed.
pub fn report_claims<R: Threads + Sync, G: Gate + Sync>(
    crew: &Crew<'_, R, G>,
    alloc: Global,
    problem: &Problem,
    asked: Asked,
    extent: Extent,
) -> Result<Ending, Stop<Ending>>
    requires budget { IsBudget asked.budget }
    requires some_worker { 0 < crew.now.workers }
    requires few_workers { crew.now.workers ≤ worker_limit }
    ensures { EndsAs (AnswersClaims (print_of extent) asked problem.now) result }
{
    let said = decide(crew, alloc, problem, asked)?;
    let verdicts = said.verdicts.as_slice();
    let rules = said.rules.as_slice();
    let text = printed(alloc, extent, &problem.parts.quiver, verdicts, rules)?;
    Ok(Ending::decided(status_of(verdicts), text))
}
