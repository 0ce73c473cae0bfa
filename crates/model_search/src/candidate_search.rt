//! The search for candidates that break claims, on several threads.
ghost use Rattle.std.specs.Prelude.{◌≡◌, ◌<◌, ◌≤◌, ◌+◌, ◌^◌, ℕ, length, get_or, is_none, replicate, None, MatchOption};
ghost use Rattle.std.specs.Prelude.{◌↔◌, IfSome, IfNone, IfOk, IsNone, IsTrue, OnOk};
ghost use Rattle.std.specs.List.{All, AllZip, list_any, range_with_len};
ghost use Rattle.in_order_parallel.specs.Limits.{worker_limit};
ghost use Rattle.quiver.specs.Declarations.{quiver_of};
ghost use Rattle.adjoint_rules.specs.declared.parts.Shape.{Shape as ShapeValue};
ghost use Rattle.model_checker.specs.Models.{IsClaimNumber, IsZeroIn, claim_polynomial};
ghost use Rattle.model_candidates.specs.Candidates.{IsLeastBreaking, IsShapeOf, NoneBreaks, model_by};
ghost use Rattle.model_candidates.specs.Plans.{AreEntryValues, IsPlan};
ghost use Rattle.model_search.specs.Searches.{CanBeTested, BreaksAt, NoneBreaksAt, AreOfClaims, IsTested, AreTested, AreTold};
ghost use Rattle.model_search.specs.Searches.{IsFlag, HasFlag, AreUnbroken, IsFirstBroken, IsFoundAt, IsFirstFrom, AreSearchedTo};

use crate::Found;
use adjoint_rules::Problem;
use in_order_parallel::{Crew, Gate, Job, map_in_order};
use lists::Listing;
use model_candidates::{
    Plan, candidate_by, candidate_values, candidates, is_claim_zero, is_model, plan_of,
};
use std::alloc::{AllocError, Global};
use std::thread::Threads;

// How many candidates are tested in one block.
const BLOCK: u32 = 256;

// The claims that are searched, and the shape whose candidates are tested.
#[derive(Clone, Copy)]
struct Pass<'a> {
    alloc: Global,
    problem: &'a Problem,
    plan: &'a Plan,
    seed: u64,
    claims: &'a [u32],
}

// The test of candidates for the claims for which none was found.
#[derive(Clone, Copy)]
struct Tester<'a> {
    pass: Pass<'a>,
    found: &'a [Option<Found>],
}

// For each claim whether a candidate breaks it, or `None` where it breaks none.
type Broken = Option<Listing<bool>>;

impl Job for Tester<'_> {
    type In = u32;

    type Out = Result<Broken, AllocError>;

    ghost can_go = { λ job k. CanBeTested job.pass.problem.now job.pass.claims.now job.pass.plan.now k
        × (length job.found.now ≡ length job.pass.claims.now) };

    ghost gives = { λ job k answer. IfOk answer (IsTested job.pass.problem.now job.pass.seed job.pass.plan.now.number
        job.pass.claims.now job.found.now k) };

    fn go(&self, candidate: &u32) -> Result<Broken, AllocError> {
        test(&self.pass, self.found, *candidate)
    }
}

// For each claim with no candidate yet whether this one breaks it.
fn test(pass: &Pass, found: &[Option<Found>], candidate: u32) -> Result<Broken, AllocError>
    requires tested { CanBeTested pass.now.problem.now pass.now.claims.now pass.now.plan.now candidate }
    requires one_each { length found.now ≡ length pass.now.claims.now }
    ensures { IfOk result (IsTested pass.now.problem.now pass.now.seed pass.now.plan.now.number pass.now.claims.now found.now candidate) }
{
    let drawn = candidate_values(pass.alloc, pass.problem, pass.plan, pass.seed, candidate)?;
    let Some(values) = drawn else {
        return Ok(None);
    };
    let entries = values.as_slice();
    if !is_model(pass.problem, pass.plan, entries) {
        return Ok(None);
    }
    Ok(Some(broken_claims(pass, found, entries)?))
}

// For each claim with no candidate yet whether it isn't zero in the model by these values of the entries.
fn broken_claims(
    pass: &Pass,
    found: &[Option<Found>],
    values: &[u32],
) -> Result<Listing<bool>, AllocError>
    requires claims { All (IsClaimNumber pass.now.problem.now) pass.now.claims.now }
    requires plan { IsPlan pass.now.problem.now pass.now.plan.now }
    requires values { (s : ShapeValue) → IsShapeOf pass.now.problem.now pass.now.plan.now.number s
        → AreEntryValues pass.now.problem.now s values.now }
    requires one_each { length found.now ≡ length pass.now.claims.now }
    ensures { IfOk result (λ flags. (s : ShapeValue) → IsShapeOf pass.now.problem.now pass.now.plan.now.number s
        → AreOfClaims pass.now.problem.now (model_by (quiver_of pass.now.problem.now.parts.quiver) s 0 values.now)
        pass.now.claims.now found.now flags) }
{
    let mut broken = Listing::with_room(pass.alloc, pass.claims.len())?;
    for place in 0..pass.claims.len() {
        broken.push(is_broken(pass, &found[place], values, pass.claims[place]))?;
    }
    Ok(broken)
}

// Whether the claim has no candidate yet and isn't zero in the model by these values of the entries.
fn is_broken(pass: &Pass, found: &Option<Found>, values: &[u32], claim: u32) -> bool
    requires plan { IsPlan pass.now.problem.now pass.now.plan.now }
    requires values { (s : ShapeValue) → IsShapeOf pass.now.problem.now pass.now.plan.now.number s
        → AreEntryValues pass.now.problem.now s values.now }
    requires claim { IsClaimNumber pass.now.problem.now claim }
    ensures { (s : ShapeValue) → IsShapeOf pass.now.problem.now pass.now.plan.now.number s → IsNone found.now
        → IsTrue result ↔ (¬ IsZeroIn pass.now.problem.now (model_by (quiver_of pass.now.problem.now.parts.quiver) s 0 values.now)
        (claim_polynomial pass.now.problem.now claim)) }
{
    if found.is_some() {
        return false;
    }
    !is_claim_zero(pass.problem, pass.plan, values, claim)
}

// `count` numbers, from `first` on.
fn numbers_from(alloc: Global, first: u32, count: u32) -> Result<Vec<u32>, AllocError>
    requires { first + count < 2 ^ 32 }
    ensures { IfOk result (λ numbers. numbers.items ≡ range_with_len first count) }
{
    (first..first + count).collect(alloc)
}

// The answers to the tests of `count` candidates, from `first` on.
fn answers_of<R: Threads + Sync, G: Gate + Sync>(
    crew: &Crew<'_, R, G>,
    tester: &Tester,
    first: u32,
    count: u32,
) -> Result<Vec<Result<Broken, AllocError>>, AllocError>
    requires fits { first + count < 2 ^ 32 }
    requires inside { (k : ℕ) → k < first + count
        → CanBeTested tester.now.pass.problem.now tester.now.pass.claims.now tester.now.pass.plan.now k }
    requires one_each { length tester.now.found.now ≡ length tester.now.pass.claims.now }
    requires some_worker { 0 < crew.now.workers }
    requires few_workers { crew.now.workers ≤ worker_limit }
    ensures { IfOk result (λ answers. AreTested tester.now.pass.problem.now tester.now.pass.seed tester.now.pass.plan.now.number
        tester.now.pass.claims.now tester.now.found.now first count answers.items) }
{
    let numbers = numbers_from(tester.pass.alloc, first, count)?;
    map_in_order(
        crew.rt,
        tester.pass.alloc,
        numbers.as_slice(),
        tester,
        crew.workers,
        crew.gate,
    )
}

// Whether the claim at this place is broken by the answer.
fn has_broken(answer: &Result<Broken, AllocError>, place: usize) -> Result<bool, AllocError>
    requires { HasFlag place answer.now }
    ensures { IfOk result (λ broken. IsFlag place broken answer.now) }
{
    match answer {
        Ok(Some(broken)) => Ok(*broken.at(place)),
        Ok(None) => Ok(false),
        Err(failed) => Err(*failed),
    }
}

// The first of the answers by which the claim at this place is broken. Want of memory for a later one doesn't matter.
fn first_broken(
    answers: &[Result<Broken, AllocError>],
    place: usize,
) -> Result<Option<usize>, AllocError>
    requires { All (HasFlag place) answers.now }
    ensures { IfOk result (λ number. MatchOption number (AreUnbroken place (length answers.now) answers.now)
        (IsFirstBroken place answers.now)) }
{
    for number in 0..answers.len() {
        if has_broken(&answers[number], place)? {
            return Ok(Some(number));
        }
    }
    Ok(None)
}

// The candidate with this number, which breaks the claim.
fn found_at(pass: &Pass, claim: u32, candidate: u32) -> Result<Found, AllocError>
    requires plan { IsPlan pass.now.problem.now pass.now.plan.now }
    requires breaks { BreaksAt pass.now.problem.now claim pass.now.seed pass.now.plan.now.number candidate }
    ensures { IfOk result (IsFoundAt pass.now.problem.now claim pass.now.seed pass.now.plan.now.number candidate) }
{
    match candidate_by(pass.alloc, pass.problem, pass.plan, pass.seed, candidate)? {
        Some(mut model) => {
            model.claim = claim;
            Ok(Found {
                shape: pass.plan.number,
                candidate,
                model,
            })
        }
        None => unreachable!(),
    }
}

// The first of the candidates with answers, from `first` on, that breaks the claim at this place.
fn found_among(
    pass: &Pass,
    answers: &[Result<Broken, AllocError>],
    first: u32,
    place: usize,
) -> Result<Option<Found>, AllocError>
    requires plan { IsPlan pass.now.problem.now pass.now.plan.now }
    requires place { place < length pass.now.claims.now }
    requires fits { first + length answers.now < 2 ^ 32 }
    requires told { AreTold pass.now.problem.now (get_or pass.now.claims.now place 0) pass.now.seed pass.now.plan.now.number
        first place answers.now }
    ensures { IfOk result (λ found. MatchOption found
        ((k : ℕ) → first ≤ k → k < first + length answers.now
        → NoneBreaksAt pass.now.problem.now (get_or pass.now.claims.now place 0) pass.now.seed pass.now.plan.now.number k)
        (IsFirstFrom pass.now.problem.now (get_or pass.now.claims.now place 0) pass.now.seed pass.now.plan.now.number first)) }
{
    match first_broken(answers, place)? {
        Some(number) => Ok(Some(found_at(pass, pass.claims[place], first + number as u32)?)),
        None => Ok(None),
    }
}

// Stores the first candidates for claims that had none, by the answers to the tests from `first` on.
fn note(
    pass: &Pass,
    answers: &[Result<Broken, AllocError>],
    first: u32,
    found: &mut [Option<Found>],
) -> Result<(), AllocError>
    requires plan { IsPlan pass.now.problem.now pass.now.plan.now }
    requires fits { first + length answers.now < 2 ^ 32 }
    requires tested { AreTested pass.now.problem.now pass.now.seed pass.now.plan.now.number pass.now.claims.now
        found.old first (length answers.now) answers.now }
    requires before { AreSearchedTo pass.now.problem.now pass.now.seed pass.now.plan.now.number first pass.now.claims.now found.old }
    ensures { OnOk result (AreSearchedTo pass.now.problem.now pass.now.seed pass.now.plan.now.number (first + length answers.now)
        pass.now.claims.now found.new) }
{
    for place in 0..pass.claims.len() {
        if found[place].is_none() {
            found[place] = found_among(pass, answers, first, place)?;
        }
    }
    Ok(())
}

// Whether some claim has no candidate yet.
fn is_open(found: &[Option<Found>]) -> bool
    ensures { result ≡ list_any is_none found.now }
{
    found.iter().any(|one| one.is_none())
}

// Stores the first candidates of the shape that break claims that had none.
fn search_shape<R: Threads + Sync, G: Gate + Sync>(
    crew: &Crew<'_, R, G>,
    pass: &Pass,
    found: &mut Vec<Option<Found>>,
) -> Result<(), AllocError>
    requires claims { All (IsClaimNumber pass.now.problem.now) pass.now.claims.now }
    requires plan { IsPlan pass.now.problem.now pass.now.plan.now }
    requires before { AreSearchedTo pass.now.problem.now pass.now.seed pass.now.plan.now.number 0 pass.now.claims.now found.old.items }
    requires some_worker { 0 < crew.now.workers }
    requires few_workers { crew.now.workers ≤ worker_limit }
    ensures { OnOk result (AreSearchedTo pass.now.problem.now pass.now.seed (pass.now.plan.now.number + 1) 0 pass.now.claims.now
        found.new.items) }
{
    let count = candidates(pass.problem, pass.plan.number);
    let mut first = 0;
    while first < count {
        if !is_open(found) {
            return Ok(());
        }
        let size = BLOCK.min(count - first);
        let tester = Tester { pass: *pass, found };
        let answers = answers_of(crew, &tester, first, size)?;
        note(pass, &answers, first, found)?;
        first += size;
    }
    Ok(())
}

/// The candidate of least shape and then least number that breaks the claim, with the claim's number; None exactly where no
/// candidate of any shape does. The candidates of a shape are tested in blocks of 256 on at most as many threads as there are
/// workers, and after a block that has one no other is begun.
///
/// It fails only where memory is short.
pub fn search<R: Threads + Sync, G: Gate + Sync>(
    rt: &R,
    alloc: Global,
    problem: &Problem,
    claim: u32,
    seed: u64,
    workers: u32,
    gate: &G,
) -> Result<Option<Found>, AllocError>
    requires claim { IsClaimNumber problem.now claim }
    requires some_worker { 0 < workers }
    requires few_workers { workers ≤ worker_limit }
    ensures found { IfOk result (λ found. IfSome found (λ f. IsLeastBreaking problem.now claim seed f.shape f.candidate f.model)) }
    ensures none { IfOk result (λ found. IfNone found (NoneBreaks problem.now claim seed)) }
{
    let crew = Crew { rt, workers, gate };
    let found = search_each(&crew, alloc, problem, &[claim], seed)?;
    match found.into_vec().pop() {
        Some(found) => Ok(found),
        None => unreachable!(),
    }
}

/// The result of `search` for each of these claims, in order. All of them are tested in one pass over the candidates, each until a
/// candidate breaks it, and after a block by which each has one no other is begun.
///
/// It fails only where memory is short.
pub fn search_each<R: Threads + Sync, G: Gate + Sync>(
    crew: &Crew<'_, R, G>,
    alloc: Global,
    problem: &Problem,
    claims: &[u32],
    seed: u64,
) -> Result<Listing<Option<Found>>, AllocError>
    requires claims { All (IsClaimNumber problem.now) claims.now }
    requires some_worker { 0 < crew.now.workers }
    requires few_workers { crew.now.workers ≤ worker_limit }
    ensures found { IfOk result (AllZip (λ claim found.
        IfSome found (λ f. IsLeastBreaking problem.now claim seed f.shape f.candidate f.model)) claims.now) }
    ensures none { IfOk result (AllZip (λ claim found. IfNone found (NoneBreaks problem.now claim seed)) claims.now) }
{
    let mut found = no_candidates(alloc, claims.len())?;
    for place in 0..problem.parts.shapes.len() {
        let plan = plan_of(alloc, problem, place as u32 + 1)?;
        let pass = Pass {
            alloc,
            problem,
            plan: &plan,
            seed,
            claims,
        };
        search_shape(crew, &pass, &mut found)?;
    }
    Ok(Listing::from_vec(found))
}

// No candidate for `count` claims.
fn no_candidates(alloc: Global, count: usize) -> Result<Vec<Option<Found>>, AllocError>
    ensures { IfOk result (λ found. found.items ≡ replicate count None) }
{
    let mut found = Vec::with_capacity(alloc, count)?;
    for _ in 0..count {
        found.push(None)?;
    }
    Ok(found)
}
