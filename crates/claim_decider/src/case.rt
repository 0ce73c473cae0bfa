//! A claim before it has its outcome, and after.
ghost use Rattle.std.specs.Prelude.{◌≡◌, ◌<◌, ◌≤◌, ◌-◌, length, IfOk, OnOk};
ghost use Rattle.std.specs.List.{All, AllZip};
ghost use Rattle.traced_completion.specs.declared.budget.Budget.{Budget};
ghost use Rattle.traced_completion.specs.PlainRun.{start, setting_of};
ghost use Rattle.traced_completion.specs.Completions.{IsCompletionOf, state_of};
ghost use Rattle.adjoint_rules.specs.Claims.{claim_at};
ghost use Rattle.claim_decider.specs.Cases.{IsJudged, Follows, IsCase, IsNumber, IsOfProblem, HasRounds};

use crate::Outcome;
use crate::causes::halted;
use crate::proof::{prove, prove_zero};
use adjoint_rules::Problem;
use cofactor_trace::{Format, Made, Place};
use lists::Duplicate;
use nc_polynomial::Poly;
use std::alloc::{AllocError, Global};
use std::mem;
use traced_completion::{Completion, Step, reduction_cause};

/// The state of a claim.
#[derive(Drop)]
pub enum Standing {
    /// It has a nonzero rest by the rules so far.
    Open(Poly),
    /// It has its outcome.
    Settled(Outcome),
}

/// A claim by its number, and its state.
#[derive(Drop)]
pub struct Case {
    pub number: u32,
    pub standing: Standing,
}

// The claim with this number before the first round.
pub(crate) fn open_case(
    alloc: Global,
    problem: &Problem,
    format: Format,
    number: u32,
) -> Result<Case, AllocError>
    requires number { IsNumber problem.now number }
    ensures number { IfOk result (λ c. c.number ≡ number) }
    ensures case { IfOk result (λ c. (budget : Budget) → IsCase (setting_of problem.now budget) format problem.now 0 start c) }
{
    let claim = problem.parts.claims.at(number as usize - 1);
    if claim.terms() == 0 {
        let evidence = prove_zero(alloc, format, number);
        let standing = Standing::Settled(Outcome::Derived(evidence));
        return Ok(Case { number, standing });
    }
    let standing = Standing::Open(claim.copy()?);
    Ok(Case { number, standing })
}

// The state of an open claim after a completed round.
fn judge(
    alloc: Global,
    problem: &Problem,
    format: Format,
    completion: &Completion,
    number: u32,
) -> Result<Standing, AllocError>
    requires number { IsNumber problem.now number }
    requires of_problem { IsCompletionOf problem.now completion.now }
    requires some_round { 0 < completion.now.rounds }
    ensures { IfOk result (IsJudged (setting_of problem.now completion.now.budget) format number (claim_at problem.now number)
        (completion.now.rounds - 1) (state_of completion.now)) }
{
    let claim = problem.parts.claims.at(number as usize - 1);
    let round = completion.rounds - 1;
    let reduced = match completion
        .rules()
        .normal_form(claim, completion.budget.steps)
    {
        Ok(reduced) => reduced,
        Err(fault) => {
            let outcome = halted(Place::Claim(round), reduction_cause(fault)?);
            return Ok(Standing::Settled(outcome));
        }
    };
    if reduced.rest.terms() > 0 {
        return Ok(Standing::Open(reduced.rest));
    }
    let record = Made {
        scale: reduced.multiplier,
        rows: reduced.rows,
    };
    let place = Place::Certificate(round);
    let outcome = prove(alloc, format, number, place, completion.made(), &record)?;
    Ok(Standing::Settled(outcome))
}

// The claim takes a step of the completion.
pub(crate) fn follow(
    alloc: Global,
    problem: &Problem,
    format: Format,
    completion: &Completion,
    step: &Step,
    case: &mut Case,
) -> Result<(), AllocError>
    requires number { IsOfProblem problem.now case.old }
    requires of_problem { IsCompletionOf problem.now completion.now }
    requires some_round { HasRounds step.now completion.now.rounds }
    ensures { OnOk result (Follows format problem.now completion.now step.now case.old case.new) }
{
    let standing = mem::replace(&mut case.standing, Standing::Open(Poly::zero(alloc)));
    let rest = match standing {
        Standing::Open(rest) => rest,
        Standing::Settled(outcome) => {
            case.standing = Standing::Settled(outcome);
            return Ok(());
        }
    };
    case.standing = match step {
        Step::Went => judge(alloc, problem, format, completion, case.number)?,
        Step::Closed => Standing::Settled(Outcome::Closed { rest }),
        Step::Stopped(halt) => Standing::Settled(Outcome::Halted(halt.duplicate()?)),
    };
    Ok(())
}
