//! The state of a completion.
use crate::{Budget, Pending};
use adjoint_rules::Problem;
use ambiguities::Ambiguity;
use cofactor_trace::{Halt, Made};
use in_order_parallel::Gate;
use lists::Listing;
use rule_reduce::Rules;
use std::alloc::{AllocError, Global};
use std::thread::Threads;
use word_core::Word;
use word_orders::{AnyOrder, OrderFault};

/// The result of a call of `round`.
#[derive(Drop)]
pub enum Step {
    /// The round was completed.
    Went,
    /// Nothing is pending, and no round is made.
    Closed,
    /// No round was made, or it was given up whole.
    Stopped(Halt),
}

/// The rules after this many rounds, with the records of how they were made, and the ambiguities that were and were not treated.
#[derive(Drop)]
pub struct Completion {
    /// The limits of the completion.
    pub budget: Budget,
    /// The number of completed rounds.
    pub rounds: u32,
    /// The rules.
    pub rules: Rules<AnyOrder>,
    /// How each of them was made.
    pub made: Listing<Made>,
    /// The ambiguities that were treated.
    pub treated: Listing<Ambiguity>,
    /// Those that were not, in the order in which they are taken.
    pub waiting: Pending,
    /// Whether the next first reductions are expected to take too few steps for another thread to be started.
    pub is_light: bool,
}

impl Completion {
    ghost use Rattle.std.specs.Prelude.{◌≡◌, ◌<◌, ◌≤◌, length, IfOk, OnErr, Some, slice_get};
    ghost use Rattle.in_order_parallel.specs.Limits.{worker_limit};
    ghost use Rattle.traced_completion.specs.PlainRun.{IsRound, setting_of};
    ghost use Rattle.traced_completion.specs.Completions.{IsBudget, IsCompletionOf, state_of, outcome_of, rounds_after, IsUnchanged, IsUnchangedAfter};

    /// The completion of a problem before its first round. Both numbers of the budget are from 1 to 1,000,000.
    pub fn start(alloc: Global, problem: &Problem, budget: Budget) -> Result<Completion, AllocError>
        requires { IsBudget budget }
        ensures of_problem { IfOk result (IsCompletionOf problem.now) }
        ensures budget { IfOk result (λ c. c.budget ≡ budget) }
        ensures no_round { IfOk result (λ c. c.rounds ≡ 0) }
    {
        let order = match AnyOrder::new(
            alloc,
            &problem.parts.order,
            problem.parts.quiver.letters(),
        ) {
            Ok(order) => order,
            Err(OrderFault::Memory(failed)) => return Err(failed),
            // The order of a problem is valid.
            Err(_) => unreachable!(),
        };
        Ok(Completion {
            budget,
            rounds: 0,
            rules: Rules::new(alloc, order)?,
            made: Listing::new(alloc),
            treated: Listing::new(alloc),
            waiting: Pending::new(alloc),
            is_light: false,
        })
    }

    /// The next round, which is round 0 at the first call; first reductions are made on at most as many threads as there
    /// are workers, from 1 to 64, and on one where they are light. `Went` is returned exactly where the round was completed,
    /// `Closed` exactly where nothing is pending after round 0, and `Stopped` exactly where the budget of pairs is spent or
    /// the round has a fault, which is the first one in the order of the list. Except after `Went` the completion is unchanged,
    /// as it is where memory is short; a later call then returns the same.
    pub fn round<R: Threads + Sync, G: Gate + Sync>(
        &mut self,
        rt: &R,
        alloc: Global,
        problem: &Problem,
        workers: u32,
        gate: &G,
    ) -> Result<Step, AllocError>
        requires of_problem { IsCompletionOf problem.now self.old }
        requires some_worker { 0 < workers }
        requires few_workers { workers ≤ worker_limit }
        ensures exact { IfOk result (λ step. IsRound (setting_of problem.now self.old.budget) self.old.rounds (state_of self.old)
            (outcome_of step (state_of self.new))) }
        ensures of_problem { IsCompletionOf problem.now self.new }
        ensures budget { self.new.budget ≡ self.old.budget }
        ensures rounds { IfOk result (λ step. self.new.rounds ≡ rounds_after step self.old.rounds) }
        ensures unchanged { IfOk result (λ step. IsUnchangedAfter step self.old self.new) }
        ensures err { OnErr result (IsUnchanged self.old self.new) }
    {
        if self.rounds == 0 {
            return self.round_zero(problem);
        }
        if self.waiting.len() == 0 {
            return Ok(Step::Closed);
        }
        if self.treated.len() >= self.budget.pairs as usize {
            return Ok(Step::Stopped(self.spent()?));
        }
        let count = self.next_count();
        let rules = self.rules.len();
        let treated = self.treated.len();
        match self.try_later_round(rt, alloc, count, workers, gate) {
            Ok(()) => {
                self.rounds += 1;
                Ok(Step::Went)
            }
            Err(fault) => self.give_up(fault, rules, treated),
        }
    }

    // Round 0.
    fn round_zero(&mut self, problem: &Problem) -> Result<Step, AllocError>
        requires of_problem { IsCompletionOf problem.now self.old }
        requires first { self.old.rounds ≡ 0 }
        ensures exact { IfOk result (λ step. IsRound (setting_of problem.now self.old.budget) self.old.rounds (state_of self.old)
            (outcome_of step (state_of self.new))) }
        ensures of_problem { IsCompletionOf problem.now self.new }
        ensures budget { self.new.budget ≡ self.old.budget }
        ensures rounds { IfOk result (λ step. self.new.rounds ≡ rounds_after step self.old.rounds) }
        ensures unchanged { IfOk result (λ step. IsUnchangedAfter step self.old self.new) }
        ensures err { OnErr result (IsUnchanged self.old self.new) }
    {
        match self.try_round_zero(problem) {
            Ok(()) => {
                self.rounds += 1;
                self.is_light = self.begins_short();
                Ok(Step::Went)
            }
            Err(fault) => self.give_up(fault, 0, 0),
        }
    }

    /// The rules, in the order in which they were made.
    pub fn rules(&self) -> &Rules<AnyOrder>
        ensures { result.now ≡ self.now.rules }
    {
        &self.rules
    }

    /// How each rule was made, in the order of the rules.
    pub fn made(&self) -> &[Made]
        ensures { result.now ≡ self.now.made }
    {
        self.made.as_slice()
    }

    /// The number of pending ambiguities.
    pub fn pending(&self) -> usize
        ensures { result ≡ length self.now.waiting }
    {
        self.waiting.len()
    }

    /// The pending ambiguity at this place, counted from 0 in the order in which they are taken, and its overlap word.
    pub fn pending_at(&self, place: usize) -> (&Ambiguity, &Word)
        requires { place < length self.now.waiting }
        ensures { slice_get self.now.waiting place ≡ Some (record { which = result.0.now; word = result.1.now }) }
    {
        let waiting = self.waiting.at(place);
        (&waiting.which, &waiting.word)
    }
}
