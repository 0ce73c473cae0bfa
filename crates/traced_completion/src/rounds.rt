//! Rounds until their first fault, and how they are given up.
ghost use Rattle.std.specs.Prelude.{◌≡◌, ◌<◌, ◌≤◌, ◌+◌, ◌++◌, ◌^◌, [], length, map, take, IfOk, IfErr, OnOk, OnErr, Ok};
ghost use Rattle.std.specs.List.{All};
ghost use Rattle.in_order_parallel.specs.Limits.{worker_limit};
ghost use Rattle.word_core.specs.Letters.{IsOver};
ghost use Rattle.word_orders.specs.Specified.{made_cmp, letters_of};
ghost use Rattle.ambiguities.specs.Ambiguities.{IsAmbiguity};
ghost use Rattle.adjoint_rules.specs.Problem.{polynomials};
ghost use Rattle.adjoint_rules.specs.Parts.{units_in};
ghost use Rattle.traced_completion.specs.Results.{each_in_turn};
ghost use Rattle.traced_completion.specs.Works.{generator_work, first_of, InTurn, InTwoPasses, EndsWith};
ghost use Rattle.traced_completion.specs.UnitsFirst.{units_first};
ghost use Rattle.traced_completion.specs.Pending.{IsNextStore, ambiguities_of, first_word};
ghost use Rattle.rule_making.specs.Records.{HasRecords};
ghost use Rattle.traced_completion.specs.Reductions.{IsReducible};
ghost use Rattle.traced_completion.specs.PlainRun.{recorded, taken_count};
ghost use Rattle.cofactor_trace.specs.declared.halt.Cause.TheVariants as cause;
ghost use Rattle.cofactor_trace.specs.declared.halt.Place.TheVariants as place;
ghost use Rattle.traced_completion.specs.Completions.{IsGivingUp, state_of};

use crate::causes::reduction_cause;
use crate::first_reductions::{Reducer, reduce_all, step_count};
use crate::generators::reduce_generators;
use crate::passes::treat_all;
use crate::{Completion, Step};
use adjoint_rules::Problem;
use ambiguities::Ambiguity;
use cofactor_trace::{Cause, Halt, Place};
use in_order_parallel::Gate;
use lists::Listing;
use rule_reduce::ReduceFault;
use std::alloc::{AllocError, Global};
use std::thread::Threads;
use word_core::Word;

// The greatest number of ambiguities that a round takes.
const ROUND_LIMIT: usize = 32;

// The number of steps of a round below which starting threads takes longer than they save.
const LIGHT_STEPS: u32 = 4096;

// The number of letters of the least overlap word below which the first round of ambiguities is taken to be light.
const LIGHT_LETTERS: usize = 16;

// Appends the ambiguities.
fn push_treated(treated: &mut Listing<Ambiguity>, taken: &[Ambiguity]) -> Result<(), AllocError>
    ensures ok { OnOk result (treated.new ≡ treated.old ++ taken.now) }
    ensures front { take (length treated.old) treated.new ≡ treated.old }
{
    for which in taken {
        treated.push(*which)?;
    }
    Ok(())
}

impl Completion {
    // Round 0. Where it has a fault, rules may have been appended that have to be removed.
    pub(crate) fn try_round_zero(&mut self, problem: &Problem) -> Result<(), ReduceFault>
        requires reducible { All (IsReducible (letters_of self.old.rules.order)) problem.now.generators }
        requires no_rules { self.old.rules.rules ≡ [] }
        requires no_records { self.old.made ≡ [] }
        requires none_waiting { self.old.waiting ≡ [] }
        ensures budget { self.new.budget ≡ self.old.budget }
        ensures rounds { self.new.rounds ≡ self.old.rounds }
        ensures order { self.new.rules.order ≡ self.old.rules.order }
        ensures treated { self.new.treated ≡ self.old.treated }
        ensures records { OnOk result (HasRecords (recorded (state_of self.new))) }
        ensures most { length self.new.rules.rules ≤ length problem.now.generators }
        ensures next { OnOk result (IsNextStore (made_cmp self.old.rules.order) self.new.rules.rules 0 0 self.old.waiting self.new.waiting) }
        ensures exact { OnOk result (InTurn (made_cmp self.old.rules.order)
            (map (generator_work (made_cmp self.old.rules.order) self.old.budget.steps (polynomials problem.now.generators))
            (units_first (length (units_in problem.now.parts)) (length problem.now.generators)))
            (recorded (state_of self.old)) (Ok (recorded (state_of self.new)))) }
        ensures fault { IfErr result (EndsWith
            (InTurn (made_cmp self.old.rules.order)
            (map (generator_work (made_cmp self.old.rules.order) self.old.budget.steps (polynomials problem.now.generators))
            (units_first (length (units_in problem.now.parts)) (length problem.now.generators)))
            (recorded (state_of self.old)))) }
        ensures waiting_back { OnErr result (self.new.waiting ≡ self.old.waiting) }
        ensures light_back { OnErr result (self.new.is_light ≡ self.old.is_light) }
    {
        let generators = problem.generators.as_slice();
        match reduce_generators(
            &mut self.rules,
            &mut self.made,
            generators,
            problem.unit_count,
            self.budget.steps,
        ) {
            Ok(()) => {}
            Err(fault) => return Err(fault),
        }
        self.waiting.advance(&self.rules, 0, 0)?;
        Ok(())
    }

    // A later round, of the first pending ambiguities. Where it has a fault, rules may have been appended that have to be removed.
    pub(crate) fn try_later_round<R: Threads + Sync, G: Gate + Sync>(
        &mut self,
        rt: &R,
        alloc: Global,
        count: usize,
        workers: u32,
        gate: &G,
    ) -> Result<(), ReduceFault>
        requires ambiguities { All (λ w. IsAmbiguity self.old.rules.rules w.which) self.old.waiting }
        requires over { All (λ w. IsOver (letters_of self.old.rules.order) w.word) self.old.waiting }
        requires count { count ≤ length self.old.waiting }
        requires records { HasRecords (recorded (state_of self.old)) }
        requires few { length self.old.rules.rules + count < 2 ^ 32 }
        requires some_worker { 0 < workers }
        requires few_workers { workers ≤ worker_limit }
        ensures budget { self.new.budget ≡ self.old.budget }
        ensures rounds { self.new.rounds ≡ self.old.rounds }
        ensures order { self.new.rules.order ≡ self.old.rules.order }
        ensures treated { OnOk result (self.new.treated ≡ self.old.treated ++ ambiguities_of (take count self.old.waiting)) }
        ensures records { OnOk result (HasRecords (recorded (state_of self.new))) }
        ensures most { length self.new.rules.rules ≤ length self.old.rules.rules + count }
        ensures next { OnOk result (IsNextStore (made_cmp self.old.rules.order) self.new.rules.rules
            (length self.old.rules.rules) count self.old.waiting self.new.waiting) }
        ensures exact { OnOk result (InTwoPasses (made_cmp self.old.rules.order) self.old.budget.steps
            (each_in_turn (first_of (made_cmp self.old.rules.order) self.old.budget.steps self.old.rules.rules)
            (ambiguities_of (take count self.old.waiting)))
            (recorded (state_of self.old)) (Ok (recorded (state_of self.new)))) }
        ensures fault { IfErr result (EndsWith (InTwoPasses (made_cmp self.old.rules.order) self.old.budget.steps
            (each_in_turn (first_of (made_cmp self.old.rules.order) self.old.budget.steps self.old.rules.rules)
            (ambiguities_of (take count self.old.waiting)))
            (recorded (state_of self.old)))) }
        ensures rules_front { take (length self.old.rules.rules) self.new.rules.rules ≡ self.old.rules.rules }
        ensures made_front { take (length self.old.made) self.new.made ≡ self.old.made }
        ensures treated_front { take (length self.old.treated) self.new.treated ≡ self.old.treated }
        ensures waiting_back { OnErr result (self.new.waiting ≡ self.old.waiting) }
        ensures light_back { OnErr result (self.new.is_light ≡ self.old.is_light) }
    {
        let known = self.rules.len();
        let taken = self.waiting.first(alloc, count)?;
        let steps = self.budget.steps;
        let rules = &self.rules;
        let workers = if self.is_light { 1 } else { workers };
        let firsts = reduce_all(rt, alloc, &Reducer { rules, steps }, &taken, workers, gate)?;
        let is_light = step_count(firsts.as_slice()) < LIGHT_STEPS;
        treat_all(&mut self.rules, &mut self.made, firsts, steps)?;
        push_treated(&mut self.treated, &taken)?;
        self.waiting.advance(&self.rules, known, count)?;
        self.is_light = is_light;
        Ok(())
    }

    // Why no more ambiguities are treated where the budget of pairs is spent.
    pub(crate) fn spent(&self) -> Result<Halt, AllocError>
        requires { length self.now.treated < 2 ^ 32 }
        ensures { IfOk result (λ halt.
            halt ≡ record { cause = cause.Pairs (length self.now.treated); place = place.Run; least = first_word self.now.waiting }) }
    {
        Ok(Halt {
            cause: Cause::Pairs {
                spent: self.treated.len() as u32,
            },
            place: Place::Run,
            least: self.least_word()?,
        })
    }

    // How many ambiguities the next round takes: the least of the limit, the pairs left and the number pending.
    pub(crate) fn next_count(&self) -> usize
        requires { length self.now.treated ≤ self.now.budget.pairs }
        ensures { result ≡ taken_count self.now.budget (state_of self.now) self.now.waiting }
    {
        let left = self.budget.pairs as usize - self.treated.len();
        ROUND_LIMIT.min(left.min(self.waiting.len()))
    }

    // Removes the rules and the treated ambiguities after the first ones.
    fn take_back(&mut self, rules: u32, treated: usize)
        ensures budget { self.new.budget ≡ self.old.budget }
        ensures rounds { self.new.rounds ≡ self.old.rounds }
        ensures order { self.new.rules.order ≡ self.old.rules.order }
        ensures rules { self.new.rules.rules ≡ take rules self.old.rules.rules }
        ensures made { self.new.made ≡ take rules self.old.made }
        ensures treated { self.new.treated ≡ take treated self.old.treated }
        ensures waiting { self.new.waiting ≡ self.old.waiting }
        ensures is_light { self.new.is_light ≡ self.old.is_light }
    {
        self.rules.truncate(rules);
        self.made.truncate(rules as usize);
        self.treated.truncate(treated);
    }

    // Whether the least pending overlap word is short, or nothing is pending.
    pub(crate) fn begins_short(&self) -> bool {
        match self.waiting.least() {
            Some(word) => word.len() < LIGHT_LETTERS,
            None => true,
        }
    }

    // The least pending overlap word.
    pub(crate) fn least_word(&self) -> Result<Option<Word>, AllocError>
        ensures { IfOk result (λ least. least ≡ first_word self.now.waiting) }
    {
        match self.waiting.least() {
            Some(word) => Ok(Some(word.copy()?)),
            None => Ok(None),
        }
    }

    // Gives the round up with its fault, and removes what it appended.
    pub(crate) fn give_up(
        &mut self,
        fault: ReduceFault,
        rules: u32,
        treated: usize,
    ) -> Result<Step, AllocError>
        ensures budget { self.new.budget ≡ self.old.budget }
        ensures rounds { self.new.rounds ≡ self.old.rounds }
        ensures order { self.new.rules.order ≡ self.old.rules.order }
        ensures rules { self.new.rules.rules ≡ take rules self.old.rules.rules }
        ensures made { self.new.made ≡ take rules self.old.made }
        ensures treated { self.new.treated ≡ take treated self.old.treated }
        ensures waiting { self.new.waiting ≡ self.old.waiting }
        ensures is_light { self.new.is_light ≡ self.old.is_light }
        ensures stops { IfOk result (IsGivingUp fault self.old.rounds (first_word self.old.waiting)) }
    {
        self.take_back(rules, treated);
        let cause = reduction_cause(fault)?;
        Ok(Step::Stopped(Halt {
            cause,
            place: Place::Round(self.rounds),
            least: self.least_word()?,
        }))
    }
}
