//! Numbered rules, and the normal forms that they give.

ghost use Rattle.std.specs.Prelude.{◌≡◌, ◌<◌, ◌^◌, length};
ghost use Rattle.std.specs.List.{All};
ghost use Rattle.rule_reduce.specs.RuleLists.{IsRule, entries_of};

use crate::choosing::choose;
use crate::fault::halt;
use crate::making::{has_no_empty_word, is_led_by_positive, is_primitive, make_rule};
use crate::state::Progress;
use crate::stepping::{start, take_step};
use crate::store::RowStore;
use crate::{ReduceFault, Rule};
use lists::Listing;
use nc_polynomial::Poly;
use rule_index::Index;
use std::alloc::{AllocError, Global};
use traced_rows::Row;
use word_core::Word;
use word_orders::WordOrder;

/// A normal form: the multiplier times the polynomial is the rest plus the sum of the rows.
#[derive(Drop)]
pub struct Reduced {
    /// By what the polynomial is multiplied.
    pub multiplier: i128,
    /// What is left. No word of it has a leading word in it.
    pub rest: Poly,
    /// The multiples of rules that were taken away, in the order of the steps.
    pub rows: Listing<Row>,
    /// The number of steps.
    pub used: u32,
}

/// A normal form without its rows: the multiplier times the polynomial is the rest plus a sum of multiples of rules.
#[derive(Drop)]
pub struct Remainder {
    /// By what the polynomial is multiplied.
    pub multiplier: i128,
    /// What is left. No word of it has a leading word in it.
    pub rest: Poly,
    /// The number of steps.
    pub used: u32,
}

/// Rules with the numbers 1, 2 and so on, in the order in which they were pushed, and the order of words.
#[derive(Drop)]
pub struct Rules<O: WordOrder> {
    /// The order of words.
    pub order: O,
    /// The rules.
    pub rules: Listing<Rule>,
    /// Their leading words with their numbers.
    pub index: Index,
    pub ghost each: { All (IsRule (O.letters order) (O.compare order)) rules },
    pub ghost indexed: { index ≡ entries_of rules },
    pub ghost few: { length rules < 2 ^ 32 },
}

impl<O: WordOrder + Drop> Rules<O> {
    ghost use Rattle.std.specs.Prelude.{◌≡◌, ◌↔◌, ◌<◌, ◌≤◌, ◌+◌, ◌++◌, ◌^◌, ◌<ℤ◌, suc, pos, [], length, take, MatchResult, IfOk, OnOk};
    ghost use Rattle.std.specs.Prelude.{OnErr, IsSomeAnd, IsTrue, Ok, Some, option_to_list};
    ghost use Rattle.std.specs.Option.{option_map};
    ghost use Rattle.coef_int.specs.Range.{IsCoefficient};
    ghost use Rattle.word_core.specs.Letters.{IsOver};
    ghost use Rattle.nc_polynomial.specs.Content.{IsContent};
    ghost use Rattle.nc_polynomial.specs.Shape.{IsCanonical};
    ghost use Rattle.rule_reduce.specs.Leading.{leading_term};
    ghost use Rattle.rule_reduce.specs.RuleLists.{rule_at, rule_from};
    ghost use Rattle.rule_reduce.specs.Stores.{without_rows, IsBounded, Shows};
    ghost use Rattle.rule_reduce.specs.NormalForms.{normal_form_of, ExplainsHalt};

    /// No rules, with an order of words.
    pub fn new(alloc: Global, order: O) -> Result<Rules<O>, AllocError>
        ensures rules { IfOk result (λ r. r.rules ≡ []) }
        ensures order { IfOk result (λ r. r.order ≡ order) }
    {
        Ok(Rules {
            order,
            rules: Listing::new(alloc),
            index: Index::new(alloc)?,
        })
    }

    /// One rule more, whose number is returned; where memory is short, the rules as they were. The polynomial is
    /// primitive, which is to say that its content is 1, and has a positive coefficient at its leading word.
    pub fn push(&mut self, poly: Poly) -> Result<u32, AllocError>
        requires primitive { IsContent poly.terms (pos 1) }
        requires positive { IsSomeAnd (leading_term (O.compare self.old.order) poly.terms) (λ t. pos 0 <ℤ t.0) }
        requires nonempty { All (λ t. 0 < length t.1) poly.terms }
        requires over { All (λ t. IsOver (O.letters self.old.order) t.1) poly.terms }
        requires few { length self.old.rules + 1 < 2 ^ 32 }
        ensures order { self.new.order ≡ self.old.order }
        ensures ok { OnOk result (self.new.rules ≡ self.old.rules ++ option_to_list (rule_from (O.compare self.old.order) poly)) }
        ensures number { IfOk result (λ n. n ≡ suc (length self.old.rules)) }
        ensures err { OnErr result (self.new.rules ≡ self.old.rules) }
    {
        let rule = make_rule(&self.order, poly)?;
        let lead = rule.lead.copy()?;
        let count = self.rules.len();
        let number = count as u32 + 1;
        self.rules.push(rule)?;
        match self.index.insert(&lead, number) {
            Ok(()) => Ok(number),
            Err(failed) => {
                self.rules.truncate(count);
                Err(failed)
            }
        }
    }

    /// The first rules, as many as `count` says. It takes no memory.
    pub fn truncate(&mut self, count: u32)
        ensures order { self.new.order ≡ self.old.order }
        ensures rules { self.new.rules ≡ take count self.old.rules }
    {
        let count = count as usize;
        self.rules.truncate(count);
        self.index.truncate(count);
    }

    /// Whether the polynomial may be pushed: it is primitive, the coefficient of its leading word is positive, no word of
    /// it is empty, and there is a number for it.
    pub fn may_push(&self, poly: &Poly) -> bool
        requires { All (λ t. IsOver (O.letters self.now.order) t.1) poly.now.terms }
        ensures { IsTrue result ↔ (IsContent poly.now.terms (pos 1)
            × IsSomeAnd (leading_term (O.compare self.now.order) poly.now.terms) (λ t. pos 0 <ℤ t.0)
            × All (λ t. 0 < length t.1) poly.now.terms
            × (length self.now.rules + 1 < 2 ^ 32)) }
    {
        let terms = poly.terms.as_slice();
        is_primitive(poly)
            && is_led_by_positive(&self.order, terms)
            && has_no_empty_word(terms)
            && self.rules.len() < u32::MAX as usize
    }

    /// The number of rules.
    pub fn len(&self) -> u32
        ensures { result ≡ length self.now.rules }
    {
        self.rules.len() as u32
    }

    /// The polynomial of the rule with this number.
    pub fn poly(&self, number: u32) -> &Poly
        requires first { 0 < number }
        requires last { number ≤ length self.now.rules }
        ensures { option_map (λ g. g.poly) (rule_at self.now.rules number) ≡ Some result.now }
    {
        &self.rules.at(number as usize - 1).poly
    }

    /// The coefficient and the word of the leading term of the rule with this number.
    pub fn lead(&self, number: u32) -> (i128, &Word)
        requires first { 0 < number }
        requires last { number ≤ length self.now.rules }
        ensures { IsSomeAnd (rule_at self.now.rules number) (λ g. leading_term (O.compare self.now.order) g.poly.terms ≡ Some (result.0, result.1.now)) }
    {
        let rule = self.rules.at(number as usize - 1);
        (rule.leading, &rule.lead)
    }

    /// The normal form of the polynomial by the rules. Each step takes the greatest word in which a leading word occurs,
    /// the least number of a rule whose leading word does, and its leftmost place. `Steps` comes exactly where as many
    /// steps as `steps` says were made and a word can still be reduced, `Overflow` and `Size` exactly where a step
    /// meets them.
    pub fn normal_form(&self, poly: &Poly, steps: u32) -> Result<Reduced, ReduceFault>
        requires over { All (λ t. IsOver (O.letters self.now.order) t.1) poly.now.terms }
        ensures over { IfOk result (λ r. All (λ t. IsOver (O.letters self.now.order) t.1) r.rest.terms) }
        ensures multiplier_in { IfOk result (λ r. IsCoefficient r.multiplier) }
        ensures rows_in { IfOk result (λ r. All (λ row. IsCoefficient row.coef) r.rows) }
        ensures exact { MatchResult result
            (λ r. normal_form_of (O.compare self.now.order) self.now.rules poly.now.terms steps
            ≡ Ok (record { multiplier = r.multiplier; rest = r.rest.terms; rows = r.rows; used = r.used }))
            (ExplainsHalt (normal_form_of (O.compare self.now.order) self.now.rules poly.now.terms steps)) }
    {
        let rows: Listing<Row> = Listing::new(self.rules.allocator());
        let end = self.reduce(poly, rows, steps)?;
        Ok(Reduced {
            multiplier: end.multiplier,
            rest: Poly { terms: end.rest },
            rows: end.rows,
            used: end.used,
        })
    }

    /// What the rules leave of the polynomial: the same normal form without its rows, of which the coefficients alone are
    /// kept meanwhile.
    pub fn remainder(&self, poly: &Poly, steps: u32) -> Result<Remainder, ReduceFault>
        requires over { All (λ t. IsOver (O.letters self.now.order) t.1) poly.now.terms }
        ensures over { IfOk result (λ r. All (λ t. IsOver (O.letters self.now.order) t.1) r.rest.terms) }
        ensures multiplier_in { IfOk result (λ r. IsCoefficient r.multiplier) }
        ensures exact { MatchResult result
            (λ r. without_rows (normal_form_of (O.compare self.now.order) self.now.rules poly.now.terms steps)
            ≡ Ok (r.multiplier, r.rest.terms, r.used))
            (ExplainsHalt (normal_form_of (O.compare self.now.order) self.now.rules poly.now.terms steps)) }
    {
        let numbers: Listing<i128> = Listing::new(self.rules.allocator());
        let end = self.reduce(poly, numbers, steps)?;
        Ok(Remainder {
            multiplier: end.multiplier,
            rest: Poly { terms: end.rest },
            used: end.used,
        })
    }

    // Steps until no word can be reduced. The store has no rows yet.
    fn reduce<S: RowStore>(
        &self,
        poly: &Poly,
        rows: S,
        steps: u32,
    ) -> Result<Progress<S>, ReduceFault>
        requires over { All (λ t. IsOver (O.letters self.now.order) t.1) poly.now.terms }
        requires none { rows ≡ S.of [] }
        ensures canonical { IfOk result (λ t. IsCanonical t.rest) }
        ensures in_range { IfOk result (IsBounded S.numbers) }
        ensures over { IfOk result (λ t. All (λ u. IsOver (O.letters self.now.order) u.1) t.rest) }
        ensures exact { MatchResult result
            (Shows S.of (normal_form_of (O.compare self.now.order) self.now.rules poly.now.terms steps))
            (ExplainsHalt (normal_form_of (O.compare self.now.order) self.now.rules poly.now.terms steps)) }
    {
        let mut state = start(poly, rows)?;
        let mut last: Option<Word> = None;
        for _ in 0..steps {
            let terms = state.rest.as_slice();
            let choice = match choose(&self.order, &self.index, last.as_ref(), terms)? {
                Some(choice) => choice,
                None => return Ok(state),
            };
            state = match take_step(
                self.rules.allocator(),
                self.rules.as_slice(),
                &choice,
                state,
            ) {
                Ok(next) => next,
                Err(fault) => return Err(halt(fault)),
            };
            last = Some(choice.word);
        }
        match choose(
            &self.order,
            &self.index,
            last.as_ref(),
            state.rest.as_slice(),
        )? {
            Some(_) => Err(ReduceFault::Steps { limit: steps }),
            None => Ok(state),
        }
    }
}
