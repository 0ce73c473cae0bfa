//! The second reduction of an ambiguity, and the rule that its rest becomes.
ghost use Rattle.std.specs.Prelude.{◌≡◌, ◌<◌, ◌+◌, ◌^◌, length, MatchResult, IfOk, IfErr, OnOk, OnErr, Ok};
ghost use Rattle.std.specs.List.{All};
ghost use Rattle.coef_int.specs.Range.{IsCoefficient};
ghost use Rattle.coef_int.specs.Operations.{first_overflow};
ghost use Rattle.rule_reduce.specs.Steps.{row_operations};
ghost use Rattle.traced_completion.specs.Results.{Explains, unless_overflow};
ghost use Rattle.traced_completion.specs.Works.{less_rows, second_rows, rows_operations, second_work, Does};
ghost use Rattle.rule_making.specs.Records.{HasRecords};
ghost use Rattle.traced_completion.specs.Reductions.{plain, plain_first, IsKeptFirst};

use crate::first_reductions::First;
use crate::reduction::reduce;
use cofactor_trace::{Made, Row};
use lists::Listing;
use nc_polynomial::Poly;
use rule_making::{join_rows, multiply_rows, negate_rows, push_rule};
use rule_reduce::{ReduceFault, Reduced, Rules};
use word_orders::WordOrder;

// The rows times a number, less other rows.
fn subtract_rows(
    rows: Listing<Row>,
    by: i128,
    taken: Listing<Row>,
) -> Result<Listing<Row>, ReduceFault>
    requires factor_in { IsCoefficient by }
    requires rows_in { All (λ r. IsCoefficient r.coef) rows }
    requires taken_in { All (λ r. IsCoefficient r.coef) taken }
    ensures in_range { IfOk result (All (λ r. IsCoefficient r.coef)) }
    ensures exact { MatchResult result (λ v. unless_overflow (first_overflow (row_operations rows by)) (less_rows rows by taken) ≡ Ok v)
        (Explains (unless_overflow (first_overflow (row_operations rows by)) (less_rows rows by taken))) }
{
    match multiply_rows(rows, by) {
        Ok(multiplied) => Ok(join_rows(multiplied, negate_rows(taken))?),
        Err(overflow) => Err(ReduceFault::Overflow(overflow)),
    }
}

// The rest of the second reduction, with the rows for its record: those of the S-polynomial times the first multiplier, less
// the rows of the first reduction; and all that times the second multiplier, less the rows of the second reduction.
fn record_rows(first: First, second: Reduced) -> Result<(Poly, Listing<Row>), ReduceFault>
    requires rows_in { All (λ r. IsCoefficient r.coef) first.rows }
    requires first_in { IsCoefficient first.reduced.multiplier }
    requires first_rows_in { All (λ r. IsCoefficient r.coef) first.reduced.rows }
    requires second_in { IsCoefficient second.multiplier }
    requires second_rows_in { All (λ r. IsCoefficient r.coef) second.rows }
    ensures rest { IfOk result (λ r. r.0 ≡ second.rest) }
    ensures in_range { IfOk result (λ r. All (λ row. IsCoefficient row.coef) r.1) }
    ensures exact { MatchResult result (λ r. unless_overflow (first_overflow (rows_operations (plain_first first) (plain second)))
        (second_rows (plain_first first) (plain second)) ≡ Ok r.1)
        (Explains (unless_overflow (first_overflow (rows_operations (plain_first first) (plain second))) (second_rows (plain_first first) (plain second)))) }
{
    let First { rows, reduced } = first;
    let rows = subtract_rows(rows, reduced.multiplier, reduced.rows)?;
    let Reduced {
        multiplier,
        rest,
        rows: taken,
        used: _,
    } = second;
    let rows = subtract_rows(rows, multiplier, taken)?;
    Ok((rest, rows))
}

// Reduces the rest of the first reduction of an ambiguity, and makes what is left a rule.
pub(crate) fn treat<O: WordOrder + Drop>(
    rules: &mut Rules<O>,
    made: &mut Listing<Made>,
    first: First,
    steps: u32,
) -> Result<(), ReduceFault>
    requires kept { IsKeptFirst (O.letters rules.old.order) (length rules.old.rules) (plain_first first) }
    requires records { HasRecords (record { rules = rules.old.rules; made = made.old }) }
    requires few { length rules.old.rules + 1 < 2 ^ 32 }
    ensures order { rules.new.order ≡ rules.old.order }
    ensures records { OnOk result (HasRecords (record { rules = rules.new.rules; made = made.new })) }
    ensures exact { OnOk result (Does (O.compare rules.old.order) (second_work (O.compare rules.old.order) steps (plain_first first) rules.old.rules)
        (record { rules = rules.old.rules; made = made.old }) (record { rules = rules.new.rules; made = made.new })) }
    ensures fault { IfErr result (Explains (second_work (O.compare rules.old.order) steps (plain_first first) rules.old.rules)) }
    ensures rules_back { OnErr result (rules.new.rules ≡ rules.old.rules) }
    ensures made_back { OnErr result (made.new ≡ made.old) }
{
    if first.reduced.rest.terms() == 0 {
        return Ok(());
    }
    let second = match reduce(rules, &first.reduced.rest, steps) {
        Ok(second) => second,
        Err(fault) => return Err(fault),
    };
    if second.rest.terms() == 0 {
        return Ok(());
    }
    let (rest, rows) = match record_rows(first, second) {
        Ok(record) => record,
        Err(fault) => return Err(fault),
    };
    push_rule(rules, made, &rest, rows)?;
    Ok(())
}
