//! The reductions of generators, whose rests become rules.
ghost use Rattle.std.specs.Prelude.{◌≡◌, ◌<◌, ◌≤◌, ◌+◌, ◌^◌, length, map, take, slice_get, IfOk, IfErr, OnOk, OnErr, Ok, Some};
ghost use Rattle.std.specs.List.{All};
ghost use Rattle.coef_int.specs.Range.{IsCoefficient};
ghost use Rattle.adjoint_rules.specs.Problem.{polynomials};
ghost use Rattle.traced_completion.specs.Results.{Explains};
ghost use Rattle.traced_completion.specs.Works.{generator_rows, generator_work, Does, InTurn, EndsWith};
ghost use Rattle.traced_completion.specs.UnitsFirst.{units_first};
ghost use Rattle.rule_making.specs.Records.{HasRecords};
ghost use Rattle.traced_completion.specs.Reductions.{IsReducible};

use crate::reduction::reduce;
use cofactor_trace::{Made, Origin, Row};
use lists::Listing;
use nc_polynomial::Poly;
use rule_making::{join_rows, negate_rows, push_rule};
use rule_reduce::{ReduceFault, Reduced, Rules};
use std::alloc::{AllocError, Global};
use word_core::Word;
use word_orders::WordOrder;

// The generator times a number, less other rows.
fn subtract_from_generator(
    alloc: Global,
    number: u32,
    multiplier: i128,
    taken: Listing<Row>,
) -> Result<Listing<Row>, AllocError>
    requires multiplier_in { IsCoefficient multiplier }
    requires taken_in { All (λ r. IsCoefficient r.coef) taken }
    ensures exact { IfOk result (λ rows. rows ≡ generator_rows number multiplier taken) }
    ensures in_range { IfOk result (All (λ r. IsCoefficient r.coef)) }
{
    let mut first = Listing::new(alloc);
    first.push(Row {
        coef: multiplier,
        left: Word::new(alloc),
        from: Origin::Generator(number),
        right: Word::new(alloc),
    })?;
    join_rows(first, negate_rows(taken))
}

// Reduces the generator with this number, and makes its rest a rule.
fn reduce_generator<O: WordOrder + Drop>(
    rules: &mut Rules<O>,
    made: &mut Listing<Made>,
    generators: &[Poly],
    number: u32,
    steps: u32,
) -> Result<(), ReduceFault>
    requires first { 0 < number }
    requires last { number ≤ length generators.now }
    requires reducible { All (IsReducible (O.letters rules.old.order)) generators.now }
    requires records { HasRecords (record { rules = rules.old.rules; made = made.old }) }
    requires few { length rules.old.rules + 1 < 2 ^ 32 }
    ensures order { rules.new.order ≡ rules.old.order }
    ensures records { OnOk result (HasRecords (record { rules = rules.new.rules; made = made.new })) }
    ensures exact { OnOk result (Does (O.compare rules.old.order)
        (generator_work (O.compare rules.old.order) steps (polynomials generators.now) number rules.old.rules)
        (record { rules = rules.old.rules; made = made.old }) (record { rules = rules.new.rules; made = made.new })) }
    ensures fault { IfErr result (Explains (generator_work (O.compare rules.old.order) steps (polynomials generators.now) number rules.old.rules)) }
    ensures rules_back { OnErr result (rules.new.rules ≡ rules.old.rules) }
    ensures made_back { OnErr result (made.new ≡ made.old) }
{
    let reduced = match reduce(rules, &generators[number as usize - 1], steps) {
        Ok(reduced) => reduced,
        Err(fault) => return Err(fault),
    };
    if reduced.rest.terms() == 0 {
        return Ok(());
    }
    let Reduced {
        multiplier,
        rest,
        rows,
        used: _,
    } = reduced;
    let rows = subtract_from_generator(made.allocator(), number, multiplier, rows)?;
    push_rule(rules, made, &rest, rows)?;
    Ok(())
}

// The number of the generator whose turn it is, where the relations of identities come first, which are the last `units` of
// the `count` generators.
fn number_in_turn(turn: usize, units: usize, count: usize) -> usize
    requires units { units ≤ count }
    requires turn { turn < count }
    ensures number { slice_get (units_first units count) turn ≡ Some result }
    ensures first { 0 < result }
    ensures last { result ≤ count }
{
    if turn < units {
        count - units + 1 + turn
    } else {
        turn - units + 1
    }
}

// The reductions of all generators, the relations of identities first, each by the rules that were made before. Where there
// is a fault, rules with their records may have been appended.
pub(crate) fn reduce_generators<O: WordOrder + Drop>(
    rules: &mut Rules<O>,
    made: &mut Listing<Made>,
    generators: &[Poly],
    units: usize,
    steps: u32,
) -> Result<(), ReduceFault>
    requires units { units ≤ length generators.now }
    requires reducible { All (IsReducible (O.letters rules.old.order)) generators.now }
    requires records { HasRecords (record { rules = rules.old.rules; made = made.old }) }
    requires few { length rules.old.rules + length generators.now < 2 ^ 32 }
    ensures order { rules.new.order ≡ rules.old.order }
    ensures records { OnOk result (HasRecords (record { rules = rules.new.rules; made = made.new })) }
    ensures most { length rules.new.rules ≤ length rules.old.rules + length generators.now }
    ensures exact { OnOk result (InTurn (O.compare rules.old.order)
        (map (generator_work (O.compare rules.old.order) steps (polynomials generators.now)) (units_first units (length generators.now)))
        (record { rules = rules.old.rules; made = made.old }) (Ok (record { rules = rules.new.rules; made = made.new }))) }
    ensures fault { IfErr result (EndsWith
        (InTurn (O.compare rules.old.order) (map (generator_work (O.compare rules.old.order) steps (polynomials generators.now))
        (units_first units (length generators.now)))
        (record { rules = rules.old.rules; made = made.old }))) }
    ensures rules_front { take (length rules.old.rules) rules.new.rules ≡ rules.old.rules }
    ensures made_front { take (length made.old) made.new ≡ made.old }
{
    for turn in 0..generators.len() {
        let number = number_in_turn(turn, units, generators.len());
        match reduce_generator(rules, made, generators, number as u32, steps) {
            Ok(()) => {}
            Err(fault) => return Err(fault),
        }
    }
    Ok(())
}
