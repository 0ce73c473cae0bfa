//! The second reductions of a round, one after another.
ghost use Rattle.std.specs.Prelude.{◌≡◌, ◌<◌, ◌≤◌, ◌+◌, ◌^◌, length, map, take, IfErr, OnOk, Ok};
ghost use Rattle.std.specs.List.{All};
ghost use Rattle.traced_completion.specs.Works.{second_work, InTurn, EndsWith};
ghost use Rattle.rule_making.specs.Records.{HasRecords};
ghost use Rattle.traced_completion.specs.Reductions.{plain_first, IsKeptFirst};

use crate::first_reductions::First;
use crate::second_reduction::treat;
use cofactor_trace::Made;
use lists::Listing;
use rule_reduce::{ReduceFault, Rules};
use word_orders::WordOrder;

// The second reductions of ambiguities, each by the rules with those that were appended before. Where there is a fault,
// rules with their records may have been appended.
pub(crate) fn treat_all<O: WordOrder + Drop>(
    rules: &mut Rules<O>,
    made: &mut Listing<Made>,
    firsts: Listing<First>,
    steps: u32,
) -> Result<(), ReduceFault>
    requires kept { All (λ f. IsKeptFirst (O.letters rules.old.order) (length rules.old.rules) (plain_first f)) firsts }
    requires records { HasRecords (record { rules = rules.old.rules; made = made.old }) }
    requires few { length rules.old.rules + length firsts < 2 ^ 32 }
    ensures order { rules.new.order ≡ rules.old.order }
    ensures records { OnOk result (HasRecords (record { rules = rules.new.rules; made = made.new })) }
    ensures most { length rules.new.rules ≤ length rules.old.rules + length firsts }
    ensures exact { OnOk result (InTurn (O.compare rules.old.order) (map (second_work (O.compare rules.old.order) steps) (map plain_first firsts))
        (record { rules = rules.old.rules; made = made.old }) (Ok (record { rules = rules.new.rules; made = made.new }))) }
    ensures fault { IfErr result (EndsWith (InTurn (O.compare rules.old.order) (map (second_work (O.compare rules.old.order) steps) (map plain_first firsts))
        (record { rules = rules.old.rules; made = made.old }))) }
    ensures rules_front { take (length rules.old.rules) rules.new.rules ≡ rules.old.rules }
    ensures made_front { take (length made.old) made.new ≡ made.old }
{
    for first in firsts.into_vec() {
        treat(rules, made, first, steps)?;
    }
    Ok(())
}
