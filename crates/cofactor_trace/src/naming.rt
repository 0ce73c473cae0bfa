//! Which rules become lemmas, and what each rule is replaced by.
ghost use Rattle.std.specs.Prelude.{◌≡◌, ◌+◌, ◌<◌, ◌^◌, ◌++◌, ◌∷◌, [], length, filter, unwrap_or, IfOk, OnOk};
ghost use Rattle.std.specs.List.{All};
ghost use Rattle.cofactor_trace.specs.Needed.{IsRecord, AreRecords};
ghost use Rattle.cofactor_trace.specs.Lemmas.{direct_of, is_lemma, lemma_at, lemma_records};
ghost use Rattle.cofactor_trace.specs.Naming.{NamesRules, records};

use crate::Made;
use crate::expansion::needed_numbers;
use crate::replacement::{Replacement, direct_of, lemma_at};
use std::alloc::{AllocError, Global};

/// The lemmas, and what each needed rule is replaced by, by the rule's place.
#[derive(Drop)]
pub(crate) struct Naming<'a> {
    pub lemmas: Vec<&'a Made>,
    pub replacements: Vec<Replacement>,
}

// A rule that isn't direct becomes the next lemma.
fn name_rule<'a>(lemmas: &mut Vec<&'a Made>, made: &'a Made) -> Result<Replacement, AllocError>
    requires { length lemmas.old.items + 1 < 2 ^ 32 }
    ensures lemmas { OnOk result (records lemmas.new.items ≡ records lemmas.old.items ++ filter is_lemma (made.now ∷ [])) }
    ensures exact { IfOk result (λ r. r ≡ unwrap_or (direct_of made.now) (lemma_at (length lemmas.old.items + 1))) }
{
    match direct_of(made) {
        Some(direct) => Ok(direct),
        None => {
            lemmas.push(made)?;
            Ok(lemma_at(lemmas.len() as u32))
        }
    }
}

// Numbers the needed rules that aren't direct, ascending.
pub(crate) fn name_rules<'a>(
    alloc: Global,
    made: &'a [Made],
    target: &Made,
) -> Result<Naming<'a>, AllocError>
    requires records { AreRecords made.now }
    requires target { IsRecord (length made.now) target.now }
    ensures lemmas { IfOk result (λ n. records n.lemmas.items ≡ lemma_records made.now target.now) }
    ensures are_records { IfOk result (λ n. All (IsRecord (length made.now)) (records n.lemmas.items)) }
    ensures named { IfOk result (λ n. NamesRules made.now target.now n.replacements.items) }
{
    let mut numbers = needed_numbers(alloc, made, target)?;
    let mut replacements = vec![in alloc; lemma_at(0); made.len()]?;
    let mut lemmas = Vec::new(alloc);
    while let Some(number) = numbers.pop() {
        replacements[number - 1] = name_rule(&mut lemmas, &made[number - 1])?;
    }
    Ok(Naming {
        lemmas,
        replacements,
    })
}
