//! A certificate whose lemmas are the rules that a record needs.
ghost use Rattle.std.specs.Prelude.{◌≡◌, ◌<ℤ◌, ◌++◌, ◌∷◌, [], pos, length, map, Some, None, Ok, IfOk, MatchResult};
ghost use Rattle.std.specs.List.{All};
ghost use Rattle.coef_int.specs.Range.{IsCoefficient};
ghost use Rattle.coef_int.specs.Operations.{first_overflow};
ghost use Rattle.cofactor_trace.specs.Expansion.{common_multiple, multiple_products};
ghost use Rattle.cofactor_trace.specs.Needed.{IsAmongFirst, IsRecord, AreRecords};
ghost use Rattle.cofactor_trace.specs.GatherFaults.{Explains};
ghost use Rattle.cofactor_trace.specs.Lemmas as gathering;
ghost use Rattle.cofactor_trace.specs.Lemmas.{gathered_of};
ghost use Rattle.cofactor_trace.specs.Naming.{IsScaled, named_in, records};

use crate::divisor::raise;
use crate::extent::check_limits;
use crate::naming::name_rules;
use crate::replacement::Replacement;
use crate::{CertFrom, GatherFault, Lemma, LemmaCertificate, LemmaRow, Made, Origin, Row};
use coef_int::{Overflow, negate};
use lists::Listing;
use std::alloc::{AllocError, Global};

/// The certificate of a claim whose record is the target, where `made` has the records of the rules, numbered from 1. A rule is
/// direct when its record has scale 1 and one row, of a generator with coefficient 1 or -1 and empty words. The lemmas are the
/// needed rules that aren't direct, ascending; a row that names a direct rule names its generator instead, and a row that names
/// another rule its lemma. The denominator is the least common multiple of the scales, lemmas in order and then the goal. A fault
/// is the first one: `Rows`, then a product of the denominator.
pub fn gather(
    alloc: Global,
    claim: u32,
    made: &[Made],
    target: &Made,
) -> Result<LemmaCertificate, GatherFault>
    requires records { AreRecords made.now }
    requires target { IsRecord (length made.now) target.now }
    ensures exact { MatchResult result (λ c. gathered_of claim made.now target.now ≡ Ok c) (Explains (gathered_of claim made.now target.now)) }
{
    let naming = name_rules(alloc, made, target)?;
    let named = naming.lemmas.as_slice();
    let replacements = naming.replacements.as_slice();
    check_limits(named, target)?;
    let denominator = common_scale(named, target)?;
    Ok(LemmaCertificate {
        claim,
        denominator,
        lemmas: make_lemmas(alloc, replacements, named)?,
        goal: make_lemma(alloc, replacements, target)?,
    })
}

// The least common multiple of the scales of lemmas and goal, taken in order.
fn common_scale(lemmas: &[&Made], goal: &Made) -> Result<i128, Overflow>
    requires lemmas { All IsScaled (records lemmas.now) }
    requires goal_positive { pos 0 <ℤ goal.now.scale }
    requires goal_in { IsCoefficient goal.now.scale }
    ensures exact { let scales = map (λ m. m.scale) (records lemmas.now ++ goal.now ∷ []) in
        MatchResult result (λ d. (first_overflow (multiple_products (pos 1) scales) ≡ None) × (d ≡ common_multiple (pos 1) scales))
        (λ o. first_overflow (multiple_products (pos 1) scales) ≡ Some o) }
{
    let mut common = 1;
    for lemma in lemmas {
        common = raise(common, lemma.scale)?;
    }
    raise(common, goal.scale)
}

// What a generator or a rule is replaced by.
fn named(replacements: &[Replacement], from: Origin) -> Replacement
    requires { IsAmongFirst (length replacements.now) from }
    ensures { result ≡ named_in replacements.now from }
{
    match from {
        Origin::Generator(number) => Replacement {
            negative: false,
            from: CertFrom::Generator(number),
        },
        Origin::Rule(number) => replacements[number as usize - 1],
    }
}

// The row, with its generator or rule replaced.
fn make_row(replacements: &[Replacement], row: &Row) -> Result<LemmaRow, AllocError>
    requires from { IsAmongFirst (length replacements.now) row.now.from }
    requires coefficient_in { IsCoefficient row.now.coef }
    ensures { IfOk result (λ r. r ≡ gathering.lemma_row (named_in replacements.now) row.now) }
{
    let name = named(replacements, row.from);
    Ok(LemmaRow {
        coef: if name.negative {
            negate(row.coef)
        } else {
            row.coef
        },
        left: row.left.copy()?,
        from: name.from,
        right: row.right.copy()?,
    })
}

// The record's scale and rows, with generators and rules replaced.
fn make_lemma(alloc: Global, replacements: &[Replacement], made: &Made) -> Result<Lemma, AllocError>
    requires { IsRecord (length replacements.now) made.now }
    ensures { IfOk result (λ l. l ≡ gathering.lemma_of (named_in replacements.now) made.now) }
{
    let mut rows = Listing::new(alloc);
    for row in made.rows.as_slice() {
        rows.push(make_row(replacements, row)?)?;
    }
    Ok(Lemma {
        scale: made.scale,
        rows,
    })
}

// The same of each record.
fn make_lemmas(
    alloc: Global,
    replacements: &[Replacement],
    lemmas: &[&Made],
) -> Result<Listing<Lemma>, AllocError>
    requires { All (IsRecord (length replacements.now)) (records lemmas.now) }
    ensures { IfOk result (λ ls. ls ≡ map (gathering.lemma_of (named_in replacements.now)) (records lemmas.now)) }
{
    let mut made = Listing::new(alloc);
    for lemma in lemmas {
        made.push(make_lemma(alloc, replacements, lemma)?)?;
    }
    Ok(made)
}
