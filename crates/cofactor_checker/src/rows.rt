//! Rows of either kind, added up.
ghost use Rattle.std.specs.Prelude.{◌≡◌, ◌≤◌, ◌+◌, ◌-◌, ◌++◌, ℕ, List, length, map, All, OnOk, IfOk, IfErr, IfSome, IfNone, slice_get, Some};
ghost use Rattle.std.specs.BTreeMap.{IsOrdered};
ghost use Rattle.coef_int.specs.Range.{IsCoefficient};
ghost use Rattle.word_core.specs.Canonical.{word_cmp};
ghost use Rattle.definitions.specs.Poly.{Term};
ghost use Rattle.definitions.specs.Combination.{Row, generator_at, row_sum};
ghost use Rattle.adjoint_rules.specs.Problem.{polynomials};
ghost use Rattle.traced_rows.specs.Rows.{row_of};
ghost use Rattle.cofactor_checker.specs.Rows.{IsNumberUpTo, RowsPass};
ghost use Rattle.cofactor_checker.specs.Running.{IsRunning, IsSumOf};
ghost use Rattle.cofactor_checker.specs.PlainRows.{row_over};
ghost use Rattle.cofactor_checker.specs.RowRefusals.{StopsAt, tell_generator, tell_lacking};
ghost use Rattle.cofactor_checker.specs.declared.refusal.Refusal.{Refusal};

use crate::Refusal;
use crate::sum::add_row;
use crate::table::in_order;
use lists::Stop;
use nc_polynomial::Poly;
use std::alloc::Global;
use std::collections::{BTreeMap, HashMap};
use traced_rows::{CertFrom, CertRow, LemmaRow};
use word_core::Word;

/// The greatest number of terms of a sum of rows.
pub const SUM_LIMIT: usize = 200_000;

/// The item with this number, counted from 1.
pub fn numbered<T>(items: &[T], number: u32) -> Option<&T>
    ensures found { IfSome result (λ item. slice_get items.now (number - 1) ≡ Some item.now) }
    ensures in_range { IfSome result (λ _. IsNumberUpTo (length items.now) number) }
    ensures absent { IfNone result (IsNumberUpTo (length items.now) number → ⊥) }
{
    let place = number.checked_sub(1)?;
    items.get(place as usize)
}

/// A row over generators, or over generators and lemmas.
pub(crate) trait AnyRow: Drop {
    // The polynomials that rows are over, in one list.
    ghost over: { List (List Term) → List (List Term) → List (List Term) };

    // The row over that list.
    ghost plain: { List (List Term) → List (List Term) → Self → Row };

    // What is told of the row with this number where it is over none of them.
    ghost tell: { ℕ → Self → Refusal };

    /// Its coefficient.
    fn coef(&self) -> i128
        ensures { (gs ls : List (List Term)) → result ≡ (plain gs ls self.now).coefficient };

    /// The word in front.
    fn left(&self) -> &Word
        ensures { (gs ls : List (List Term)) → result.now ≡ (plain gs ls self.now).left };

    /// The word behind.
    fn right(&self) -> &Word
        ensures { (gs ls : List (List Term)) → result.now ≡ (plain gs ls self.now).right };

    /// The polynomial between them.
    fn named<'a>(&self, generators: &'a [Poly], lemmas: &'a [Poly]) -> Option<&'a Poly>
        ensures found { let gs = polynomials generators.now in let ls = polynomials lemmas.now in
            IfSome result (λ p. generator_at (over gs ls) (plain gs ls self.now).generator ≡ p.now.terms) }
        ensures in_range { let gs = polynomials generators.now in let ls = polynomials lemmas.now in
            IfSome result (λ _. IsNumberUpTo (length (over gs ls)) (plain gs ls self.now).generator) }
        ensures absent { let gs = polynomials generators.now in let ls = polynomials lemmas.now in
            IfNone result (IsNumberUpTo (length (over gs ls)) (plain gs ls self.now).generator → ⊥) };

    /// What is told where there is none.
    fn lacking(&self, number: u32) -> Refusal
        ensures { result ≡ tell number self.now };
}

impl AnyRow for CertRow {
    ghost over = { λ gs ls. gs };

    ghost plain = { λ gs ls. row_of };

    ghost tell = { tell_generator };

    fn coef(&self) -> i128 {
        self.coef
    }

    fn left(&self) -> &Word {
        &self.left
    }

    fn right(&self) -> &Word {
        &self.right
    }

    #[tactic(auto, using(crate::proofs::RowSums::generator_at_numbered))]
    fn named<'a>(&self, generators: &'a [Poly], _lemmas: &'a [Poly]) -> Option<&'a Poly> {
        numbered(generators, self.generator)
    }

    fn lacking(&self, number: u32) -> Refusal {
        Refusal::NoSuchGenerator { row: number }
    }
}

impl AnyRow for LemmaRow {
    ghost over = { λ gs ls. gs ++ ls };

    ghost plain = { row_over };

    ghost tell = { λ n row. tell_lacking row.from n };

    fn coef(&self) -> i128 {
        self.coef
    }

    fn left(&self) -> &Word {
        &self.left
    }

    fn right(&self) -> &Word {
        &self.right
    }

    #[tactic(auto, using(crate::proofs::Places::found_generator, crate::proofs::Places::found_lemma))]
    fn named<'a>(&self, generators: &'a [Poly], lemmas: &'a [Poly]) -> Option<&'a Poly> {
        match self.from {
            CertFrom::Generator(number) => numbered(generators, number),
            CertFrom::Lemma(number) => numbered(lemmas, number),
        }
    }

    fn lacking(&self, number: u32) -> Refusal {
        match self.from {
            CertFrom::Generator(_) => Refusal::NoSuchGenerator { row: number },
            CertFrom::Lemma(_) => Refusal::NoSuchLemma { row: number },
        }
    }
}

/// The sum of the rows, before which so many stand, or the first refusal among them.
pub(crate) fn add_rows<R: AnyRow>(
    alloc: Global,
    generators: &[Poly],
    lemmas: &[Poly],
    rows: &[R],
    before: u32,
) -> Result<BTreeMap<Word, i128>, Refusal>
    requires count { before + length rows.now ≤ 4294967295 }
    requires coefficients { All (λ r. IsCoefficient (R.plain (polynomials generators.now) (polynomials lemmas.now) r).coefficient) rows.now }
    ensures running { IfOk result IsRunning }
    ensures ordered { IfOk result (IsOrdered word_cmp) }
    ensures sum { let gs = polynomials generators.now in let ls = polynomials lemmas.now in
        IfOk result (λ m. IsSumOf m (row_sum (R.over gs ls) (map (R.plain gs ls) rows.now))) }
    ensures passed { let gs = polynomials generators.now in let ls = polynomials lemmas.now in
        OnOk result (RowsPass (R.over gs ls) (map (R.plain gs ls) rows.now) (length (map (R.plain gs ls) rows.now))) }
    ensures refused { let gs = polynomials generators.now in let ls = polynomials lemmas.now in
        IfErr result (StopsAt (R.over gs ls) (R.plain gs ls) R.tell (λ n. before + n) rows.now) }
{
    let mut sum = HashMap::new(alloc);
    let mut number = before;
    for row in rows {
        number += 1;
        let Some(named) = row.named(generators, lemmas) else {
            return Err(row.lacking(number));
        };
        let terms = named.terms.as_slice();
        match add_row(&mut sum, row.coef(), row.left(), terms, row.right()) {
            Ok(()) => {}
            Err(Stop::Fault(overflow)) => {
                return Err(Refusal::Overflow {
                    row: number,
                    overflow,
                });
            }
            Err(Stop::Memory(failed)) => return Err(Refusal::Memory(failed)),
        }
        if sum.len() > SUM_LIMIT {
            return Err(Refusal::Size { row: number });
        }
    }
    Ok(in_order(alloc, sum)?)
}
