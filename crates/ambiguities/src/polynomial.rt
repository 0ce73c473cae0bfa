//! The S-polynomial of an ambiguity, with its rows.

ghost use Rattle.std.specs.Prelude.{◌≡◌, ◌<ℤ◌, ◌≤◌, [], ◌∷◌, length, take, drop, pos, IfOk, MatchResult, Ok};
ghost use Rattle.std.specs.List.{All};
ghost use Rattle.coef_int.specs.Range.{IsCoefficient};
ghost use Rattle.traced_rows.specs.declared.Origin.TheVariants as origin;
ghost use Rattle.word_core.specs.Letters.{IsOver};
ghost use Rattle.nc_polynomial.specs.Faults.{Explains};
ghost use Rattle.ambiguities.specs.Ambiguities.{IsAmbiguity};
ghost use Rattle.ambiguities.specs.SPolynomials.{first_row, second_row, s_rows_of, s_polynomial_of};

use crate::Ambiguity;
use crate::factors::factors;
use crate::overlap::make_word;
use lists::Listing;
use nc_polynomial::{Poly, PolyFault};
use rule_reduce::{Rule, Rules, rule_with};
use std::alloc::{AllocError, Global};
use traced_rows::{Origin, Row};
use word_core::Word;
use word_orders::WordOrder;

/// An S-polynomial, and the two rows over the rules whose sum it is.
#[derive(Drop)]
pub struct SPoly {
    /// The polynomial, in which the leading words cancel.
    pub poly: Poly,
    /// The multiple of the first rule and that of the second.
    pub rows: Listing<Row>,
}

/// The S-polynomial of an ambiguity of the rules: the multiple of the first rule with the overlap word as its leading word
/// less that of the second, by the factors that make the leading coefficients equal and have no common divisor.
/// The fault is the first one of the multiple of the first rule, that of the second, and their combination.
pub fn s_poly<O: WordOrder>(rules: &Rules<O>, which: &Ambiguity) -> Result<SPoly, PolyFault>
    requires { IsAmbiguity rules.now.rules which.now }
    ensures exact { MatchResult result (λ s. s_polynomial_of rules.now.rules which.now ≡ Ok s.poly.terms)
        (Explains (s_polynomial_of rules.now.rules which.now)) }
    ensures rows { IfOk result (λ s. s.rows ≡ s_rows_of rules.now.rules which.now) }
    ensures rows_in { IfOk result (λ s. All (λ row. IsCoefficient row.coef) s.rows) }
    ensures over { IfOk result (λ s. All (λ t. IsOver (O.letters rules.now.order) t.1) s.poly.terms) }
{
    let alloc = rules.rules.allocator();
    let all = rules.rules.as_slice();
    let (first, second) = make_rows(alloc, all, which)?;
    let poly = combination(all, which, &first, &second)?;
    let rows = two_rows(alloc, first, second)?;
    Ok(SPoly { poly, rows })
}

// The combination of the multiples of the two rules.
fn combination(
    rules: &[Rule],
    which: &Ambiguity,
    first: &Row,
    second: &Row,
) -> Result<Poly, PolyFault>
    requires ambiguity { IsAmbiguity rules.now which.now }
    requires first_in { IsCoefficient first.now.coef }
    requires second_in { IsCoefficient second.now.coef }
    requires first { first.now ≡ first_row rules.now which.now }
    requires second { second.now ≡ second_row rules.now which.now }
    ensures { MatchResult result (λ p. s_polynomial_of rules.now which.now ≡ Ok p.terms) (Explains (s_polynomial_of rules.now which.now)) }
{
    let left = rule_with(rules, which.i)
        .poly
        .left_right(&first.left, &first.right)?;
    let right = rule_with(rules, which.j)
        .poly
        .left_right(&second.left, &second.right)?;
    Poly::combine(first.coef, &left, second.coef, &right)
}

// The list of the two rows.
fn two_rows(alloc: Global, first: Row, second: Row) -> Result<Listing<Row>, AllocError>
    ensures { IfOk result (λ rows. rows ≡ first ∷ second ∷ []) }
{
    let mut rows = Listing::new(alloc);
    rows.push(first)?;
    rows.push(second)?;
    Ok(rows)
}

// The multiples of the two rules.
fn make_rows(alloc: Global, rules: &[Rule], which: &Ambiguity) -> Result<(Row, Row), AllocError>
    requires ambiguity { IsAmbiguity rules.now which.now }
    requires leading_in { All (λ g. IsCoefficient g.leading) rules.now }
    requires positive { All (λ g. pos 0 <ℤ g.leading) rules.now }
    ensures first_in { IfOk result (λ rows. IsCoefficient rows.0.coef) }
    ensures second_in { IfOk result (λ rows. IsCoefficient rows.1.coef) }
    ensures first { IfOk result (λ rows. rows.0 ≡ first_row rules.now which.now) }
    ensures second { IfOk result (λ rows. rows.1 ≡ second_row rules.now which.now) }
{
    let first = rule_with(rules, which.i);
    let second = rule_with(rules, which.j);
    let (of_first, of_second) = factors(first.leading, second.leading);
    let word = make_word(alloc, rules, which)?;
    let place = which.place as usize;
    let left = Row {
        coef: of_first,
        left: Word::new(alloc),
        from: Origin::Rule(which.i),
        right: word.slice(first.lead.len(), word.len())?,
    };
    let end = place + second.lead.len();
    let right = row_around(coef_int::negate(of_second), which.j, &word, place, end)?;
    Ok((left, right))
}

// The multiple of a rule by the part of the word before one place and the part from another one on.
fn row_around(
    coef: i128,
    number: u32,
    word: &Word,
    before: usize,
    behind: usize,
) -> Result<Row, AllocError>
    requires before { before ≤ length word.now }
    requires behind { behind ≤ length word.now }
    ensures { IfOk result (λ row. row ≡ record { coef = coef; left = take before word.now; from = origin.Rule number; right = drop behind word.now }) }
{
    Ok(Row {
        coef,
        left: word.slice(0, before)?,
        from: Origin::Rule(number),
        right: word.slice(behind, word.len())?,
    })
}
