//! Rules that are made of the rests of reductions, with their records.
ghost use Rattle.std.specs.Prelude.{◌≡◌, ℕ, ◌<◌, ◌<ℤ◌, ◌+◌, ◌^◌, neg_ℤ, pos, length, IfOk, OnOk, OnErr, if◌then◌else◌};
ghost use Rattle.std.specs.List.{All};
ghost use Rattle.coef_int.specs.Range.{IsCoefficient};
ghost use Rattle.definitions.specs.Poly.{poly_multiple};
ghost use Rattle.word_core.specs.Letters.{IsOver};
ghost use Rattle.nc_polynomial.specs.Content.{IsContent};
ghost use Rattle.rule_making.specs.Making.{leads_negative, negated_rows, IsExtended};
ghost use Rattle.cofactor_trace.specs.Needed.{IsRecord};
ghost use Rattle.rule_making.specs.Records.{AreRows, HasRecords};

use crate::rows::negate_rows;
use cofactor_trace::{Made, Row};
use lists::Listing;
use nc_polynomial::Poly;
use rule_reduce::{Rules, lead_place};
use std::alloc::AllocError;
use word_orders::WordOrder;

// Whether the leading coefficient is negative.
fn is_led_by_negative<O: WordOrder>(order: &O, poly: &Poly) -> bool
    requires nonzero { 0 < length poly.now.terms }
    requires over { All (λ t. IsOver (O.letters order.now) t.1) poly.now.terms }
    ensures { result ≡ leads_negative (O.compare order.now) poly.now.terms }
{
    let (leading, _) = poly.term(lead_place(order, poly));
    leading < 0
}

// The rest divided by its content, and the record; or by the negative of the content where the leading coefficient is
// negative, and then the rows are negated.
fn divide_rest<O: WordOrder>(
    order: &O,
    rest: &Poly,
    rows: Listing<Row>,
) -> Result<(Poly, Made), AllocError>
    requires nonzero { 0 < length rest.now.terms }
    requires over { All (λ t. IsOver (O.letters order.now) t.1) rest.now.terms }
    requires in_range { All (λ r. IsCoefficient r.coef) rows }
    ensures content { IfOk result (λ m. IsContent rest.now.terms m.1.scale) }
    ensures record { IfOk result (λ m. (count : ℕ) → AreRows count rows → IsRecord count m.1) }
    ensures positive { IfOk result (λ m. pos 0 <ℤ m.1.scale) }
    ensures divided { IfOk result (λ m. poly_multiple (if leads_negative (O.compare order.now) rest.now.terms then neg_ℤ m.1.scale
        else m.1.scale) m.0.terms ≡ rest.now.terms) }
    ensures rows { IfOk result (λ m. m.1.rows ≡ (if leads_negative (O.compare order.now) rest.now.terms then negated_rows rows else rows)) }
{
    let scale = rest.content();
    if is_led_by_negative(order, rest) {
        let poly = rest.divide(coef_int::negate(scale))?;
        let rows = negate_rows(rows);
        return Ok((poly, Made { scale, rows }));
    }
    let poly = rest.divide(scale)?;
    Ok((poly, Made { scale, rows }))
}

/// Makes the rest of a reduction a rule, and appends it with its record: the rest divided by its content, or by the negative of
/// that where its leading coefficient is negative. No word of the rest is empty, and it isn't zero. Where memory is short,
/// rules and records are unchanged.
pub fn push_rule<O: WordOrder + Drop>(
    rules: &mut Rules<O>,
    made: &mut Listing<Made>,
    rest: &Poly,
    rows: Listing<Row>,
) -> Result<(), AllocError>
    requires nonzero { 0 < length rest.now.terms }
    requires nonempty { All (λ t. 0 < length t.1) rest.now.terms }
    requires over { All (λ t. IsOver (O.letters rules.old.order) t.1) rest.now.terms }
    requires rows { AreRows (length rules.old.rules) rows }
    requires records { HasRecords (record { rules = rules.old.rules; made = made.old }) }
    requires few { length rules.old.rules + 1 < 2 ^ 32 }
    ensures order { rules.new.order ≡ rules.old.order }
    ensures exact { OnOk result (IsExtended (O.compare rules.old.order) (record { polynomial = rest.now.terms; rows = rows })
        (record { rules = rules.old.rules; made = made.old }) (record { rules = rules.new.rules; made = made.new })) }
    ensures records { OnOk result (HasRecords (record { rules = rules.new.rules; made = made.new })) }
    ensures rules_back { OnErr result (rules.new.rules ≡ rules.old.rules) }
    ensures made_back { OnErr result (made.new ≡ made.old) }
{
    let (poly, record) = divide_rest(&rules.order, rest, rows)?;
    let count = made.len();
    made.push(record)?;
    match rules.push(poly) {
        Ok(_) => Ok(()),
        Err(failed) => {
            made.truncate(count);
            Err(failed)
        }
    }
}
