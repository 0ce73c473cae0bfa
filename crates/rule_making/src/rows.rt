//! Rows of a record: negated and joined.
ghost use Rattle.std.specs.Prelude.{◌≡◌, ◌++◌, IfOk};
ghost use Rattle.std.specs.List.{All};
ghost use Rattle.coef_int.specs.Range.{IsCoefficient};
ghost use Rattle.rule_making.specs.Making.{negated_rows};

use cofactor_trace::Row;
use lists::Listing;
use std::alloc::AllocError;

/// The rows with their coefficients negated.
pub fn negate_rows(rows: Listing<Row>) -> Listing<Row>
    requires { All (λ r. IsCoefficient r.coef) rows }
    ensures exact { result ≡ negated_rows rows }
    ensures in_range { All (λ r. IsCoefficient r.coef) result }
{
    let mut negated = rows.into_vec();
    for row in negated.iter_mut() {
        row.coef = coef_int::negate(row.coef);
    }
    Listing::from_vec(negated)
}

/// The rows of the one list and then those of the other.
pub fn join_rows(front: Listing<Row>, back: Listing<Row>) -> Result<Listing<Row>, AllocError>
    ensures { IfOk result (λ joined. joined ≡ front ++ back) }
{
    let mut joined = front.into_vec();
    let mut rest = back.into_vec();
    joined.append(&mut rest)?;
    Ok(Listing::from_vec(joined))
}
