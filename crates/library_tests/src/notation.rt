//! The notation of the tables. A word is its letters from a to z, as `abb`, and a polynomial is its terms.
ghost use Rattle.coef_int.specs.Range.{IsCoefficient};

use cofactor_trace::{Origin, Row};
use nc_polynomial::Poly;
use std::alloc::{AllocError, Global};
use std::process::Abort;
use word_core::{Letter, Word};

/// The word that is written.
pub fn word(rt: &impl Abort, alloc: Global, text: &str) -> Word {
    let mut word = Word::new(alloc);
    for byte in text.as_bytes() {
        let letter = Letter(u16::from(byte.saturating_sub(b'a')));
        word.push(letter).expect(rt, "memory");
    }
    word
}

/// Coefficients with their words.
pub type Terms = &'static [(i128, &'static str)];

// The number, and 0 for the one that is no coefficient.
fn coefficient(value: i128) -> i128
    ensures { IsCoefficient result }
{
    if value == i128::MIN { 0 } else { value }
}

/// The sum of these terms.
pub fn poly(rt: &impl Abort, alloc: Global, terms: Terms) -> Poly {
    let mut list = Vec::new(alloc);
    for (value, letters) in terms {
        let term = (coefficient(*value), word(rt, alloc, letters));
        list.push(term).expect(rt, "memory");
    }
    Poly::from_terms(alloc, &list).expect(rt, "a polynomial")
}

/// Writes the terms and the rows, each with the number of its rule.
pub fn write_sum(rt: &impl Abort, text: &mut String, poly: &Poly, rows: &[Row]) {
    write!(text, "{:?}", poly.terms.as_slice()).expect(rt, "memory");
    for row in rows {
        write_row(text, row).expect(rt, "memory");
    }
}

fn write_row(text: &mut String, row: &Row) -> Result<(), AllocError> {
    let rule = match row.from {
        Origin::Rule(number) => number,
        Origin::Generator(_) => 0,
    };
    write!(
        text,
        " + {} {:?} {rule} {:?}",
        row.coef, row.left, row.right
    )
}
