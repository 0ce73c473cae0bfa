//! Appends polynomials to bytes.

ghost use Rattle.std.specs.Prelude.{◌≡◌, ◌++◌, IfOk, OnOk};
ghost use Rattle.std.specs.List.{All, flat_map};
ghost use Rattle.quiver.specs.Declarations.{letter_count};
ghost use Rattle.word_core.specs.Letters.{IsOver};
ghost use Rattle.block_text.specs.Written.{term_by, later_by, poly_by, poly_text};

use crate::letters::Letters;
use crate::write::{put, put_number, put_word_by};
use nc_polynomial::Poly;
use quiver::Quiver;
use std::alloc::{AllocError, Global};
use word_core::Word;

// Appends a sign and then a term without its own.
fn put_term<L: Letters>(
    out: &mut Vec<u8>,
    letters: &L,
    sign: &str,
    term: &(i128, Word),
) -> Result<(), AllocError>
    requires { IsOver (L.count letters.now) term.now.1 }
    ensures { OnOk result (out.new.items ≡ out.old.items ++ (sign.now ++ term_by (L.text letters.now) term.now)) }
{
    put(out, sign)?;
    let value = term.0.unsigned_abs();
    if value != 1 {
        put_number(out, value)?;
        put(out, " ")?;
    }
    put_word_by(out, letters, &term.1)
}

fn put_later_terms<L: Letters>(
    out: &mut Vec<u8>,
    letters: &L,
    terms: &[(i128, Word)],
) -> Result<(), AllocError>
    requires { All (λ t. IsOver (L.count letters.now) t.1) terms.now }
    ensures { OnOk result (out.new.items ≡ out.old.items ++ flat_map (later_by (L.text letters.now)) terms.now) }
{
    for term in terms {
        put_term(out, letters, if term.0 < 0 { " - " } else { " + " }, term)?;
    }
    Ok(())
}

/// Appends the terms of a polynomial, descending, with their signs, or 0 where there are none, by the texts of letters.
pub fn put_poly_by<L: Letters>(
    out: &mut Vec<u8>,
    letters: &L,
    poly: &Poly,
) -> Result<(), AllocError>
    requires { All (λ t. IsOver (L.count letters.now) t.1) poly.now.terms }
    ensures { OnOk result (out.new.items ≡ out.old.items ++ poly_by (L.text letters.now) poly.now.terms) }
{
    match poly.terms.as_slice() {
        [] => put(out, "0"),
        [first, rest @ ..] => {
            put_term(out, letters, if first.0 < 0 { "- " } else { "" }, first)?;
            put_later_terms(out, letters, rest)
        }
    }
}

/// Appends the terms of a polynomial, descending, with their signs, or 0 where there are none.
pub fn put_poly(out: &mut Vec<u8>, quiver: &Quiver, poly: &Poly) -> Result<(), AllocError>
    requires { All (λ t. IsOver (letter_count quiver.now) t.1) poly.now.terms }
    ensures { OnOk result (out.new.items ≡ out.old.items ++ poly_text quiver.now poly.now.terms) }
{
    put_poly_by(out, quiver, poly)
}

/// The terms of a polynomial, descending, with their signs, or 0 where there are none.
pub fn write_poly(alloc: Global, quiver: &Quiver, poly: &Poly) -> Result<Vec<u8>, AllocError>
    requires { All (λ t. IsOver (letter_count quiver.now) t.1) poly.now.terms }
    ensures { IfOk result (λ text. text.items ≡ poly_text quiver.now poly.now.terms) }
{
    let mut out = Vec::new(alloc);
    put_poly(&mut out, quiver, poly)?;
    Ok(out)
}
