//! What a rule is replaced by in a certificate with lemmas.
ghost use Rattle.std.specs.Prelude.{◌≡◌};
ghost use Rattle.cofactor_trace.specs.Lemmas.{direct_of, signed_generator, lemma_at};

use crate::{CertFrom, Made, Origin};

/// A generator or a lemma, or the negative of that.
#[derive(Clone, Copy)]
pub(crate) struct Replacement {
    /// Whether it is the negative.
    pub negative: bool,
    /// The generator or the lemma.
    pub from: CertFrom,
}

// The lemma with the number.
pub(crate) fn lemma_at(number: u32) -> Replacement
    ensures { result ≡ lemma_at number }
{
    Replacement {
        negative: false,
        from: CertFrom::Lemma(number),
    }
}

// The generator or its negative, where the rule is one.
pub(crate) fn direct_of(made: &Made) -> Option<Replacement>
    ensures { result ≡ direct_of made.now }
{
    if made.scale != 1 {
        return None;
    }
    match made.rows.as_slice() {
        [row] if row.left.len() == 0 && row.right.len() == 0 => signed_generator(
            row.coef, row.from,
        ),
        _ => None,
    }
}

// The generator where the coefficient is 1, and its negative where that is -1.
fn signed_generator(coef: i128, from: Origin) -> Option<Replacement>
    ensures { result ≡ signed_generator coef from }
{
    let Origin::Generator(number) = from else {
        return None;
    };
    let from = CertFrom::Generator(number);
    if coef == 1 {
        Some(Replacement {
            negative: false,
            from,
        })
    } else if coef == -1 {
        Some(Replacement {
            negative: true,
            from,
        })
    } else {
        None
    }
}
