//! Why a certificate is refused, and the text of one that is accepted.
ghost use Rattle.std.specs.Prelude.{◌≡◌, ◌++◌, OnOk, codes, decimal};
ghost use Rattle.std.specs.Fmt.{signed_decimal};
ghost use Rattle.quiver.specs.Declarations.{letter_count};
ghost use Rattle.word_core.specs.Letters.{IsOver};
ghost use Rattle.block_text.specs.Written.{word_text};
ghost use Rattle.command_shape.specs.Judged.{Puts};
ghost use Rattle.evidence_commands.specs.Causes.{claim_text, operation_text, cause_text, HasLetters};

use block_text::{put, put_integer, put_labelled, put_signed, put_word};
use coef_int::Overflow;
use cofactor_checker::{Accepted, KEPT_LIMIT, Refusal, SUM_LIMIT};
use quiver::Quiver;
use std::alloc::AllocError;
use word_core::Word;

/// Appends why a certificate is refused. Want of memory has no text.
pub(crate) fn put_cause(
    out: &mut Vec<u8>,
    quiver: &Quiver,
    refusal: &Refusal,
) -> Result<(), AllocError>
    requires { HasLetters quiver.now refusal.now }
    ensures { OnOk result (Puts (cause_text quiver.now refusal.now) out.old.items out.new.items) }
{
    match refusal {
        Refusal::NoSuchClaim => put(out, "C1"),
        Refusal::NoSuchGenerator { row } => put_labelled(out, "C2 row ", u128::from(*row)),
        Refusal::ZeroDenominator => put(out, "C3"),
        Refusal::Overflow { row, overflow } => put_overflow(out, "C4 row ", *row, overflow),
        Refusal::Size { row } => put_past(out, "C5 row ", *row, SUM_LIMIT),
        Refusal::Differs { word, want, got } => put_difference(out, quiver, word, *want, *got),
        Refusal::NoSuchLemma { row } => put_labelled(out, "C7 row ", u128::from(*row)),
        Refusal::NotDivisible { lemma, word, got } => {
            put_indivisible(out, quiver, *lemma, word, *got)
        }
        Refusal::LemmaSize { lemma } => put_labelled(out, "C9 lemma ", u128::from(*lemma)),
        Refusal::LooseScale { lemma } => put_labelled(out, "C10 lemma ", u128::from(*lemma)),
        Refusal::Kept { row } => put_past(out, "C11 row ", *row, KEPT_LIMIT),
        Refusal::Memory(_) => Err(AllocError),
    }
}

/// Appends a place, and the limit that is exceeded there.
pub(crate) fn put_past(
    out: &mut Vec<u8>,
    place: &str,
    number: u32,
    limit: usize,
) -> Result<(), AllocError>
    ensures { OnOk result (out.new.items ≡ out.old.items ++ (place.now ++ (decimal number ++ (codes " limit " ++ decimal limit)))) }
{
    put_labelled(out, place, u128::from(number))?;
    put_labelled(out, " limit ", limit as u128)
}

/// Appends a place, and the operation that overflows there.
pub(crate) fn put_overflow(
    out: &mut Vec<u8>,
    place: &str,
    number: u32,
    overflow: &Overflow,
) -> Result<(), AllocError>
    ensures { OnOk result (out.new.items ≡ out.old.items
        ++ (place.now ++ (decimal number
        ++ (codes " " ++ (signed_decimal overflow.now.left ++ (operation_text overflow.now.product ++ signed_decimal overflow.now.right)))))) }
{
    put_labelled(out, place, u128::from(number))?;
    put_signed(out, " ", overflow.left)?;
    put_operation(out, overflow.product)?;
    put_integer(out, overflow.right)
}

fn put_operation(out: &mut Vec<u8>, product: bool) -> Result<(), AllocError>
    ensures { OnOk result (out.new.items ≡ out.old.items ++ operation_text product) }
{
    if product {
        put(out, " times ")
    } else {
        put(out, " plus ")
    }
}

fn put_difference(
    out: &mut Vec<u8>,
    quiver: &Quiver,
    word: &Word,
    want: i128,
    got: i128,
) -> Result<(), AllocError>
    requires { IsOver (letter_count quiver.now) word.now }
    ensures { OnOk result (out.new.items ≡ out.old.items
        ++ (codes "C6 word " ++ (word_text quiver.now word.now
        ++ (codes " want " ++ (signed_decimal want ++ (codes " got " ++ signed_decimal got)))))) }
{
    put(out, "C6 word ")?;
    put_word(out, quiver, word)?;
    put_signed(out, " want ", want)?;
    put_signed(out, " got ", got)
}

fn put_indivisible(
    out: &mut Vec<u8>,
    quiver: &Quiver,
    lemma: u32,
    word: &Word,
    got: i128,
) -> Result<(), AllocError>
    requires { IsOver (letter_count quiver.now) word.now }
    ensures { OnOk result (out.new.items ≡ out.old.items
        ++ (codes "C8 lemma " ++ (decimal lemma ++ (codes " word " ++ (word_text quiver.now word.now ++ (codes " got " ++ signed_decimal got)))))) }
{
    put_labelled(out, "C8 lemma ", u128::from(lemma))?;
    put(out, " word ")?;
    put_word(out, quiver, word)?;
    put_signed(out, " got ", got)
}

/// Appends the claim and the denominator of what is accepted.
pub(crate) fn put_claim(out: &mut Vec<u8>, accepted: &Accepted) -> Result<(), AllocError>
    ensures { OnOk result (out.new.items ≡ out.old.items ++ claim_text accepted.now.claim accepted.now.denominator) }
{
    put_labelled(out, "accepted claim ", u128::from(accepted.claim))?;
    put_signed(out, " denominator ", accepted.denominator)
}
