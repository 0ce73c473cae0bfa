//! Proofs that cancel letters as bytes.

ghost use Rattle.std.specs.Prelude.{◌≡◌, ◌<◌, ◌++◌, IfOk, OnOk};
ghost use Rattle.std.specs.List.{All};
ghost use Rattle.quiver.specs.Declarations.{letter_count};
ghost use Rattle.certificate_text.specs.Written.{IsLemmaOver};
ghost use Rattle.cancellation_text.specs.Blocks.{called_word, side_word};
ghost use Rattle.cancellation_text.specs.Written.{called_text, cancel_text, head_text, letters_text, steps_text};
ghost use Rattle.cancellation_text.specs.Written.{cancellation_text, IsItemOver, IsCancellationOver};

use block_text::{put, put_letter, put_number};
use cancel_rules::{Cancellation, Item, Side};
use certificate_text::{put_goal, put_lemma, put_opening};
use quiver::Quiver;
use std::alloc::{AllocError, Global};
use word_core::Letter;

/// The bytes that are written, or want of memory.
pub type WrittenText = Result<Vec<u8>, AllocError>;

// The word for a letter that is cancelled on this side.
fn called_word(side: Side) -> &'static str
    ensures { result.now ≡ called_word side }
{
    match side {
        Side::Left => "monic",
        Side::Right => "epic",
    }
}

fn put_called(
    out: &mut Vec<u8>,
    quiver: &Quiver,
    side: Side,
    letter: Letter,
) -> Result<(), AllocError>
    requires { letter.0 < letter_count quiver.now }
    ensures { OnOk result (out.new.items ≡ out.old.items ++ called_text quiver.now side letter) }
{
    put(out, called_word(side))?;
    put(out, " ")?;
    put_letter(out, quiver, letter)?;
    put(out, "\n")
}

fn side_word(side: Side) -> &'static str
    ensures { result.now ≡ side_word side }
{
    match side {
        Side::Left => "left",
        Side::Right => "right",
    }
}

// Appends the cancellation with this number.
fn put_cancel(
    out: &mut Vec<u8>,
    quiver: &Quiver,
    number: usize,
    letter: Letter,
    side: Side,
    from: u32,
) -> Result<(), AllocError>
    requires { letter.0 < letter_count quiver.now }
    ensures { OnOk result (out.new.items ≡ out.old.items ++ cancel_text quiver.now number letter side from) }
{
    put(out, "cancel ")?;
    put_number(out, number as u128)?;
    put(out, " ")?;
    put_letter(out, quiver, letter)?;
    put(out, " ")?;
    put(out, side_word(side))?;
    put(out, " ")?;
    put_number(out, u128::from(from))?;
    put(out, "\n")
}

// Appends the first three lines of a proof.
fn put_head(out: &mut Vec<u8>, proof: &Cancellation) -> Result<(), AllocError>
    ensures { OnOk result (out.new.items ≡ out.old.items ++ head_text proof.now) }
{
    put_opening(
        out,
        "cancellation 1\nclaim ",
        proof.claim,
        proof.denominator,
    )
}

// Appends the letters that a proof calls monic, and then those that it calls epic.
fn put_letters(out: &mut Vec<u8>, quiver: &Quiver, proof: &Cancellation) -> Result<(), AllocError>
    requires monic { All (λ a. a.0 < letter_count quiver.now) proof.now.monic }
    requires epic { All (λ a. a.0 < letter_count quiver.now) proof.now.epic }
    ensures { OnOk result (out.new.items ≡ out.old.items ++ letters_text quiver.now proof.now) }
{
    for letter in proof.monic.as_slice() {
        put_called(out, quiver, Side::Left, *letter)?;
    }
    for letter in proof.epic.as_slice() {
        put_called(out, quiver, Side::Right, *letter)?;
    }
    Ok(())
}

// Appends the items of a proof, its goal, and the end of the block.
fn put_steps(out: &mut Vec<u8>, quiver: &Quiver, proof: &Cancellation) -> Result<(), AllocError>
    requires items { All (IsItemOver quiver.now) proof.now.items }
    requires goal { IsLemmaOver quiver.now proof.now.goal }
    ensures { OnOk result (out.new.items ≡ out.old.items ++ steps_text quiver.now proof.now) }
{
    let mut number = 1;
    for item in proof.items.as_slice() {
        match item {
            Item::Lemma(lemma) => put_lemma(out, quiver, number, lemma)?,
            Item::Cancel { letter, side, item } => {
                put_cancel(out, quiver, number, *letter, *side, *item)?
            }
        }
        number += 1;
    }
    put_goal(out, quiver, &proof.goal)
}

/// A proof that cancels letters as a block of evidence text: a line for each letter that it calls monic, and then epic, a line for
/// each cancellation, and one for each lemma, the goal and each of their rows. It fails only where memory is short.
pub fn write_cancellation(alloc: Global, quiver: &Quiver, proof: &Cancellation) -> WrittenText
    requires { IsCancellationOver quiver.now proof.now }
    ensures { IfOk result (λ text. text.items ≡ cancellation_text quiver.now proof.now) }
{
    let mut out = Vec::new(alloc);
    put_head(&mut out, proof)?;
    put_letters(&mut out, quiver, proof)?;
    put_steps(&mut out, quiver, proof)?;
    Ok(out)
}
