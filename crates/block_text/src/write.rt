//! Appends texts, numbers, letters and words to bytes.

ghost use Rattle.std.specs.Prelude.{◌≡◌, ◌<◌, ◌++◌, decimal, IfOk, OnOk};
ghost use Rattle.std.specs.Fmt.{signed_decimal};
ghost use Rattle.quiver.specs.Declarations.{letter_count};
ghost use Rattle.word_core.specs.Letters.{IsOver};
ghost use Rattle.block_text.specs.Written.{letter_text, gap_text, word_by, word_text};

use crate::letters::Letters;
use itoa::Buffer;
use quiver::{Named, Quiver};
use std::alloc::{AllocError, Global};
use word_core::{Letter, Word};

/// Appends a text.
pub fn put(out: &mut Vec<u8>, text: &str) -> Result<(), AllocError>
    ensures { OnOk result (out.new.items ≡ out.old.items ++ text.now) }
{
    out.extend_from_slice(text.as_bytes())
}

/// Appends a number in decimal digits.
pub fn put_number(out: &mut Vec<u8>, number: u128) -> Result<(), AllocError>
    ensures { OnOk result (out.new.items ≡ out.old.items ++ decimal number) }
{
    let mut buffer = Buffer::new();
    put(out, buffer.format(number))
}

/// Appends an integer in decimal digits, after `-` where it is negative.
pub fn put_integer(out: &mut Vec<u8>, integer: i128) -> Result<(), AllocError>
    ensures { OnOk result (out.new.items ≡ out.old.items ++ signed_decimal integer) }
{
    let mut buffer = Buffer::new();
    put(out, buffer.format(integer))
}

/// Appends a text and then a number.
pub fn put_labelled(out: &mut Vec<u8>, label: &str, number: u128) -> Result<(), AllocError>
    ensures { OnOk result (out.new.items ≡ out.old.items ++ (label.now ++ decimal number)) }
{
    put(out, label)?;
    put_number(out, number)
}

/// Appends a text and then an integer.
pub fn put_signed(out: &mut Vec<u8>, label: &str, integer: i128) -> Result<(), AllocError>
    ensures { OnOk result (out.new.items ≡ out.old.items ++ (label.now ++ signed_decimal integer)) }
{
    put(out, label)?;
    put_integer(out, integer)
}

/// Appends a letter.
pub fn put_letter(out: &mut Vec<u8>, quiver: &Quiver, letter: Letter) -> Result<(), AllocError>
    requires { letter.0 < letter_count quiver.now }
    ensures { OnOk result (out.new.items ≡ out.old.items ++ letter_text quiver.now letter.0) }
{
    let name = quiver.letter_name(letter);
    match quiver.find(name) {
        Some(Named::Object(_)) => {
            put(out, "[")?;
            put(out, name)?;
            put(out, "]")
        }
        Some(Named::Map(map)) if map.0 == letter.0 => put(out, name),
        Some(Named::Map(_)) => {
            put(out, name)?;
            put(out, "'")
        }
        None => Ok(()),
    }
}

// Appends the blank before each letter but the first.
fn put_gap(out: &mut Vec<u8>, place: usize) -> Result<(), AllocError>
    ensures { OnOk result (out.new.items ≡ out.old.items ++ gap_text place) }
{
    if place == 0 { Ok(()) } else { put(out, " ") }
}

/// Appends the letters of a word with one blank between them, by the texts of letters.
pub fn put_word_by<L: Letters>(
    out: &mut Vec<u8>,
    letters: &L,
    word: &Word,
) -> Result<(), AllocError>
    requires { IsOver (L.count letters.now) word.now }
    ensures { OnOk result (out.new.items ≡ out.old.items ++ word_by (L.text letters.now) word.now) }
{
    for place in 0..word.len() {
        put_gap(out, place)?;
        letters.put_letter(out, word.letter(place))?;
    }
    Ok(())
}

/// Appends the letters of a word with one blank between them.
pub fn put_word(out: &mut Vec<u8>, quiver: &Quiver, word: &Word) -> Result<(), AllocError>
    requires { IsOver (letter_count quiver.now) word.now }
    ensures { OnOk result (out.new.items ≡ out.old.items ++ word_text quiver.now word.now) }
{
    put_word_by(out, quiver, word)
}

/// The letters of a word with one blank between them.
pub fn write_word(alloc: Global, quiver: &Quiver, word: &Word) -> Result<Vec<u8>, AllocError>
    requires { IsOver (letter_count quiver.now) word.now }
    ensures { IfOk result (λ text. text.items ≡ word_text quiver.now word.now) }
{
    let mut out = Vec::new(alloc);
    put_word(&mut out, quiver, word)?;
    Ok(out)
}
