//! Chains as text. The text of each letter is looked up once.

ghost use Rattle.std.specs.Prelude.{◌≡◌, ◌++◌, length, codes, IfOk, OnOk};
ghost use Rattle.std.specs.List.{All};
ghost use Rattle.word_core.specs.Letters.{IsOver};
ghost use Rattle.block_text.specs.Written.{word_by};
ghost use Rattle.certificate_text.specs.Written.{opening_text};
ghost use Rattle.equation_chain.specs.Spelled.{AreTexts, text_in, line_by, use_by};

use block_text::{Letters, put, put_letter, put_number, put_poly_by, put_signed, put_word_by};
use lists::Listing;
use nc_polynomial::Poly;
use quiver::Quiver;
use std::alloc::{AllocError, Global};
use std::marker::Model;
use traced_rows::CertRow;
use word_core::{Letter, Word};

/// The texts of the letters of a quiver.
#[derive(Drop)]
pub struct LetterTexts {
    texts: Listing<Listing<u8>>,
}

impl Model for LetterTexts {
    ghost use Rattle.std.specs.Prelude.{List, ℕ};

    ghost Value = { List (List ℕ) };

    ghost view = { λ t. t.texts };
}

/// The texts of the letters of the quiver.
pub fn letter_texts(alloc: Global, quiver: &Quiver) -> Result<LetterTexts, AllocError>
    ensures { IfOk result (AreTexts quiver.now) }
{
    let mut texts = Listing::new(alloc);
    for number in 0..quiver.letters() {
        let mut text = Vec::new(alloc);
        put_letter(&mut text, quiver, Letter(number as u16))?;
        texts.push(Listing::from_vec(text))?;
    }
    Ok(LetterTexts { texts })
}

impl Letters for LetterTexts {
    ghost text = { text_in };

    ghost count = { length };

    fn put_letter(&self, out: &mut Vec<u8>, letter: Letter) -> Result<(), AllocError> {
        let text = self.texts.at(usize::from(letter.0));
        out.extend_from_slice(text.as_slice())
    }
}

/// Appends a line of a chain.
pub fn put_line(out: &mut Vec<u8>, texts: &LetterTexts, line: &Poly) -> Result<(), AllocError>
    requires { All (λ t. IsOver (length texts.now) t.1) line.now.terms }
    ensures { OnOk result (out.new.items ≡ out.old.items ++ line_by texts.now line.now.terms) }
{
    put(out, "line ")?;
    put_poly_by(out, texts, line)?;
    put(out, "\n")
}

// Appends a word between two texts.
fn put_between(
    out: &mut Vec<u8>,
    texts: &LetterTexts,
    front: &str,
    word: &Word,
    end: &str,
) -> Result<(), AllocError>
    requires { IsOver (length texts.now) word.now }
    ensures { OnOk result (out.new.items ≡ out.old.items ++ (front.now ++ word_by (text_in texts.now) word.now ++ end.now)) }
{
    put(out, front)?;
    put_word_by(out, texts, word)?;
    put(out, end)
}

/// Appends a step of a chain.
pub fn put_use(out: &mut Vec<u8>, texts: &LetterTexts, step: &CertRow) -> Result<(), AllocError>
    requires left { IsOver (length texts.now) step.now.left }
    requires right { IsOver (length texts.now) step.now.right }
    ensures { OnOk result (out.new.items ≡ out.old.items ++ use_by texts.now step.now) }
{
    put_signed(out, "use ", step.coef)?;
    put_between(out, texts, " (", &step.left, ") ")?;
    put_number(out, u128::from(step.generator))?;
    put_between(out, texts, " (", &step.right, ")\n")
}

/// Appends the first lines of a chain, with its claim and its denominator.
pub fn put_opening(out: &mut Vec<u8>, claim: u32, denominator: i128) -> Result<(), AllocError>
    ensures { OnOk result (out.new.items ≡ out.old.items ++ opening_text (codes "chain 1\nclaim ") claim denominator) }
{
    certificate_text::put_opening(out, "chain 1\nclaim ", claim, denominator)
}
