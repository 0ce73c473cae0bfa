//! The rows of certificates of both formats.

ghost use Rattle.std.specs.Prelude.{◌≡◌, ◌<◌, ◌&&◌, IsTrue, IfOk, if◌then◌else◌};
ghost use Rattle.std.specs.List.{list_all};
ghost use Rattle.std.specs.Option.{option_map};
ghost use Rattle.block_text.specs.declared.fault.Flaw.TheVariants as flaw;
ghost use Rattle.lists.specs.Stop.{Gives};
ghost use Rattle.block_text.specs.Fault.{asked};
ghost use Rattle.block_text.specs.Letters.{is_letter, word_of};
ghost use Rattle.block_text.specs.Lines.{bracketed};
ghost use Rattle.certificate_text.specs.Lines.{number_part, origin_part, row_parts, is_row, row_values, row_of, over_lemma, lemma_row_of, grown};
ghost use Rattle.block_text.specs.Tokens.{tokens_of};
ghost use Rattle.certificate_text.specs.Views.{parts_of};

use crate::place::Size;
use block_text::{
    Flaw, INTEGER_LIMIT, NUMBER_LIMIT, are_letters, bracketed, first_token, integer_within, is,
    is_integer, is_number, letter_of, number_within,
};
use cofactor_trace::{CertFrom, CertRow, LETTER_LIMIT, LemmaRow, ROW_LIMIT};
use lists::Stop;
use nc_polynomial::WORD_LIMIT;
use quiver::Quiver;
use std::alloc::Global;
use word_core::Word;

/// The tokens of C and of the number of the generator or lemma, and the letters in the brackets before and after it.
#[derive(Drop)]
struct RowTokens<'a> {
    coefficient: &'a [u8],
    left: &'a [u8],
    /// Whether `lemma` is before the number.
    lemma: bool,
    number: &'a [u8],
    right: &'a [u8],
}

// `N ( .. )` at the end of a row, after `lemma` or not.
fn number_part<'a>(
    coefficient: &'a [u8],
    left: &'a [u8],
    lemma: bool,
    line: &'a [u8],
) -> Option<RowTokens<'a>>
    ensures { option_map parts_of result ≡ number_part coefficient.now (tokens_of left.now) lemma (tokens_of line.now) }
{
    let (number, rest) = first_token(line)?;
    let (right, behind) = bracketed(rest)?;
    match first_token(behind) {
        Some(_) => None,
        None => Some(RowTokens {
            coefficient,
            left,
            lemma,
            number,
            right,
        }),
    }
}

// `N ( .. )` or `lemma N ( .. )` at the end of a row.
fn origin_part<'a>(coefficient: &'a [u8], left: &'a [u8], line: &'a [u8]) -> Option<RowTokens<'a>>
    ensures { option_map parts_of result ≡ origin_part coefficient.now (tokens_of left.now) (tokens_of line.now) }
{
    match first_token(line) {
        Some((word, rest)) if is("lemma", word) => number_part(coefficient, left, true, rest),
        _ => number_part(coefficient, left, false, line),
    }
}

fn row_parts(line: &[u8]) -> Option<RowTokens<'_>>
    ensures { option_map parts_of result ≡ row_parts (tokens_of line.now) }
{
    let (word, behind) = first_token(line)?;
    let (coefficient, rest) = first_token(behind)?;
    if !is("row", word) {
        return None;
    }
    let (left, behind) = bracketed(rest)?;
    origin_part(coefficient, left, behind)
}

// The word in brackets, before more letters of the row. Letters are looked at again only from an unknown name on.
fn word_of(alloc: Global, quiver: &Quiver, letters: &[u8], later: &[u8]) -> Result<Word, Stop<Flaw>>
    ensures exact { let tokens = tokens_of letters.now in
        let spelled = list_all is_letter tokens && list_all is_letter (tokens_of later.now) in
        Gives (λ w. w) result (asked (if spelled then flaw.UnknownName else flaw.BadLine) (word_of quiver.now tokens)) }
    ensures letters { IfOk result (λ w. IsTrue (list_all is_letter (tokens_of letters.now))) }
{
    let mut word = Word::new(alloc);
    let mut rest = letters;
    while let Some((token, behind)) = first_token(rest) {
        let Some(letter) = letter_of(quiver, token) else {
            let spelled = are_letters(rest) && are_letters(later);
            return Err(Stop::Fault(if spelled {
                Flaw::UnknownName
            } else {
                Flaw::BadLine
            }));
        };
        word.push(letter)?;
        rest = behind;
    }
    Ok(word)
}

// The row of these tokens, by the number of the generator or lemma. The grammar is tested first.
fn row_at(alloc: Global, quiver: &Quiver, tokens: &RowTokens<'_>) -> Result<CertRow, Stop<Flaw>>
    ensures { let parts = parts_of tokens.now in
        Gives (λ row. row) result (if is_row parts then row_values quiver.now parts else Err flaw.BadLine) }
{
    if !is_integer(tokens.coefficient) || !is_number(tokens.number) {
        return Err(Stop::Fault(Flaw::BadLine));
    }
    let left = word_of(alloc, quiver, tokens.left, tokens.right)?;
    let right = word_of(alloc, quiver, tokens.right, &[])?;
    let Some(coef) = integer_within(INTEGER_LIMIT, tokens.coefficient) else {
        return Err(Stop::Fault(Flaw::NumberTooLarge));
    };
    let Some(number) = number_within(NUMBER_LIMIT, tokens.number) else {
        return Err(Stop::Fault(Flaw::NumberTooLarge));
    };
    Ok(CertRow {
        coef,
        left,
        generator: number as u32,
        right,
    })
}

/// The row of the line, in a certificate of format 1.
pub fn row_of(alloc: Global, quiver: &Quiver, line: &[u8]) -> Result<CertRow, Stop<Flaw>>
    ensures { Gives (λ row. row) result (row_of quiver.now (tokens_of line.now)) }
{
    match row_parts(line) {
        Some(tokens) if !tokens.lemma => row_at(alloc, quiver, &tokens),
        _ => Err(Stop::Fault(Flaw::BadLine)),
    }
}

// The row with a lemma or a generator of its number.
fn over_lemma(lemma: bool, row: CertRow) -> LemmaRow
    ensures { result ≡ over_lemma lemma row }
{
    let from = if lemma {
        CertFrom::Lemma(row.generator)
    } else {
        CertFrom::Generator(row.generator)
    };
    LemmaRow {
        coef: row.coef,
        left: row.left,
        from,
        right: row.right,
    }
}

/// The row of the line, in a certificate of format 2.
pub fn lemma_row_of(alloc: Global, quiver: &Quiver, line: &[u8]) -> Result<LemmaRow, Stop<Flaw>>
    ensures { Gives (λ row. row) result (lemma_row_of quiver.now (tokens_of line.now)) }
{
    let Some(tokens) = row_parts(line) else {
        return Err(Stop::Fault(Flaw::BadLine));
    };
    let row = row_at(alloc, quiver, &tokens)?;
    Ok(over_lemma(tokens.lemma, row))
}

/// The size of a block with one row more, of these words, within the limits.
pub fn grown(size: Size, left: &Word, right: &Word) -> Result<Size, Flaw>
    ensures { result ≡ grown size left.now right.now }
{
    let (left, right) = (left.len(), right.len());
    if left > WORD_LIMIT || right > WORD_LIMIT {
        return Err(Flaw::TooMany(WORD_LIMIT as u32));
    }
    if size.rows as usize >= ROW_LIMIT {
        return Err(Flaw::TooMany(ROW_LIMIT as u32));
    }
    let letters = size.letters as usize + left + right;
    if letters > LETTER_LIMIT {
        return Err(Flaw::TooMany(LETTER_LIMIT as u32));
    }
    Ok(Size {
        rows: size.rows + 1,
        letters: letters as u32,
    })
}
