//! The statement languages, and the tokens that determine that of a file.

ghost use Rattle.std.specs.Prelude.{◌≡◌};
ghost use Rattle.statement_tokens.specs.Language.{is_language_word, is_two, is_end, language_of};

use crate::token::{Token, TokenKind};

/// The languages of statements.
#[derive(Clone, Copy)]
pub enum Language {
    /// That of each file that names none.
    First,
    /// That of a file whose first line is `language 2`.
    Second,
}

fn is_language_word(kind: &TokenKind) -> bool
    ensures { result ≡ is_language_word kind.now }
{
    match kind {
        TokenKind::Name(text) => text.as_str() == "language",
        _ => false,
    }
}

fn is_two(kind: &TokenKind) -> bool
    ensures { result ≡ is_two kind.now }
{
    match kind {
        TokenKind::Literal(value) => *value == 2,
        _ => false,
    }
}

fn is_end(kind: &TokenKind) -> bool
    ensures { result ≡ is_end kind.now }
{
    matches!(kind, TokenKind::End)
}

/// The language of a file that begins with these tokens: its first line determines it.
pub fn language_of(tokens: &[Token]) -> Language
    ensures { result ≡ language_of tokens.now }
{
    match tokens {
        [word, number, end, ..] => {
            if is_language_word(&word.kind) && is_two(&number.kind) && is_end(&end.kind) {
                Language::Second
            } else {
                Language::First
            }
        }
        _ => Language::First,
    }
}
