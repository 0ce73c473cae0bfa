//! A token where one of its kind is expected.

ghost use Rattle.std.specs.Prelude.{◌≡◌};
ghost use Rattle.statement_syntax.specs.Lines.{name_in, number_in, is_word};

use crate::tree::{Name, Number};
use statement_tokens::{Fault, Token, TokenKind};

/// The name.
pub fn name_in(token: Token) -> Result<Name, Fault>
    ensures { result ≡ name_in token.kind token.at }
{
    let Token { at, kind } = token;
    match kind {
        TokenKind::Name(text) => Ok(Name { text, at }),
        _ => Err(Fault::Expected),
    }
}

/// The literal.
pub fn number_in(token: &Token) -> Result<Number, Fault>
    ensures { result ≡ number_in token.now.kind token.now.at }
{
    match &token.kind {
        TokenKind::Literal(value) => Ok(Number {
            value: *value,
            at: token.at,
        }),
        _ => Err(Fault::Expected),
    }
}

/// Whether it is this word.
pub fn is_word(token: &Token, word: &str) -> bool
    ensures { result ≡ is_word token.now.kind word.now }
{
    match &token.kind {
        TokenKind::Name(text) => text.as_str() == word,
        _ => false,
    }
}
