//! Lines whose tokens are all of one kind.

ghost use Rattle.std.specs.Prelude.{◌≡◌};
ghost use Rattle.std.specs.List.{list_all};
ghost use Rattle.block_text.specs.Letters.{is_letter, is_number};
ghost use Rattle.block_text.specs.Kinds.{is_of};
ghost use Rattle.block_text.specs.Tokens.{tokens_of};

use crate::cut::first_token;
use crate::letter::is_letter;
use crate::number::is_number;

// What all tokens of a line may be.
#[derive(Clone, Copy)]
enum TokenKind {
    Letter,
    Number,
}

fn is_of(kind: TokenKind, token: &[u8]) -> bool
    ensures { result ≡ is_of kind token.now }
{
    match kind {
        TokenKind::Letter => is_letter(token),
        TokenKind::Number => is_number(token),
    }
}

// Whether all tokens of the line are of the kind.
fn are_of(kind: TokenKind, line: &[u8]) -> bool
    ensures { result ≡ list_all (is_of kind) (tokens_of line.now) }
{
    let mut rest = line;
    while let Some((token, behind)) = first_token(rest) {
        if !is_of(kind, token) {
            return false;
        }
        rest = behind;
    }
    true
}

/// Whether all tokens of the line spell letters.
pub fn are_letters(line: &[u8]) -> bool
    ensures { result ≡ list_all is_letter (tokens_of line.now) }
{
    are_of(TokenKind::Letter, line)
}

/// Whether all tokens of the line are numbers.
pub fn are_numbers(line: &[u8]) -> bool
    ensures { result ≡ list_all is_number (tokens_of line.now) }
{
    are_of(TokenKind::Number, line)
}
