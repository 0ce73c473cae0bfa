//! The text of a tree: the tokens of each statement, and their characters.

ghost use Rattle.std.specs.Prelude.{◌≡◌, ◌++◌, OnOk, IfOk};
ghost use Rattle.statement_syntax.specs.Written.{opens, closes, kind_text, line_text, tree_text};
ghost use Rattle.statement_syntax.specs.Places.{ReadsBackAs};

use crate::kinds::put_statement;
use crate::tree::Tree;
use itoa::Buffer;
use lists::Listing;
use statement_tokens::TokenKind;
use std::alloc::{AllocError, Global};

fn opens(kind: &TokenKind) -> bool
    ensures { result ≡ opens kind.now }
{
    matches!(
        kind,
        TokenKind::Open | TokenKind::OpenSquare | TokenKind::Caret
    )
}

fn closes(kind: &TokenKind) -> bool
    ensures { result ≡ closes kind.now }
{
    matches!(
        kind,
        TokenKind::Close | TokenKind::CloseSquare | TokenKind::Quote | TokenKind::Caret
    )
}

fn put_text(kind: &TokenKind, text: &mut Vec<u8>) -> Result<(), AllocError>
    ensures { OnOk result (text.new.items ≡ text.old.items ++ kind_text kind.now) }
{
    match kind {
        TokenKind::Name(name) => text.extend_from_slice(name.as_str().as_bytes()),
        TokenKind::Literal(value) => {
            let mut buffer = Buffer::new();
            text.extend_from_slice(buffer.format(*value).as_bytes())
        }
        TokenKind::Colon => text.extend_from_slice(b":"),
        TokenKind::Arrow => text.extend_from_slice(b"->"),
        TokenKind::Equals => text.extend_from_slice(b"="),
        TokenKind::Plus => text.extend_from_slice(b"+"),
        TokenKind::Minus => text.extend_from_slice(b"-"),
        TokenKind::Open => text.extend_from_slice(b"("),
        TokenKind::Close => text.extend_from_slice(b")"),
        TokenKind::OpenSquare => text.extend_from_slice(b"["),
        TokenKind::CloseSquare => text.extend_from_slice(b"]"),
        TokenKind::Quote => text.extend_from_slice(b"'"),
        TokenKind::Caret => text.extend_from_slice(b"^"),
        TokenKind::End => Ok(()),
    }
}

fn put_line(kinds: &[TokenKind], text: &mut Vec<u8>) -> Result<(), AllocError>
    ensures { OnOk result (text.new.items ≡ text.old.items ++ line_text kinds.now) }
{
    let mut glued = true;
    for kind in kinds {
        if !glued && !closes(kind) {
            text.push(b' ')?;
        }
        put_text(kind, text)?;
        glued = opens(kind);
    }
    text.push(b'\n')?;
    Ok(())
}

/// The text of a tree, a statement a line. There is one blank between two tokens, but none after `(`, `[` and
/// `^`, and none before `)`, `]`, `'` and `^`.
pub fn write_tree(alloc: Global, tree: &Tree) -> Result<Vec<u8>, AllocError>
    // One blank between two tokens, with these exceptions.
    ensures exact { IfOk result (λ text. text.items ≡ tree_text tree.now.statements) }
    // It is read as the same tree, up to places.
    ensures read_back { IfOk result (λ text. ∥ ReadsBackAs text.items tree.now.statements ∥₁) }
{
    let mut text = Vec::new(alloc);
    for statement in tree.statements.as_slice() {
        let mut kinds = Listing::new(alloc);
        put_statement(alloc, &statement.kind, &mut kinds)?;
        put_line(kinds.as_slice(), &mut text)?;
    }
    Ok(text)
}
