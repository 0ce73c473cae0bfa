//! Tokens with their places.

use crate::place::Spot;
use lists::Text;

/// What a token is. A literal has its value, a name its text.
#[derive(Drop)]
pub enum TokenKind {
    /// A name.
    Name(Text),
    /// A literal, from 0 to 2^127 - 1.
    Literal(i128),
    /// `:`
    Colon,
    /// `->`
    Arrow,
    /// `=`
    Equals,
    /// `+`
    Plus,
    /// `-`
    Minus,
    /// `(`
    Open,
    /// `)`
    Close,
    /// `[`
    OpenSquare,
    /// `]`
    CloseSquare,
    /// `'`
    Quote,
    /// `^`, in the second language alone
    Caret,
    /// The end of a line that has a token.
    End,
}

/// A token with the place of its first character; that of a line's end is just past its last token.
#[derive(Drop)]
pub struct Token {
    /// Its place.
    pub at: Spot,
    /// What it is.
    pub kind: TokenKind,
}
