//! What can be wrong with a statement, with its place.

ghost use Rattle.std.specs.Prelude.{◌≡◌};
ghost use Rattle.lists.specs.declared.stop.Stop.TheVariants as stop;
ghost use Rattle.statement_tokens.specs.Fault.{code_of, limit_of, placed};

use crate::place::Spot;
use lists::Stop;
use thiserror::Error;

/// What can be wrong with the form of a text, then with its names, literals and counts, and then with its signatures. Of
/// the form, all that is not UTF-8 comes before all bad tokens and literals, and those before all tokens that do not fit
/// the grammar.
#[derive(Clone, Copy, Debug, Error)]
pub enum Fault {
    /// The bytes are not UTF-8.
    #[error("the bytes are not UTF-8")]
    NotUtf8,
    /// No token begins with the character, or a name has more than 32 bytes.
    #[error("the token is bad")]
    BadToken,
    /// A token does not fit the grammar, or the line ends too early.
    #[error("another token is expected")]
    Expected,
    /// A literal is larger than 2^127 - 1.
    #[error("the literal is too large")]
    LiteralTooLarge,
    /// A 65th nested round bracket.
    #[error("the brackets are nested too deep")]
    TooDeep,
    /// The name isn't declared, or it is a map's in the place of an object's, or an object's in the place of a map's.
    #[error("no such name")]
    Unknown,
    /// The name is declared or listed for the second time, or this is a second statement of an order.
    #[error("for the second time")]
    Double,
    /// There are more of them than the limit.
    #[error("more than {limit}")]
    TooMany { limit: u32 },
    /// A map that is to be its own adjoint has two different ends.
    #[error("the source and the target differ")]
    NotSquare,
    /// In a product the source of the part so far, the left one, is not the target of the factor at this place.
    #[error("the part so far does not fit the factor")]
    NotComposable,
    /// The term or the right side at this place has another signature than those before it.
    #[error("two terms or sides have different signatures")]
    SumMismatch,
    /// A factor at this place, one of several, is open, or both sides are, of which the left one is at this place.
    #[error("a zero has no signature")]
    OpenZero,
    /// A weight, a modulus, a side or an exponent that is out of range.
    #[error("no such number may stand here")]
    BadNumber,
}

/// A fault with the place of its first character.
#[derive(Clone, Copy, Debug, Error)]
#[error("{fault}")]
pub struct Placed {
    /// What is wrong.
    pub fault: Fault,
    /// The place of its first character.
    pub at: Spot,
}

impl Fault {
    /// The number that is printed for it.
    pub fn code(self) -> u32
        ensures { result ≡ code_of self }
    {
        match self {
            Fault::NotUtf8 => 1,
            Fault::BadToken => 2,
            Fault::Expected => 3,
            Fault::LiteralTooLarge => 4,
            Fault::TooDeep => 5,
            Fault::Unknown => 6,
            Fault::Double => 7,
            Fault::TooMany { .. } => 8,
            Fault::NotSquare => 9,
            Fault::NotComposable => 10,
            Fault::SumMismatch => 11,
            Fault::OpenZero => 12,
            Fault::BadNumber => 16,
        }
    }

    /// The fault at this place.
    pub fn at(self, at: Spot) -> Placed
        ensures { result ≡ placed self at }
    {
        Placed { fault: self, at }
    }

    /// The limit that is exceeded, or 0.
    pub fn limit(self) -> u32
        ensures { result ≡ limit_of self }
    {
        match self {
            Fault::TooMany { limit } => limit,
            _ => 0,
        }
    }
}

impl From<Fault> for Stop<Fault> {
    ghost from_gives = { λ fault stopped. stopped ≡ stop.Fault fault };

    fn from(fault: Fault) -> Stop<Fault> {
        Stop::Fault(fault)
    }
}

impl From<Placed> for Stop<Placed> {
    ghost from_gives = { λ placed stopped. stopped ≡ stop.Fault placed };

    fn from(placed: Placed) -> Stop<Placed> {
        Stop::Fault(placed)
    }
}
