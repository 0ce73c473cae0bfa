//! Trees: the statements of a text, with their names, literals and expressions.

ghost use Rattle.statement_syntax.specs.Texts.{HasText};

use lists::{Listing, Text};
use statement_tokens::Spot;

/// The statements of a text, one a line. It is the tree of some text of the language.
#[derive(Drop)]
pub struct Tree {
    pub statements: Listing<Statement>,
    pub ghost spelled: { ∥ HasText statements ∥₁ },
}

/// A name with its place.
#[derive(Drop)]
pub struct Name {
    pub text: Text,
    pub at: Spot,
}

/// The value of a literal with its place.
#[derive(Clone, Copy)]
pub struct Number {
    pub value: i128,
    pub at: Spot,
}

/// A statement with the place of its first word.
#[derive(Drop)]
pub struct Statement {
    pub at: Spot,
    pub kind: StatementKind,
}

/// The statements of the language. Lists of names and weights have at least one item.
#[derive(Drop)]
pub enum StatementKind {
    /// The first line of a file of the second language.
    Language,
    Objects(Listing<Name>),
    Maps {
        names: Listing<Name>,
        source: Name,
        target: Name,
        selfmade: bool,
    },
    Assume(Sum, Sum),
    Claim(Sum, Sum),
    Pinv(Name, Name),
    Inverse(Name, Name),
    Inner(Name, Name),
    Projection(Name),
    Degree,
    Weight(Listing<(Name, Number)>),
    Solve(Listing<Name>),
    /// The maps that the order puts above all others, in a file of the second language.
    Eliminate(Listing<Name>),
    Shape {
        modulus: Number,
        sides: Listing<(Name, Number)>,
    },
}

/// An expression with the place of its first token, a leading sign included.
#[cycle(tree)]
#[derive(Drop)]
pub struct Sum {
    pub at: Spot,
    pub terms: Listing<Term>,
}

/// A term with the place of the token after its sign.
#[cycle(tree)]
#[derive(Drop)]
pub struct Term {
    pub at: Spot,
    pub negative: bool,
    pub literal: Option<Number>,
    pub factors: Listing<Factor>,
}

/// A factor with the place of its first token.
#[cycle(tree)]
#[derive(Drop)]
pub struct Factor {
    pub at: Spot,
    pub primary: Primary,
    pub marks: Listing<Mark>,
}

/// A letter, an identity or an expression in round brackets.
#[cycle(tree)]
#[derive(Drop)]
pub enum Primary {
    Letter(Name),
    Identity(Name),
    Bracket(Sum),
}

/// What may follow a primary, any number of times.
#[derive(Clone, Copy)]
pub enum Mark {
    /// `'`
    Adjoint,
    /// `^` at this place, and the literal after it.
    Power { at: Spot, exponent: Number },
}
