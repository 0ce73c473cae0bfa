//! The first word of a line.

ghost use Rattle.std.specs.Prelude.{◌≡◌};
ghost use Rattle.statement_syntax.specs.Lines.{common_opening, opening_in, opened, start_step};

use crate::line::{Line, ListWord, MapRest, Opening, PairWord, SidesWord};
use crate::sides::start_reading;
use lists::Listing;
use statement_tokens::{Fault, Language, Spot, Token, TokenKind};
use std::alloc::Global;

// The statement that a word begins in every language, if it begins one.
fn common_opening(word: &str) -> Option<Opening>
    ensures { result ≡ common_opening word.now }
{
    match word {
        "object" => Some(Opening::List(ListWord::Object)),
        "solve" => Some(Opening::List(ListWord::Solve)),
        "map" => Some(Opening::Map),
        "assume" => Some(Opening::Sides(SidesWord::Assume)),
        "claim" => Some(Opening::Sides(SidesWord::Claim)),
        "pinv" => Some(Opening::Pair(PairWord::Pinv)),
        "inverse" => Some(Opening::Pair(PairWord::Inverse)),
        "inner" => Some(Opening::Pair(PairWord::Inner)),
        "projection" => Some(Opening::Projection),
        "order" => Some(Opening::Order),
        "model" => Some(Opening::Model),
        _ => None,
    }
}

// The statement that a word begins in the language, if it begins one.
fn opening_in(language: Language, word: &str) -> Option<Opening>
    ensures { result ≡ opening_in language word.now }
{
    match language {
        Language::First => common_opening(word),
        Language::Second => match word {
            "eliminate" => Some(Opening::List(ListWord::Eliminate)),
            _ => common_opening(word),
        },
    }
}

fn opened(alloc: Global, opening: Opening, at: Spot) -> Line
    ensures { result ≡ opened opening at }
{
    match opening {
        Opening::List(word) => Line::List {
            word,
            at,
            names: Listing::new(alloc),
        },
        Opening::Map => Line::Map {
            at,
            names: Listing::new(alloc),
            rest: MapRest::Names,
        },
        Opening::Sides(word) => Line::Sides {
            word,
            at,
            left: None,
            reading: start_reading(alloc),
        },
        Opening::Pair(word) => Line::Pair {
            word,
            at,
            first: None,
        },
        Opening::Projection => Line::Projection(at),
        Opening::Order => Line::Order(at),
        Opening::Model => Line::Model(at),
    }
}

/// The line that a word begins.
pub fn start_step(alloc: Global, language: Language, token: &Token) -> Result<Line, Fault>
    ensures { result ≡ start_step language token.now.kind token.now.at }
{
    match &token.kind {
        TokenKind::Name(text) => match opening_in(language, text.as_str()) {
            Some(opening) => Ok(opened(alloc, opening, token.at)),
            None => Err(Fault::Expected),
        },
        _ => Err(Fault::Expected),
    }
}
