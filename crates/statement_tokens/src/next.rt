//! The tokens of a text, one after another.

ghost use Rattle.std.specs.Prelude.{◌≡◌, ◌<◌, List, [], ◌∷◌, length, MatchOption};
ghost use Rattle.statement_tokens.specs.declared.token.Token as code_token;
ghost use Rattle.statement_tokens.specs.Tokens.{end_of};
ghost use Rattle.statement_tokens.specs.Language.{language_of};
ghost use Rattle.statement_tokens.specs.Scanned.{HasWhole, Hands, Lessens, most_tokens};

use crate::fault::Placed;
use crate::language::Language;
use crate::place::Spot;
use crate::scan::{Item, item_in};
use crate::scanner::Scanner;
use crate::token::{Token, TokenKind};
use lists::Stop;
use std::alloc::Global;

impl<'a> Scanner<'a> {
    /// Before the first character of a text.
    pub fn new(text: &'a [char]) -> Scanner<'a>
        requires { length text.now < 4294967295 }
        ensures { HasWhole text.now result }
    {
        Scanner {
            text,
            at: Spot { line: 1, column: 1 },
            past: 0,
        }
    }

    /// The next token in a file of the language, which the tokens before it determine, or None after the last one. A line that
    /// has a token ends with one just past its last.
    #[tactic(auto, using(crate::proofs::Scanning::cut_length, crate::proofs::Scanning::at_most_one, crate::proofs::Scanning::end_lessens))]
    pub fn next(&mut self, alloc: Global, language: Language) -> Result<Option<Token>, Stop<Placed>>
        ensures hands { (before : List code_token.Token) → language_of before ≡ language → Hands before self.old result self.new }
        // It ends.
        ensures lessens { Lessens (most_tokens self.old) (most_tokens self.new) result }
    {
        while let [first, rest @ ..] = self.text {
            let at = self.at;
            let item = match item_in(alloc, language, *first, rest) {
                Ok(item) => item,
                Err(Stop::Memory(error)) => return Err(Stop::Memory(error)),
                Err(Stop::Fault(fault)) => return Err(Stop::Fault(Placed { fault, at })),
            };
            match item {
                Item::NewLine => {
                    let end = line_end(at.line, self.past);
                    self.text = rest;
                    self.at = Spot {
                        line: at.line + 1,
                        column: 1,
                    };
                    self.past = 0;
                    if let Some(token) = end {
                        return Ok(Some(token));
                    }
                }
                Item::Gap(more) => {
                    self.text = &rest[more..];
                    self.at.column += 1 + more as u32;
                }
                Item::Token(kind, more) => {
                    self.text = &rest[more..];
                    self.at.column += 1 + more as u32;
                    self.past = self.at.column;
                    return Ok(Some(Token { at, kind }));
                }
            }
        }
        let end = line_end(self.at.line, self.past);
        self.past = 0;
        Ok(end)
    }
}

// The end of a line that has a token, just past its last.
fn line_end(line: u32, past: u32) -> Option<Token>
    ensures { MatchOption result (end_of line past ≡ []) (λ token. end_of line past ≡ token ∷ []) }
{
    if past == 0 {
        return None;
    }
    Some(Token {
        at: Spot { line, column: past },
        kind: TokenKind::End,
    })
}
