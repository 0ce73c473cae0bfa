//! The tree of a text: its bytes, its tokens, its lines.

ghost use Rattle.std.specs.Prelude.{◌≡◌, ◌<◌, List, length, IfOk, IfErr, MatchResult, Ok, Err};
ghost use Rattle.statement_syntax.specs.Grammar.{StatedLine};
ghost use Rattle.statement_syntax.specs.Tree.{file_tree};
ghost use Rattle.statement_syntax.specs.Fault.{TellsFirstFault, IsWantOfMemory};
ghost use Rattle.statement_syntax.specs.Texts.{IsStatements, IsTreeOf};
ghost use Rattle.lists.specs.Stop.{Gives};
ghost use Rattle.statement_syntax.specs.Lines.{ended, file_step};
ghost use Rattle.statement_syntax.specs.Stages.{CharactersRead, TextRead, IsReadSoFar, Goes, IsFront, LeavesFault, IsRefusal, first_statements, behind_first};
ghost use Rattle.statement_tokens.specs.Language.{language_of};
ghost use Rattle.std.specs.Vec.Iter.{into_iter_items, into_iter_len};

use crate::fault::{SyntaxFault, fault_at};
use crate::line::{Line, line_end, line_step};
use crate::tree::{Statement, StatementKind, Tree};
use lists::{Listing, Stop};
use statement_tokens::{Fault, Language, Scanner, Spot, Token, TokenKind, characters, language_of};
use std::alloc::{AllocError, Global};
use std::mem;
use std::vec::IntoIter;

/// The statements of the lines that were read, and what has been read of the present one.
#[derive(Drop)]
pub struct Progress {
    pub statements: Listing<Statement>,
    pub line: Line,
}

fn file_step(
    alloc: Global,
    language: Language,
    progress: &mut Progress,
    token: Token,
) -> Result<(), Stop<Fault>>
    ensures { Gives (λ done. progress.new) result (file_step language progress.old token) }
{
    match &token.kind {
        TokenKind::End => end_line(alloc, progress),
        _ => line_step(alloc, language, &mut progress.line, token),
    }
}

fn end_line(alloc: Global, progress: &mut Progress) -> Result<(), Stop<Fault>>
    ensures { Gives (λ done. progress.new) result (ended progress.old) }
{
    let line = mem::replace(&mut progress.line, Line::Start);
    progress.statements.push(line_end(alloc, line)?)?;
    Ok(())
}

fn refusal(error: Stop<Fault>, at: Spot) -> SyntaxFault
    ensures { IsRefusal error at result }
{
    match error {
        Stop::Memory(error) => SyntaxFault::Memory(error),
        Stop::Fault(fault) => fault_at(fault, at),
    }
}

// The statement of the line that names the second language, whose three tokens are removed.
fn first_statements(
    alloc: Global,
    language: Language,
    tokens: &mut IntoIter<Token>,
) -> Result<Listing<Statement>, AllocError>
    requires { into_iter_len tokens.old ≡ length (into_iter_items tokens.old) }
    ensures statements { IfOk result (λ statements. statements ≡ first_statements language (into_iter_items tokens.old)) }
    ensures tokens { IfOk result (λ _. into_iter_items tokens.new ≡ behind_first language (into_iter_items tokens.old)) }
    ensures left { into_iter_len tokens.new ≡ length (into_iter_items tokens.new) }
{
    let mut statements = Listing::new(alloc);
    if let Language::Second = language {
        if let Some(word) = tokens.next() {
            let at = word.at;
            drop(word);
            let kind = StatementKind::Language;
            statements.push(Statement { at, kind })?;
        }
        drop(tokens.next());
        drop(tokens.next());
    }
    Ok(statements)
}

// What has been read after the first tokens of a file, which are all of them or determine its language.
fn opened(alloc: Global, language: Language, tokens: Vec<Token>) -> Result<Progress, SyntaxFault>
    requires { language ≡ language_of tokens.items }
    ensures { IsReadSoFar tokens.items result }
{
    let mut tokens = tokens.into_iter();
    let statements = match first_statements(alloc, language, &mut tokens) {
        Ok(statements) => statements,
        Err(failed) => return Err(SyntaxFault::Memory(failed)),
    };
    let mut progress = Progress {
        statements,
        line: Line::Start,
    };
    for token in tokens {
        let at = token.at;
        if let Err(error) = file_step(alloc, language, &mut progress, token) {
            drop(progress);
            return Err(refusal(error, at));
        }
    }
    Ok(progress)
}

// The first three tokens of a text, which determine its language, or all where there are fewer.
fn opening(alloc: Global, scanner: &mut Scanner<'_>) -> Result<Vec<Token>, SyntaxFault>
    ensures found { IfOk result (λ ts. IsFront ts.items scanner.old scanner.new) }
    ensures fault { IfErr result (LeavesFault scanner.old) }
{
    let mut tokens = Vec::new(alloc);
    for _ in 0..3_usize {
        let Some(token) = scanner.next(alloc, Language::First)? else {
            return Ok(tokens);
        };
        tokens.push(token)?;
    }
    Ok(tokens)
}

// One more token, which changes nothing where an earlier one did not fit.
fn go_on(alloc: Global, language: Language, read: &mut Result<Progress, SyntaxFault>, token: Token)
    ensures { Goes language read.old token read.new }
{
    if let Ok(progress) = read {
        let at = token.at;
        if let Err(error) = file_step(alloc, language, progress, token) {
            drop(mem::replace(read, Err(refusal(error, at))));
        }
    }
}

// A token that cannot be read comes before one that does not fit, so all are read.
fn statements(alloc: Global, text: &[char]) -> Result<Listing<Statement>, SyntaxFault>
    requires { length text.now < 4294967295 }
    ensures { TextRead text.now result }
{
    let mut scanner = Scanner::new(text);
    let opening = opening(alloc, &mut scanner)?;
    let language = language_of(&opening);
    let mut read = opened(alloc, language, opening);
    loop {
        match scanner.next(alloc, language) {
            Ok(Some(token)) => go_on(alloc, language, &mut read, token),
            Ok(None) => return statements_of(read),
            Err(error) => {
                drop(read);
                return Err(SyntaxFault::from(error));
            }
        }
    }
}

fn statements_of(read: Result<Progress, SyntaxFault>) -> Result<Listing<Statement>, SyntaxFault>
    ensures { MatchResult read (λ p. result ≡ Ok p.statements) (λ e. result ≡ Err e) }
{
    let Progress { statements, line } = read?;
    drop(line);
    Ok(statements)
}

fn characters_of(alloc: Global, bytes: &[u8]) -> Result<Vec<char>, SyntaxFault>
    requires { length bytes.now < 4294967295 }
    ensures { CharactersRead bytes.now result }
{
    match std::str::from_utf8(bytes) {
        Ok(text) => match characters(alloc, text) {
            Ok(text) => Ok(text),
            Err(failed) => Err(SyntaxFault::Memory(failed)),
        },
        Err(error) => {
            let at = Spot {
                line: 0,
                column: error.valid_up_to() as u32,
            };
            Err(fault_at(Fault::NotUtf8, at))
        }
    }
}

/// The tree of a text of statements, or its first fault. The text has fewer than 4,294,967,295 bytes.
pub fn read_tree(alloc: Global, bytes: &[u8]) -> Result<Tree, SyntaxFault>
    requires { length bytes.now < 4294967295 }
    // The result is the tree of the bytes.
    ensures found { IfOk result (λ tree. IsTreeOf bytes.now tree.statements) }
    // There is no other tree.
    ensures only { (lines : List StatedLine) → IsStatements bytes.now lines → IfOk result (λ tree. tree.statements ≡ file_tree lines) }
    // Where there is a tree, it fails only for want of memory.
    ensures refused { (lines : List StatedLine) → IsStatements bytes.now lines → IfErr result IsWantOfMemory }
    // Otherwise the first fault is returned, with its place.
    ensures first { IfErr result (TellsFirstFault bytes.now) }
{
    let text = characters_of(alloc, bytes)?;
    let statements = statements(alloc, &text)?;
    Ok(Tree { statements })
}
