//! Texts of blocks, line by line.

ghost use Rattle.std.specs.Prelude.{◌≡◌, ◌<◌, map, IfOk, length, ok_or};
ghost use Rattle.std.specs.List.{list_any};
ghost use Rattle.std.specs.Str.Lines.{lines};
ghost use Rattle.block_text.specs.Blocks.{is_other_head};
ghost use Rattle.lists.specs.Stop.{Gives};
ghost use Rattle.block_text.specs.Fault.{ReadsText, truncated, no_block};
ghost use Rattle.block_text.specs.Steps.{headed, skipped_to, inside, step, read_tokens, read_lines, beginning, ended, one_or_more, values_of, all_values};
ghost use Rattle.block_text.specs.Lines.{begins};
ghost use Rattle.block_text.specs.Sound.{IsSound};
ghost use Rattle.block_text.specs.Tokens.{tokens_of};

use crate::cut::{first_line, is_skipped, is_utf8};
use crate::fault::{CertFault, Flaw, at_line, no_block, not_utf8, truncated};
use crate::kind::BlockKind;
use crate::line::{BLOCK_LIMIT, begins, is_end};
use crate::place::{Place, Progress};
use lists::{Listing, Stop};
use std::alloc::Global;

/// The values that a text says, or its first fault.
pub type ReadText<V> = Result<Listing<V>, CertFault>;

// Whether the line begins with one of these words.
fn begins_one_of(words: &[&str], line: &[u8]) -> bool
    ensures { result ≡ list_any (λ word. begins word.now (tokens_of line.now)) words.now }
{
    words.iter().any(|word| begins(word, line))
}

// Whether a block of another kind begins.
fn is_other_head(words: &[&str], line: &[u8]) -> bool
    ensures { result ≡ is_other_head (map (λ word. word.now) words.now) (tokens_of line.now) }
{
    begins_one_of(words, line)
}

// A block begins, where there may be one more.
fn headed<K: BlockKind>(
    alloc: Global,
    kind: &K,
    values: Listing<K::Value>,
    line: &[u8],
) -> Result<Progress<K::Begun, K::Value>, Flaw>
    ensures exact { result ≡ headed (K.steps kind.now) values ((K.steps kind.now).begin (tokens_of line.now)) (tokens_of line.now) }
    ensures sound { IfOk result (λ p. IsSound (K.is_sound kind.now) p.place) }
{
    match kind.begin(alloc, line) {
        Some(_) if values.len() >= BLOCK_LIMIT as usize => Err(Flaw::TooMany(BLOCK_LIMIT)),
        Some(begun) => {
            let place = Place::Inside { begun };
            Ok(Progress { values, place })
        }
        None if is_other_head(kind.others(), line) => {
            let place = Place::Skipped;
            Ok(Progress { values, place })
        }
        None => Err(Flaw::BadLine),
    }
}

// The progress after a line of a block of another kind.
fn skipped<B: Drop, V: Drop>(values: Listing<V>, line: &[u8]) -> Progress<B, V>
    ensures values { result.values ≡ values }
    ensures place { result.place ≡ skipped_to (tokens_of line.now) }
{
    let place = if is_end(line) {
        Place::Outside
    } else {
        Place::Skipped
    };
    Progress { values, place }
}

// The end of a block, or one more line.
fn inside<K: BlockKind>(
    alloc: Global,
    kind: &K,
    mut values: Listing<K::Value>,
    begun: K::Begun,
    line: &[u8],
) -> Result<Progress<K::Begun, K::Value>, Stop<Flaw>>
    requires { K.is_sound kind.now begun }
    ensures exact { Gives (λ p. p) result (inside (K.steps kind.now) values begun (tokens_of line.now)) }
    ensures sound { IfOk result (λ p. IsSound (K.is_sound kind.now) p.place) }
{
    if !is_end(line) {
        let begun = kind.next(alloc, begun, line)?;
        let place = Place::Inside { begun };
        return Ok(Progress { values, place });
    }
    let Some(value) = kind.finish(alloc, begun)? else {
        return Err(Stop::Fault(Flaw::BadLine));
    };
    values.push(value)?;
    let place = Place::Outside;
    Ok(Progress { values, place })
}

// The progress after the line, or its flaw.
fn step<K: BlockKind>(
    alloc: Global,
    kind: &K,
    progress: Progress<K::Begun, K::Value>,
    line: &[u8],
) -> Result<Progress<K::Begun, K::Value>, Stop<Flaw>>
    requires { IsSound (K.is_sound kind.now) progress.place }
    ensures exact { Gives (λ p. p) result (step (K.steps kind.now) progress.values progress.place (tokens_of line.now)) }
    ensures sound { IfOk result (λ p. IsSound (K.is_sound kind.now) p.place) }
{
    let Progress { values, place } = progress;
    match place {
        Place::Outside => Ok(headed(alloc, kind, values, line)?),
        Place::Skipped => Ok(skipped(values, line)),
        Place::Inside { begun } => inside(alloc, kind, values, begun, line),
    }
}

fn read_line<K: BlockKind>(
    alloc: Global,
    kind: &K,
    progress: Progress<K::Begun, K::Value>,
    line: &[u8],
) -> Result<Progress<K::Begun, K::Value>, Stop<Flaw>>
    requires { IsSound (K.is_sound kind.now) progress.place }
    ensures exact { Gives (λ p. p) result (read_tokens (K.steps kind.now) progress (tokens_of line.now)) }
    ensures sound { IfOk result (λ p. IsSound (K.is_sound kind.now) p.place) }
{
    if is_skipped(line) {
        return Ok(progress);
    }
    step(alloc, kind, progress, line)
}

fn read_lines<K: BlockKind>(
    alloc: Global,
    kind: &K,
    text: &[u8],
) -> Result<Progress<K::Begun, K::Value>, CertFault>
    requires { length text.now < 4294967295 }
    ensures { ReadsText (λ p. p) result (read_lines (K.steps kind.now) 1 beginning (lines text.now)) }
{
    let mut progress = Progress {
        values: Listing::new(alloc),
        place: Place::Outside,
    };
    let mut number = 1;
    let mut rest = text;
    while !rest.is_empty() {
        let (line, behind) = first_line(rest);
        progress = match read_line(alloc, kind, progress, line) {
            Ok(next) => next,
            Err(fault) => return Err(at_line(number, fault)),
        };
        number += 1;
        rest = behind;
    }
    Ok(progress)
}

// The text may end only outside of blocks.
fn ended<B: Drop, V: Drop>(progress: Progress<B, V>) -> Option<Listing<V>>
    ensures { ok_or result truncated ≡ ended progress.values progress.place }
{
    match progress.place {
        Place::Outside => Some(progress.values),
        _ => None,
    }
}

// The values of a text that may have none.
fn values_of<K: BlockKind>(alloc: Global, kind: &K, bytes: &[u8]) -> ReadText<K::Value>
    requires { length bytes.now < 4294967295 }
    ensures { ReadsText (λ vs. vs) result (values_of (K.steps kind.now) bytes.now) }
{
    if !is_utf8(bytes) {
        return Err(not_utf8());
    }
    ended(read_lines(alloc, kind, bytes)?).ok_or(truncated())
}

fn one_or_more<V: Drop>(values: Listing<V>) -> Option<Listing<V>>
    ensures { ok_or result no_block ≡ one_or_more values }
{
    match values.as_slice() {
        [] => None,
        _ => Some(values),
    }
}

/// The values of the blocks of the kind, at least one, or the first fault of the bytes.
pub fn read_blocks<K: BlockKind>(alloc: Global, kind: &K, bytes: &[u8]) -> ReadText<K::Value>
    requires { length bytes.now < 4294967295 }
    ensures { ReadsText (λ vs. vs) result (all_values (K.steps kind.now) bytes.now) }
{
    one_or_more(values_of(alloc, kind, bytes)?).ok_or(no_block())
}
