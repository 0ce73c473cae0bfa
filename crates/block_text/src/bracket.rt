//! The tokens in round brackets.

ghost use Rattle.std.specs.Prelude.{◌≡◌, ◌<◌, length, position, IfSome};
ghost use Rattle.std.specs.Option.{option_map};
ghost use Rattle.block_text.specs.Lines.{closed, bracketed};
ghost use Rattle.block_text.specs.Tokens.{is_closing, tokens_of};

use crate::cut::first_token;
use crate::line::is;

// The place of the first `)`.
fn close_place(line: &[u8]) -> Option<usize>
    ensures first { result ≡ position is_closing line.now }
    ensures within { IfSome result (λ place. place < length line.now) }
{
    line.iter().position(|byte| *byte == b')')
}

// The line before the first `)` and after it.
fn closed(line: &[u8]) -> Option<(&[u8], &[u8])>
    ensures { option_map (λ parts. (tokens_of parts.0.now, tokens_of parts.1.now)) result ≡ closed (tokens_of line.now) }
{
    match close_place(line) {
        Some(place) => Some((&line[..place], &line[place + 1..])),
        None => None,
    }
}

/// The line in a leading `( .. )` and after it.
pub fn bracketed(line: &[u8]) -> Option<(&[u8], &[u8])>
    ensures { option_map (λ parts. (tokens_of parts.0.now, tokens_of parts.1.now)) result ≡ bracketed (tokens_of line.now) }
{
    match first_token(line) {
        Some((first, rest)) if is("(", first) => closed(rest),
        _ => None,
    }
}
