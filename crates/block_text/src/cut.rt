//! Bytes to lines, and lines to tokens.

ghost use Rattle.std.specs.Prelude.{◌≡◌, [], ◌∷◌, ◌<◌, ◌≤◌, false, length, slice_index, position, IfSome, MatchOption};
ghost use Rattle.std.specs.List.{prefix_len};
ghost use Rattle.std.specs.Str.{is_utf8};
ghost use Rattle.std.specs.Str.Lines.{lines, strip_carriage_return};
ghost use Rattle.block_text.specs.Tokens.{is_line_end, is_gap, is_sign, is_plain, token_len, tokens_of, begins_comment, is_skipped};

fn line_end(text: &[u8]) -> Option<usize>
    ensures first { result ≡ position is_line_end text.now }
    ensures within { IfSome result (λ end. end < length text.now) }
{
    text.iter().position(|byte| *byte == b'\n')
}

/// The first line of a text that has one, and the rest.
pub fn first_line(text: &[u8]) -> (&[u8], &[u8])
    requires some { 0 < length text.now }
    ensures lines { lines text.now ≡ result.0.now ∷ lines result.1.now }
    ensures shorter { length result.1.now < length text.now }
{
    match line_end(text) {
        Some(end) => (ended_line(&text[..end]), &text[end + 1..]),
        None => (text, &[]),
    }
}

// A line without its LF and without a CR before that.
fn ended_line(line: &[u8]) -> &[u8]
    ensures { result.now ≡ strip_carriage_return line.now }
{
    match line {
        [front @ .., b'\r'] => front,
        _ => line,
    }
}

fn is_gap(byte: u8) -> bool
    ensures { result ≡ is_gap byte }
{
    byte == b' ' || byte == b'\t'
}

fn is_sign(byte: u8) -> bool
    ensures { result ≡ is_sign byte }
{
    byte == b'(' || byte == b')' || byte == b';' || byte == b'='
}

// The number of characters of the run at the start of the text.
fn run_len(text: &[u8]) -> usize
    ensures exact { result ≡ prefix_len is_plain text.now }
    ensures within { result ≤ length text.now }
{
    let mut count = 0;
    while count < text.len() && !is_gap(text[count]) && !is_sign(text[count]) {
        count += 1;
    }
    count
}

fn token_len(text: &[u8]) -> usize
    ensures exact { result ≡ token_len text.now }
    ensures within { result ≤ length text.now }
{
    match text {
        [] => 0,
        [first, ..] if is_sign(*first) => 1,
        _ => run_len(text),
    }
}

// The token at the start of a line that begins with one, and the rest.
fn token_cut(line: &[u8]) -> (&[u8], &[u8])
    requires some { 0 < length line.now }
    requires token { is_gap (slice_index line.now 0) ≡ false }
    ensures tokens { tokens_of line.now ≡ result.0.now ∷ tokens_of result.1.now }
    ensures shorter { length result.1.now < length line.now }
{
    let length = token_len(line);
    (&line[..length], &line[length..])
}

/// The first token of a line, and the rest.
pub fn first_token(line: &[u8]) -> Option<(&[u8], &[u8])>
    ensures tokens { MatchOption result (tokens_of line.now ≡ []) (λ parts. tokens_of line.now ≡ parts.0.now ∷ tokens_of parts.1.now) }
    ensures shorter { IfSome result (λ parts. length parts.1.now < length line.now) }
{
    let mut rest = line;
    while let [first, behind @ ..] = rest {
        if !is_gap(*first) {
            return Some(token_cut(rest));
        }
        rest = behind;
    }
    None
}

fn begins_comment(token: &[u8]) -> bool
    ensures { result ≡ begins_comment token.now }
{
    match token {
        [first, ..] => *first == b'#',
        [] => false,
    }
}

/// Whether the line is blank or a comment.
pub fn is_skipped(line: &[u8]) -> bool
    ensures { result ≡ is_skipped (tokens_of line.now) }
{
    match first_token(line) {
        Some((first, _)) => begins_comment(first),
        None => true,
    }
}

/// Whether the bytes are UTF-8.
pub fn is_utf8(bytes: &[u8]) -> bool
    ensures { result ≡ is_utf8 bytes.now }
{
    match std::str::from_utf8(bytes) {
        Ok(_) => true,
        Err(_) => false,
    }
}
