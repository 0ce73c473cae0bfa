//! What a scanner keeps: the characters of a text that have not been read, with their place.

ghost use Rattle.std.specs.Prelude.{◌≤◌, ◌+◌, length};

use crate::place::Spot;

/// The characters of a text that have not been read, with their place.
#[derive(Drop)]
pub struct Scanner<'a> {
    pub(crate) text: &'a [char],
    pub(crate) at: Spot,
    // The column past the last token of the line, 0 where it has none.
    pub(crate) past: u32,
    ghost lines: { at.line + length text.now ≤ 4294967295 },
    ghost columns: { at.column + length text.now ≤ 4294967295 },
}
