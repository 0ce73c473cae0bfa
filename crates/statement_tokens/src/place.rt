//! Places in a text: lines and columns.

/// A line and a column, both from 1; a column counts characters.
#[derive(Clone, Copy, Debug, PartialEq, Eq)]
pub struct Spot {
    /// The number of the line.
    pub line: u32,
    /// The number of the character in its line.
    pub column: u32,
}
