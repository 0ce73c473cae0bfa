//! The comparison of what came with what a row says, and how a table of rows is taken apart.
use std::fmt::Debug;
use std::process::Abort;

/// The text of a row and what is told of it.
pub fn halves<'a>(rt: &impl Abort, row: &'a str) -> (&'a str, &'a str) {
    row.split_once("\n=> ").expect(rt, row)
}

/// Ends the test where the text that came is not the one that is wanted, and tells both with the name of the row.
pub fn same(rt: &impl Abort, got: &str, want: &str, row: &str) {
    assert_eq!(rt; got, want, "{row}");
}

/// Ends the test where what came is not what is wanted, and tells both with the name of the row.
pub fn equal<T: PartialEq + Debug>(rt: &impl Abort, got: &T, want: &T, row: &str) {
    assert_eq!(rt; got, want, "{row}");
}
