//! A comparison of what came with what a row says.
use std::fmt::Debug;
use std::process::Abort;

/// Ends the test where what came is not what is wanted, and tells both with the name of the row.
pub fn equal<T: PartialEq + Debug>(rt: &impl Abort, got: &T, want: &T, row: &str) {
    assert_eq!(rt; got, want, "{row}");
}
