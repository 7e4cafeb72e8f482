//! What was found beside what a row expects.

use std::fmt::Debug;
use std::process::Abort;

/// Both are equal; else the test fails at the row that these words name.
pub fn same<T: PartialEq + Debug + Drop, S: Debug + Drop>(
    rt: &impl Abort,
    found: T,
    expected: T,
    row: S,
) {
    assert_eq!(rt; found, expected, "{row:?}");
}
