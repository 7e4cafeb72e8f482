//! What was found beside what a row expects.

use std::fmt::Debug;
use std::process::Abort;

/// Both are equal; else the test fails with these words.
pub fn same<T: PartialEq + Debug + Drop>(rt: &impl Abort, found: T, expected: T, what: &str) {
    assert_eq!(rt; found, expected, "{what}");
}

pub fn same_text(rt: &impl Abort, found: &str, expected: &str, what: &str) {
    assert_eq!(rt; found, expected, "{what}");
}

/// What is said of a row holds.
pub fn holds(rt: &impl Abort, is_so: bool, what: &str) {
    same(rt, is_so, true, what);
}
