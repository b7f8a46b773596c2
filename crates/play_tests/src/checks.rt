// SPDX-License-Identifier: MIT OR Apache-2.0
//! Comparisons for tests. Each is a call, because each comparison in the body of a test makes the test's proof some
//! seconds longer.
use std::fmt::Debug;
use std::process::Abort;

// Asserts that two values are the same.
pub(crate) fn same<T: PartialEq + Debug + Drop>(rt: &impl Abort, found: T, wanted: T) {
    assert_eq!(rt; found, wanted);
}

pub(crate) fn holds(rt: &impl Abort, found: bool) {
    assert!(rt; found);
}
