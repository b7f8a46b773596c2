// SPDX-License-Identifier: MIT OR Apache-2.0
//! Comparisons for tests. Each is a call, because each comparison in the body of a test makes the test's proof some
//! seconds longer.
use std::fmt::{Debug, Display};
use std::process::Abort;

// Asserts that two values are the same.
pub(crate) fn same<T: PartialEq + Debug + Drop>(rt: &impl Abort, found: T, wanted: T) {
    assert_eq!(rt; found, wanted);
}

// Asserts that two values are the same, for a type that a test does not print.
pub(crate) fn alike<T: PartialEq + Drop>(rt: &impl Abort, found: T, wanted: T) {
    assert!(rt; found == wanted);
}

// Asserts that two values are the same in this case.
pub(crate) fn same_at<T: PartialEq + Debug + Drop>(
    rt: &impl Abort,
    found: T,
    wanted: T,
    case: &impl Display,
) {
    assert_eq!(rt; found, wanted, "at {case}");
}

pub(crate) fn holds(rt: &impl Abort, found: bool) {
    assert!(rt; found);
}

// Asserts that the condition is true in this case.
pub(crate) fn holds_at(rt: &impl Abort, found: bool, case: &impl Display) {
    assert!(rt; found, "at {case}");
}
