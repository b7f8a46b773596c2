// SPDX-License-Identifier: MIT OR Apache-2.0
//! Comparisons for tests. Each is a call, because each comparison in the body of a test makes the test's proof some
//! seconds longer.
use std::fmt::{Debug, Display};
use std::process::Abort;

// Asserts that two values are the same.
pub(crate) fn same<T: PartialEq + Debug + Drop>(rt: &impl Abort, found: T, wanted: T) {
    assert_eq!(rt; found, wanted);
}

// Asserts that two values are the same in this case.
pub(crate) fn same_at<T: PartialEq + Debug + Drop>(
    rt: &impl Abort,
    found: T,
    wanted: T,
    case: &impl Display,
) {
    assert_eq!(rt; found, wanted, "at {case}");
}

pub(crate) fn holds(rt: &impl Abort, found: bool) {
    assert!(rt; found);
}
