// SPDX-License-Identifier: MIT OR Apache-2.0
//! The end of a walk of stage 2 tables.

/// The physical address and the access that a leaf descriptor gives to an input address (DDI 0487, D8.3).
#[derive(Clone, Copy, Debug, PartialEq, Eq)]
pub struct Leaf {
    /// The physical address.
    pub phys: u64,
    pub read: bool,
    pub write: bool,
    pub exec: bool,
}
