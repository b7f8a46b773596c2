// SPDX-License-Identifier: MIT OR Apache-2.0
//! The values that a register or a field of a descriptor may have.

/// The allowed numbers, from the least to the most, in equal steps.
#[derive(Clone, Copy, PartialEq, Eq)]
pub struct Allowed {
    pub least: u64,
    pub most: u64,
    /// The step, which is never 0.
    pub step: u64,
}
