// SPDX-License-Identifier: MIT OR Apache-2.0
//! The results of the checks of calls on memory, which the calls then use.

use ffa_model::Rights;
use ffa_rxtx::Mapped;

/// The results of the checks of a retrieve.
#[derive(Clone, Copy, PartialEq, Eq)]
pub struct FoundRight {
    /// The slot of the transaction that the caller retrieves.
    pub slot: usize,
    /// The right that the caller gets.
    pub right: Rights,
    /// The caller's buffers.
    pub own: Mapped,
}

/// The results of the checks of a relinquish or a reclaim.
#[derive(Clone, Copy, PartialEq, Eq)]
pub struct FoundReturn {
    /// The slot of the transaction that the caller relinquishes or reclaims.
    pub slot: usize,
    /// Whether the manager must zero the pages.
    pub zero: bool,
}

/// The results of the checks of a hypervisor's retrieve.
#[derive(Clone, Copy, PartialEq, Eq)]
pub struct FoundSent {
    /// The slot of the transaction that the caller reads back.
    pub slot: usize,
    /// The caller's buffers.
    pub own: Mapped,
}
