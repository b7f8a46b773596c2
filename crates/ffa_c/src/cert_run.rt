// SPDX-License-Identifier: MIT OR Apache-2.0
//! Runs of pages in the form that C passes and gets.

use ffa_model::MOST_ENDPOINTS;

/// A run of adjacent pages that have the same owner, the same open transaction or no transaction, and the same access
/// of each endpoint.
#[repr(C)]
#[derive(Clone, Copy)]
pub struct CCertRun {
    /// The first page of the run. RAM's first page is 0.
    pub first: u32,
    /// The last page of the run.
    pub last: u32,
    /// The owner of the pages. 0x8000 is the manager.
    pub owner: u32,
    /// 1 if the pages are in the open transaction `handle`. Otherwise 0, and `handle` is 0.
    pub has_handle: u32,
    /// The handle of the open transaction, if `has_handle` is 1.
    pub handle: u64,
    /// The access of each endpoint, by its place in the manifest, as `gorseplumb_access` returns it. 0 after the last
    /// endpoint.
    pub access: [u32; MOST_ENDPOINTS],
}
