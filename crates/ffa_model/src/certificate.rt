// SPDX-License-Identifier: MIT OR Apache-2.0
//! Certificates: what a machine states about its pages, and what its tables must grant.

use crate::endpoint::{EndpointId, PageNo};
use crate::limits::MOST_ENDPOINTS;
use crate::rights::Rights;

/// Consecutive pages with the same owner, with the same open transaction or without one, and with the same access of
/// each endpoint.
#[derive(Clone, Copy, PartialEq, Eq)]
pub struct CertRun {
    pub first: PageNo,
    pub last: PageNo,
    pub owner: EndpointId,
    /// The handle of the open transaction that the pages are in, if they are in one.
    pub handle: Option<u64>,
    /// The access of each endpoint, by the endpoint's place in the manifest. A place after the last endpoint has
    /// `None`.
    pub access: [Option<Rights>; MOST_ENDPOINTS],
}
