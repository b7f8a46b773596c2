// SPDX-License-Identifier: MIT OR Apache-2.0
//! The run states of endpoints.

use crate::endpoint::EndpointId;

/// The run state of an endpoint (DEN0077A, 8.2).
#[derive(Clone, Copy, Debug, PartialEq, Eq, Default)]
pub enum Status {
    Running,
    #[default]
    Waiting,
    Yielded,
    Blocked,
    /// An interrupt stopped the endpoint in the middle of its work, which it may continue.
    Preempted,
    /// The endpoint runs on another processor.
    RunsElsewhere,
}

/// The work of a partition that does not wait: the reason why it began to run.
#[derive(Clone, Copy, Debug, PartialEq, Eq)]
pub enum Work {
    /// The normal world gave the partition cycles.
    Run,
    /// The partition answers a direct request of this endpoint.
    Request(EndpointId),
}
