// SPDX-License-Identifier: MIT OR Apache-2.0
//! The facts that a machine reports of a refused operation, besides the reason. Only diagnostics use them.

use ffa_mend::{Allowed, Mend};
use ffa_model::{EndpointId, Status, Why};

/// The explanation of a refused operation: the reason, and what else the machine knows of it.
#[derive(Clone, Copy)]
pub struct Explanation {
    /// The reason why the operation is refused.
    pub why: Why,
    /// The thing to change, the state of the thing that the check is about, or the values that may be there.
    pub detail: Option<Detail>,
}

/// A fact that a machine reports of a refused operation, besides the reason.
#[derive(Clone, Copy)]
pub enum Detail {
    /// The thing to change.
    Mend(Mend),
    /// The state of the thing that the check is about.
    Standing(Standing),
    /// The values that may be in the register or the field that the check is about.
    Allowed(Allowed),
}

/// The state of the thing that a check is about.
#[derive(Clone, Copy)]
pub enum Standing {
    /// The run state of the endpoint, and the endpoint to which it sent a direct request that is not answered yet.
    RunState {
        status: Status,
        awaits: Option<EndpointId>,
    },
}
