// SPDX-License-Identifier: MIT OR Apache-2.0
//! Passes direct and indirect messages between endpoints (DEN0077A, 7.1 and 15).
#![tactic(auto)]

mod checks;
mod direct;
mod indirect;
mod parties;
mod reasons;

pub use checks::{IndirectMessage, check_direct_req, check_direct_resp, check_send2};
pub use direct::{direct_req, direct_resp};
pub use indirect::send2;
pub use reasons::{explain_message, mend_response};
