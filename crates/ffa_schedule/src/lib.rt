// SPDX-License-Identifier: MIT OR Apache-2.0
//! Stores the run state of each endpoint: which endpoint runs, and for whom it works.
#![tactic(auto)]

pub mod chain;
mod checks;

pub use chain::Chain;
pub use checks::keeps_rx;
