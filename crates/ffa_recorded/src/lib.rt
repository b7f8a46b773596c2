// SPDX-License-Identifier: MIT OR Apache-2.0
//! RAM that keeps a record of each write, so that a promise about steps is a fact about bytes.
#![tactic(auto)]

pub mod recorded;

pub use recorded::Recorded;
