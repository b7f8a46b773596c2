// SPDX-License-Identifier: MIT OR Apache-2.0
//! Maps, unmaps, fills and releases the RX and TX buffers of endpoints.
#![tactic(auto)]

pub mod buffers;

// The checks that refuse a call.
mod checks;

// The calls.
mod calls;

// The explanation of a refused call, which only diagnostics use.
mod reasons;

pub use buffers::{Buffers, Mapped};
pub use reasons::failing_map;
