// SPDX-License-Identifier: MIT OR Apache-2.0
//! Finds why an operation is refused, what would pass, and why an endpoint has its access to a page. No operation uses
//! it and it changes nothing. So you can skip it in an audit of what operations do.
#![tactic(auto)]

mod abouts;
mod contents;
mod explained;
mod faults;
mod reasons;
mod refusals;
mod registers;
mod several;
mod standings;
mod telling;
mod values;

pub use explained::Explained;
pub use several::ExplainedCluster;
pub use telling::{grant_of, offered, why, why_resuming};
