// SPDX-License-Identifier: MIT OR Apache-2.0
//! Writes what the program says without a machine: failures, differences, manifests and descriptors.
#![tactic(auto)]

mod call_fault;
mod counts;
mod descriptor;
mod difference;
mod excerpt;
mod failure;
mod fault;
pub mod layout;
mod manifest;
mod members;
mod notes;
mod output;
mod parts;
mod regions;
mod right;
mod telling;
mod told;
mod unmet;
mod versions;

pub use call_fault::CallFault;
pub use counts::print_counts;
pub use descriptor::describe_for;
pub use difference::Difference;
pub use excerpt::Excerpt;
pub use failure::{Failure, Fault, LineFlaw};
pub use fault::{Form, Word, WordsFault};
pub use manifest::{accept, lay_out, read_manifest};
pub use notes::{More, Notes};
pub use right::Right;
pub use telling::{show, tell, tell_more};
pub use told::{Asked, Told, read_words};
pub use unmet::{tell_met, tell_near, tell_unmet};
pub use versions::words_for;
