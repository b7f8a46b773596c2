// SPDX-License-Identifier: MIT OR Apache-2.0
//! Reads and writes lines of a trace, in words too, and descriptors of transactions (DEN0077A, 5.11, 16).
#![tactic(auto)]

mod access;
mod arguments;
mod descriptor;
mod fault;
mod function;
mod given;
mod heading;
pub mod line;
mod line_text;
mod lines;
mod lowering;
mod name;
pub mod number;
mod operation;
pub mod output;
mod reclaim;
mod relinquish;
mod retrieve;
mod send;
mod stores;
pub mod text;
mod unfit;

pub use arguments::{ARGUMENTS, Argument, Place, Usual};
pub use descriptor::{DescriptorContents, ScriptError, put_descriptor};
pub use fault::{Cause, LowerError, WordsFault};
pub use ffa_model::{RelinquishDesc, RetrieveDesc, SendDesc};
pub use lines::Line;
pub use lowering::lower_line;
pub use name::Name;
pub use operation::put_operation;
pub use output::PlayError;
pub use reclaim::{Reclaim, put_reclaim};
pub use relinquish::write_relinquish;
pub use retrieve::write_retrieve;
pub use send::write_send;
pub use stores::put_stores;
pub use unfit::Unfit;
