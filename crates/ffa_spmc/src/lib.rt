// SPDX-License-Identifier: MIT OR Apache-2.0
//! Joins all parts into the machine, which boots and does each operation. `Machine` has one runner, and `Cluster` has
//! several processors.
#![tactic(auto)]

pub mod cluster;
pub mod fill;
mod kept;
pub mod lists;
pub mod machine;
mod manager;
pub mod parts;
mod replies;
mod run;
pub mod storage;

pub use cluster::Cluster;
pub use fill::Fill;
pub use lists::{act_in_turn, left_among_others};
pub use machine::Machine;
pub use parts::Parts;
pub use storage::{Given, Inline, Storage, Store};
