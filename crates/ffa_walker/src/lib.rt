// SPDX-License-Identifier: MIT OR Apache-2.0
//! Walks stage 2 tables in RAM, and loads, stores and fetches through them (DDI 0487, D8.2 and D8.3). It also checks a
//! certificate against tables.
#![tactic(auto)]

pub mod access;
pub mod certification;
pub mod translation;

pub use access::{fetch, fetch_at, load, load_at, store, store_at};
pub use certification::audit;
pub use ffa_model::{FaultKind, Leaf};
pub use translation::{is_in_ram, translate};
