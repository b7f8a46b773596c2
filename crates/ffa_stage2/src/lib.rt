// SPDX-License-Identifier: MIT OR Apache-2.0
//! Builds the stage 2 tables of all endpoints in pages of RAM, and changes them for runs of pages.
#![tactic(auto)]

mod blocks;
pub mod layout;
pub mod runs;
pub mod tables;

pub use layout::{Layout, Regions};
pub use runs::is_uniform;
pub use tables::{build, built_tables, leaf, set_page, set_pages, settle_tables};
