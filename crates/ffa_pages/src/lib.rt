// SPDX-License-Identifier: MIT OR Apache-2.0
//! Stores the owner of each page of RAM, the owner's right, and the open transaction that names the page.
#![tactic(auto)]

pub mod page;
pub mod table;

pub use page::KeptPage;
pub use table::PageTable;
