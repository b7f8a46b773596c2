// SPDX-License-Identifier: MIT OR Apache-2.0
//! Keeps results of walks for later accesses, as a translation lookaside buffer does (DDI 0487, D8). `Translations` is
//! the trait; `NoTlb` keeps nothing, and `Tlb` keeps a few results. An endpoint's identifier serves instead of the
//! standard's VMID.
#![tactic(auto)]

pub mod replacement;
pub mod tlb;
pub mod translations;

pub use replacement::{InTurn, Replacement};
pub use tlb::Tlb;
pub use translations::{Entry, NoTlb, Translations};
