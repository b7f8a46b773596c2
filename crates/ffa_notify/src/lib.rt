// SPDX-License-Identifier: MIT OR Apache-2.0
//! Keeps notifications: bits that an endpoint sets for another, which gets them later (DEN0077A, 10).
#![tactic(auto)]

mod bitmaps;
mod calls;
mod checks;
mod class;
mod copy;
mod first;
mod notices;
mod questions;
mod reasons;
mod words;

pub use bitmaps::Bitmaps;
