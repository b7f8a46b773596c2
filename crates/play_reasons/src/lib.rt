// SPDX-License-Identifier: MIT OR Apache-2.0
//! Puts reasons into words: what a check finds, what is wrong with a descriptor, and why a line is bad. It also writes
//! line numbers and names of registers. It uses no machine.
#![tactic(auto)]

mod closer;
mod detail;
mod digits;
mod draft;
mod fault;
mod flaws;
pub mod mark;
mod mend;
mod numbers;
mod reason;
mod sentences;

pub use draft::Draft;
pub use fault::{LineFault, WordFault, line_fault};
pub use flaws::flaw_words;
pub use numbers::{check_number, checks};
pub use reason::{Reason, put_reason};
pub use sentences::words;
