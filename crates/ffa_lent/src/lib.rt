// SPDX-License-Identifier: MIT OR Apache-2.0
//! Makes RAM of pages that the caller lends, one page or several consecutive pages at a time.
#![tactic(auto)]

mod copying;
pub mod frames;
mod history;
pub mod lent;
mod memory;
pub mod ram;
mod settling;
pub mod slot;
pub mod span;

pub use frames::Frames;
pub use lent::Lent;
pub use ram::LentRam;
pub use slot::Slot;
pub use span::{Span, Strip};
