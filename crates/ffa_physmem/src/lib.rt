// SPDX-License-Identifier: MIT OR Apache-2.0
//! Defines RAM as a trait: a base address, pages of 4096 bytes, and a history of writes. `FlatRam` is one piece of
//! memory, `FrameRam` has a box for each page, and `Observed` is RAM to which others write.
#![tactic(auto)]

pub mod descriptor;
pub mod flat;
pub mod frames;
pub mod memory;
pub mod observed;

pub use descriptor::{Descriptor, Level};
pub use flat::{FlatRam, NoMemory};
pub use frames::FrameRam;
pub use memory::{PAGE_SIZE, PhysMem, put_front, put_word};
pub use observed::{Observed, Unshared};
