// SPDX-License-Identifier: MIT OR Apache-2.0
//! Does each command of `ffaplay`: it opens files, boots a machine, plays, compares and generates.
#![tactic(auto)]

mod booting;
mod comparing;
mod counter;
mod counting;
mod files;
mod flags;
mod generating;
mod guards;
mod input;
mod listeners;
mod lowering;
mod machines;
mod output;
mod playing;
mod program;
mod report;
mod running;
mod task;
mod testing;
mod wording;

pub use files::Files;
pub use play_report::show;
pub use program::Program;
pub use running::run;
