// SPDX-License-Identifier: MIT OR Apache-2.0
//! Tests the crates above the player, above all reads, writes and allocations that fail. It also tests machines after
//! a play, and comments of generated traces.
#![tactic(auto)]

#[cfg(test)]
mod checks;
#[cfg(test)]
mod generate;
#[cfg(test)]
mod lines;
#[cfg(test)]
mod machines;
#[cfg(test)]
mod perform;
