// SPDX-License-Identifier: MIT OR Apache-2.0
//! Tests the machine and its player: worked rows, certificates, and streams that fail.
#![tactic(auto)]

#[cfg(test)]
mod certificate;
#[cfg(test)]
mod checks;
#[cfg(test)]
mod machines;
#[cfg(test)]
mod player;
#[cfg(test)]
mod rows;
#[cfg(test)]
mod streams;
