// SPDX-License-Identifier: MIT OR Apache-2.0
//! Tests crates below the machine, for facts that no trace, command line or program over C shows.
#![tactic(auto)]

#[cfg(test)]
mod abi;
#[cfg(test)]
mod checks;
#[cfg(test)]
mod command;
#[cfg(test)]
mod manifest;
#[cfg(test)]
mod memdesc;
#[cfg(test)]
mod pages;
#[cfg(test)]
mod physmem;
#[cfg(test)]
mod rxtx;
#[cfg(test)]
mod schedule;
#[cfg(test)]
mod script;
#[cfg(test)]
mod setup;
#[cfg(test)]
mod stage2;
#[cfg(test)]
mod tlb;
#[cfg(test)]
mod walker;
