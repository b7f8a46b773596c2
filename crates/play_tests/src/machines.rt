// SPDX-License-Identifier: MIT OR Apache-2.0
//! Machines in fresh RAM, and players on them. No contract describes these machines, so the proof of a test does not
//! read such a contract.
use ffa_model::Manifest;
use ffa_physmem::FlatRam;
use ffa_reasons::Explained;
use ffa_spmc::Machine;
use play_player::Player;
use std::alloc::Global;
use std::test::Fail;

// A player on a machine in flat RAM, without a cache.
pub(crate) type FlatPlayer = Player<Explained<FlatRam>>;

// Returns a manifest's machine without a cache, in flat RAM.
pub(crate) fn booted(alloc: Global, manifest: &Manifest) -> Result<Machine<FlatRam>, Fail> {
    let ram = FlatRam::new(alloc, manifest.ram_base, 512 * manifest.ram_blocks)?;
    Ok(Machine::boot(manifest, ram))
}
