// SPDX-License-Identifier: MIT OR Apache-2.0
//! Machines in fresh RAM, and players on them. No contract describes these machines, so the proof of a test does not
//! read such a contract.
use ffa_model::Manifest;
use ffa_physmem::{FlatRam, FrameRam};
use ffa_playable::Playable;
use ffa_reasons::Explained;
use ffa_spmc::Machine;
use ffa_tlb::{InTurn, Tlb, Translations};
use play_player::Player;
use play_trace::PlayError;
use std::alloc::Global;
use std::test::Fail;

// A player on a machine in flat RAM, without a cache.
pub(crate) type FlatPlayer = Player<Explained<FlatRam>>;

// Returns a manifest's machine without a cache, in flat RAM.
pub(crate) fn booted(alloc: Global, manifest: &Manifest) -> Result<Machine<FlatRam>, Fail> {
    let ram = FlatRam::new(alloc, manifest.ram_base, 512 * manifest.ram_blocks)?;
    Ok(Machine::boot(manifest, ram))
}

// Returns a manifest's machine with this cache, in flat RAM. `booted_in_frames` uses RAM of frames.
pub(crate) fn booted_with<T: Translations + Drop>(
    alloc: Global,
    manifest: &Manifest,
    cache: T,
) -> Result<Machine<FlatRam, T>, Fail> {
    let ram = FlatRam::new(alloc, manifest.ram_base, 512 * manifest.ram_blocks)?;
    Ok(Machine::boot_with(manifest, ram, cache))
}

pub(crate) fn booted_in_frames<T: Translations + Drop>(
    alloc: Global,
    manifest: &Manifest,
    cache: T,
) -> Result<Machine<FrameRam, T>, Fail> {
    let ram = FrameRam::new(alloc, manifest.ram_base, 512 * manifest.ram_blocks)?;
    Ok(Machine::boot_with(manifest, ram, cache))
}

// Returns the cache of the option `--tlb`.
pub(crate) fn four_in_turn() -> Tlb<InTurn, 4> {
    Tlb::new(InTurn::default())
}

// Plays a trace. Adds the text that it prints to `out`.
pub(crate) fn play<P: Playable>(
    alloc: Global,
    player: &mut Player<P>,
    trace: &[u8],
    printed: &mut Vec<u8>,
) -> Result<(), PlayError> {
    let mut left = trace;
    player.play(alloc, &mut left, printed)
}
