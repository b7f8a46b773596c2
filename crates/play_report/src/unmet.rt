// SPDX-License-Identifier: MIT OR Apache-2.0
//! The messages about guards: about comments that are nearly guards, and about the numbers of guards that passed and
//! failed.
ghost use Rattle.std.specs.Prelude.{◌≡◌, ◌++◌, IfErr, OnOk};
ghost use Rattle.play_report.specs.Guarded.{met_text, near_line, near_text, unmet_text};

use crate::failure::Failure;
use std::alloc::Allocator;
use std::io::Write;

/// Appends a line for each line of a trace that is nearly a guard. `near` has the numbers of these lines. Fails if
/// there is no memory.
pub fn tell_near<A: Allocator>(told: &mut Vec<u8, A>, near: &[u64]) -> Result<(), Failure<'static>>
    ensures written { OnOk result (told.new.items ≡ told.old.items ++ near_text near.now) }
    ensures failed { IfErr result (λ failure. failure ≡ Failure.NoMemory) }
{
    for number in near {
        put_near(told, *number)?;
    }
    Ok(())
}

fn put_near<A: Allocator>(told: &mut Vec<u8, A>, number: u64) -> Result<(), Failure<'static>>
    ensures written { OnOk result (told.new.items ≡ told.old.items ++ near_line number) }
    ensures failed { IfErr result (λ failure. failure ≡ Failure.NoMemory) }
{
    writeln!(
        told,
        "ffaplay: line {number}: not a guard: remove the space after #"
    )
    .map_err(|_| Failure::NoMemory)
}

/// Appends a line that says how many guards passed. Fails if there is no memory.
pub fn tell_met<A: Allocator>(told: &mut Vec<u8, A>, met: u64) -> Result<(), Failure<'static>>
    ensures written { OnOk result (told.new.items ≡ told.old.items ++ met_text met) }
    ensures failed { IfErr result (λ failure. failure ≡ Failure.NoMemory) }
{
    writeln!(told, "ffaplay: guards passed: {met}").map_err(|_| Failure::NoMemory)
}

/// Appends a line that says how many guards failed. Fails if there is no memory.
pub fn tell_unmet<A: Allocator>(told: &mut Vec<u8, A>, unmet: usize) -> Result<(), Failure<'static>>
    ensures written { OnOk result (told.new.items ≡ told.old.items ++ unmet_text unmet) }
    ensures failed { IfErr result (λ failure. failure ≡ Failure.NoMemory) }
{
    writeln!(told, "ffaplay: guards failed: {unmet}").map_err(|_| Failure::NoMemory)
}
