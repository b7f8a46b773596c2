// SPDX-License-Identifier: MIT OR Apache-2.0
//! Boots the machines of `ffa_spmc`, with the RAM and cache that the options ask for, and has something done on them.
ghost use Rattle.std.specs.Prelude.{◌≡◌, false, OnOk};
ghost use Rattle.play_generator.specs.Traces.{Wrote};
ghost use Rattle.play_commands.specs.Counted.{CountsTrace, tally_of};
ghost use Rattle.play_commands.specs.Plays.{Plays, streams_of, talks};
ghost use Rattle.play_commands.specs.Purposes.{known};
ghost use Rattle.play_commands.specs.Starts.{start_of};

use crate::booting::{count_in, play_in};
use crate::task::{Task, Trace};
use ffa_model::Manifest;
use ffa_physmem::{FlatRam, FrameRam};
use ffa_reasons::Explained;
use ffa_spmc::{Fill, Machine, Storage};
use ffa_tlb::NoTlb;
use play_arguments::MachineOptions;
use play_generator::{Counts, GenerateError, generate};
use play_report::Failure;
use play_trace::PlayError;
use std::alloc::Allocator;
use std::io::{Read, Write};

/// A play of a trace.
#[derive(Drop)]
pub struct Play<'a, A, R> {
    /// The memory of the machine, and of what plays on it.
    pub alloc: A,
    /// How the machine is built.
    pub machine: MachineOptions,
    pub task: Task<'a, R>,
    pub trace: Trace<'a, R>,
}

/// Plays a trace on the machine of a manifest. The options of the play choose its RAM, its cache, and how many processors
/// run it.
// `out` and `told` are not fields of `Play`. A field would be borrowed as long as the play, and each clause would
// have to say that it is the same reference.
pub(crate) fn boot_and_play<'a, A: Allocator + Copy, R: Read + Drop, W: Write, E: Write>(
    play: Play<'a, A, R>,
    manifest: &Manifest,
    out: &mut W,
    err: &mut E,
    told: &mut Vec<u8, A>,
) -> Result<(), Failure<'a>>
    ensures played { let streams = streams_of R.remaining play.entry.trace.reader W.contents out.old out.new in
        Plays (known R.remaining play.entry.task) play.entry.trace.path (start_of play.entry.machine.processors manifest.now) streams result }
    ensures quiet { talks play.entry.task ≡ false → err.new ≡ err.old }
{
    let (base, pages) = (manifest.ram_base, 512 * manifest.ram_blocks);
    if play.machine.frames {
        match FrameRam::new_in(play.alloc, base, pages) {
            Ok(ram) => play_in(play, manifest, ram, out, err, told),
            Err(_) => Err(Failure::NoMemory),
        }
    } else {
        match FlatRam::new_in(play.alloc, base, pages) {
            Ok(ram) => play_in(play, manifest, ram, out, err, told),
            Err(_) => Err(Failure::NoMemory),
        }
    }
}

/// Plays a trace on the machine of a manifest, which this number of processors runs, or one alone. Adds the outcomes of
/// its operations to the counts.
pub(crate) fn boot_and_count<A: Allocator + Copy, R: Read + Drop>(
    alloc: A,
    manifest: &Manifest,
    processors: Option<usize>,
    reader: R,
    counts: &mut Counts,
) -> Result<(), PlayError>
    ensures { let start = start_of processors manifest.now in
        CountsTrace start (R.remaining reader) (tally_of counts.old) (tally_of counts.new) result }
{
    let (base, pages) = (manifest.ram_base, 512 * manifest.ram_blocks);
    match FlatRam::new_in(alloc, base, pages) {
        Ok(ram) => count_in(alloc, manifest, ram, processors, reader, counts),
        Err(_) => Err(PlayError::NoMemory),
    }
}

/// Writes this number of lines of a trace for the machine of a manifest, and returns how often each outcome came. The same
/// seed gives the same lines.
pub(crate) fn boot_and_generate<A: Allocator + Copy, W: Write>(
    alloc: A,
    manifest: &Manifest,
    seed: u64,
    lines: u64,
    out: &mut W,
) -> Result<Counts, GenerateError>
    ensures { OnOk result (Wrote lines (W.contents out.old) (W.contents out.new)) }
{
    let (base, pages) = (manifest.ram_base, 512 * manifest.ram_blocks);
    let Ok(ram) = FlatRam::new_in(alloc, base, pages) else {
        return Err(GenerateError::NoMemory);
    };
    let Ok(storage) = Storage::allocate_for(alloc, manifest) else {
        return Err(GenerateError::NoMemory);
    };
    let machine = Machine::boot_in(storage, manifest, ram, NoTlb, Fill::AlreadyZero);
    generate(alloc, manifest, Explained(machine), seed, lines, out)
}
