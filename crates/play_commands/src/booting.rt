// SPDX-License-Identifier: MIT OR Apache-2.0
//! Boots machines in RAM that is all zeros, and plays traces on them.
ghost use Rattle.std.specs.Prelude.{◌≡◌, ◌≤◌, ◌*◌, false, Some};
ghost use Rattle.ffa_model.specs.declared.limits.TheConstants.{MOST_PROCESSORS};
ghost use Rattle.ffa_model.specs.Ram.{zero_ram};
ghost use Rattle.ffa_spmc.specs.Storages.{IsRoomFor};
ghost use Rattle.play_commands.specs.Counted.{CountsTrace, tally_of};
ghost use Rattle.play_commands.specs.Plays.{Plays, streams_of, talks};
ghost use Rattle.play_commands.specs.Purposes.{known};
ghost use Rattle.play_commands.specs.Starts.{processors_for, start_of};

use crate::counter::count_trace;
use crate::machines::Play;
use crate::task::do_task;
use ffa_model::{MOST_PROCESSORS, Manifest};
use ffa_physmem::Unshared;
use ffa_reasons::{Explained, ExplainedCluster};
use ffa_spmc::{Cluster, Fill, Machine, Storage, Store};
use ffa_tlb::{InTurn, NoTlb, Tlb, Translations};
use play_generator::Counts;
use play_player::Player;
use play_report::Failure;
use play_trace::PlayError;
use std::alloc::Allocator;
use std::io::{Read, Write};

/// How many translations `--tlb` holds.
const ENTRIES: usize = 4;

/// Plays on a machine that boots in this RAM, which is all zeros, with a cache of translations or none.
pub(crate) fn play_in<
    'a,
    M: Unshared + Drop,
    A: Allocator + Copy,
    R: Read + Drop,
    W: Write,
    E: Write,
>(
    play: Play<'a, A, R>,
    manifest: &Manifest,
    ram: M,
    out: &mut W,
    err: &mut E,
    told: &mut Vec<u8, A>,
) -> Result<(), Failure<'a>>
    requires { M.ram ram ≡ zero_ram manifest.now.ram_base.0 (512 * manifest.now.ram_blocks) }
    ensures played { let streams = streams_of R.remaining play.entry.trace.reader W.contents out.old out.new in
        Plays (known R.remaining play.entry.task) play.entry.trace.path (start_of play.entry.machine.processors manifest.now) streams result }
    ensures quiet { talks play.entry.task ≡ false → err.new ≡ err.old }
{
    if play.machine.tlb {
        let cache = Tlb::<InTurn, ENTRIES>::new(InTurn::default());
        play_with(play, manifest, ram, cache, out, err, told)
    } else {
        play_with(play, manifest, ram, NoTlb, out, err, told)
    }
}

// Plays on a machine that boots in this RAM, which is all zeros, with this cache, and that one processor runs or several do.
fn play_with<
    'a,
    M: Unshared + Drop,
    T: Translations + Drop,
    A: Allocator + Copy,
    R: Read + Drop,
    W: Write,
    E: Write,
>(
    play: Play<'a, A, R>,
    manifest: &Manifest,
    ram: M,
    cache: T,
    out: &mut W,
    err: &mut E,
    told: &mut Vec<u8, A>,
) -> Result<(), Failure<'a>>
    requires { M.ram ram ≡ zero_ram manifest.now.ram_base.0 (512 * manifest.now.ram_blocks) }
    ensures played { let streams = streams_of R.remaining play.entry.trace.reader W.contents out.old out.new in
        Plays (known R.remaining play.entry.task) play.entry.trace.path (start_of play.entry.machine.processors manifest.now) streams result }
    ensures quiet { talks play.entry.task ≡ false → err.new ≡ err.old }
{
    let Ok(storage) = Storage::allocate_for(play.alloc, manifest) else {
        return Err(Failure::NoMemory);
    };
    match play.machine.processors {
        None => {
            let machine = Machine::boot_in(storage, manifest, ram, cache, Fill::AlreadyZero);
            do_task(&mut Player::new(Explained(machine)), play, out, err, told)
        }
        Some(count) => {
            let machine = boot_for(count, storage, manifest, ram, cache);
            do_task(&mut Player::new(machine), play, out, err, told)
        }
    }
}

/// The machine that boots so, of which a trace may name so many processors.
pub(crate) fn boot_for<M: Unshared + Drop, T: Translations + Drop, S: Store>(
    count: usize,
    storage: Storage<S>,
    manifest: &Manifest,
    ram: M,
    cache: T,
) -> ExplainedCluster<M, T, S>
    requires storage { IsRoomFor manifest.now storage }
    requires ram { M.ram ram ≡ zero_ram manifest.now.ram_base.0 (512 * manifest.now.ram_blocks) }
    ensures { result ≡ start_of (Some count) manifest.now }
{
    let machine = Machine::boot_in(storage, manifest, ram, cache, Fill::AlreadyZero);
    ExplainedCluster::of(Cluster::of(machine), processors_for(count))
}

// As many processors, where there is room for so many.
fn processors_for(count: usize) -> usize
    ensures number { result ≡ processors_for count }
    ensures few { result ≤ MOST_PROCESSORS }
{
    if count <= MOST_PROCESSORS {
        count
    } else {
        MOST_PROCESSORS
    }
}

/// Plays on a machine that boots in this RAM, which is all zeros, and that one processor runs or several do, and counts what
/// comes of each operation.
pub(crate) fn count_in<M: Unshared + Drop, A: Allocator + Copy, R: Read + Drop>(
    alloc: A,
    manifest: &Manifest,
    ram: M,
    processors: Option<usize>,
    reader: R,
    counts: &mut Counts,
) -> Result<(), PlayError>
    requires { M.ram ram ≡ zero_ram manifest.now.ram_base.0 (512 * manifest.now.ram_blocks) }
    ensures { let start = start_of processors manifest.now in
        CountsTrace start (R.remaining reader) (tally_of counts.old) (tally_of counts.new) result }
{
    let Ok(storage) = Storage::allocate_for(alloc, manifest) else {
        return Err(PlayError::NoMemory);
    };
    match processors {
        None => {
            let machine = Machine::boot_in(storage, manifest, ram, NoTlb, Fill::AlreadyZero);
            count_trace(&mut Player::new(Explained(machine)), alloc, reader, counts)
        }
        Some(count) => {
            let machine = boot_for(count, storage, manifest, ram, NoTlb);
            count_trace(&mut Player::new(machine), alloc, reader, counts)
        }
    }
}
