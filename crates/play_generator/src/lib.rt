// SPDX-License-Identifier: MIT OR Apache-2.0
//! Generates a trace at random, and counts what came of its operations.
#![tactic(auto)]

ghost use Rattle.std.specs.Prelude.{OnOk};
ghost use Rattle.play_generator.specs.Traces.{Wrote};

mod accesses;
mod attempts;
mod buffers;
mod changes;
mod counts;
mod descriptors;
mod dice;
mod entries;
mod generator;
mod hoard;
mod machine_stage;
mod messages;
mod notifications;
mod offers;
mod pages;
mod report;
mod retrieves;
mod scenes;
mod sends;
mod setup;
mod stage;
mod turn;
mod unreached;
mod writing;

pub use attempts::{Attempt, Change, Deed};
pub use counts::{AccessKind, Counts};
pub use entries::{TraceEntry, fit_store};
use ffa_model::Manifest;
use ffa_playable::Readable;
pub use generator::Generator;
use machine_stage::MachineStage;
pub use pages::PAGE;
pub use stage::Stage;
use std::alloc::Allocator;
use std::io::Write;
pub use turn::actor_of;
pub use unreached::{Everyone, why_unreached};
pub use writing::{GenerateError, Turns, write_turns};

/// Writes this number of lines of a trace for the machine of a manifest, which is in its first state. Returns how often
/// each outcome came. The same seed gives the same lines. Fails if there is no memory, or if the writer fails or takes
/// no byte.
// Not inlined, since its frame holds the machine.
#[inline(never)]
pub fn generate<M: Readable, A: Allocator + Copy, W: Write>(
    alloc: A,
    manifest: &Manifest,
    machine: M,
    seed: u64,
    lines: u64,
    out: &mut W,
) -> Result<Counts, GenerateError>
    ensures { OnOk result (Wrote lines (W.contents out.old) (W.contents out.new)) }
{
    let stage = MachineStage::new(alloc, manifest, machine);
    let mut generator = Generator::new(manifest, stage, seed);
    write_turns(alloc, &mut generator, lines, out)?;
    Ok(generator.into_stage().into_counts())
}
