// SPDX-License-Identifier: MIT OR Apache-2.0
//! Traces that are counted.
ghost use Rattle.std.specs.Prelude.{Some};
ghost use Rattle.play_commands.specs.Performed.{CountsFor};
ghost use Rattle.play_commands.specs.Counted.{tally_of};

use crate::machines::boot_and_count;
use crate::playing::machine_of;
use crate::program::Program;
use play_arguments::PlayOptions;
use play_generator::{Counts, Everyone};
use play_report::{Failure, Notes};
use std::alloc::Allocator;
use std::io::Read;

impl<A: Allocator + Copy> Program<A> {
    /// Plays a trace on the machine of its source, and counts what comes of its operations, behind what was counted before.
    pub(crate) fn count_play<'a, R: Read + Drop>(
        &self,
        options: PlayOptions<'a>,
        manifest: &[u8],
        trace: R,
        counts: &mut Counts,
    ) -> Result<(), Failure<'a>>
        ensures { CountsFor options.entry (Some manifest.now) (R.remaining trace) (tally_of counts.old) (tally_of counts.new) result }
    {
        let mut notes = Notes::new(self.alloc, false);
        let ffa = options.machine.ffa;
        let manifest = machine_of(
            self.manifests,
            options.source,
            Some(manifest),
            ffa,
            &mut notes,
        )?;
        let processors = options.machine.processors;
        let mut everyone = Everyone::of(&manifest);
        everyone.runs_alone = processors.is_none();
        counts.everyone = counts.everyone.and(everyone);
        match boot_and_count(self.alloc, &manifest, processors, trace, counts) {
            Ok(()) => Ok(()),
            Err(error) => Err(Failure::of_play(options.trace, error, None)),
        }
    }
}
