// SPDX-License-Identifier: MIT OR Apache-2.0
//! Traces that are made up.
ghost use Rattle.std.specs.Prelude.{IfErr, OnOk};
ghost use Rattle.play_generator.specs.Traces.{Wrote};
ghost use Rattle.play_report.specs.Failures.{IsShort};
ghost use Rattle.play_report.specs.Manifests.{FailsUnplayed, bytes_of};
ghost use Rattle.play_commands.specs.Performed.{IsMade};

use crate::machines::boot_and_generate;
use crate::program::Program;
use ffa_model::Manifest;
use play_arguments::GenerateOptions;
use play_generator::{Counts, GenerateError};
use play_report::{Failure, Notes, print_counts, read_manifest};
use std::alloc::Allocator;
use std::io::{self, Write};

impl<A: Allocator + Copy> Program<A> {
    /// Prints a trace of so many lines for the machine of a manifest, or, where that is asked for, how often each of its
    /// calls and accesses ended in which way.
    pub(crate) fn generate<'a, W: Write>(
        &self,
        options: GenerateOptions<'a>,
        manifest: Option<&[u8]>,
        out: &mut W,
        notes: &mut Notes<A>,
    ) -> Result<(), Failure<'a>>
        ensures done { let given = bytes_of manifest.entry in
            OnOk result (IsMade options.entry given (W.contents out.old) (W.contents out.new)) }
        ensures failed { IfErr result (FailsUnplayed options.entry.ffa (bytes_of manifest.entry) (W.contents out.old) (W.contents out.new)) }
    {
        let (path, ffa) = (options.manifest, options.ffa);
        let manifest = read_manifest(self.manifests, path, manifest, ffa, notes)?;
        if options.count {
            self.print_outcomes(&manifest, options, out)
        } else {
            match self.write_trace(&manifest, options, out) {
                Ok(_) => Ok(()),
                Err(failure) => Err(failure),
            }
        }
    }

    // Prints how often each call and access of a trace ended in which way.
    fn print_outcomes<W: Write>(
        &self,
        manifest: &Manifest,
        options: GenerateOptions<'_>,
        out: &mut W,
    ) -> Result<(), Failure<'static>>
        ensures { IfErr result IsShort }
    {
        let counts = self.write_trace(manifest, options, &mut io::sink())?;
        print_counts(self.alloc, &counts, out)
    }

    // Writes a trace for the machine of a manifest, and answers what came of it.
    fn write_trace<W: Write>(
        &self,
        manifest: &Manifest,
        options: GenerateOptions<'_>,
        out: &mut W,
    ) -> Result<Counts, Failure<'static>>
        ensures written { OnOk result (Wrote options.entry.lines (W.contents out.old) (W.contents out.new)) }
        ensures failed { IfErr result IsShort }
    {
        let (seed, lines) = (options.seed, options.lines);
        match boot_and_generate(self.alloc, manifest, seed, lines, out) {
            Ok(counts) => Ok(counts),
            Err(GenerateError::NoMemory) => Err(Failure::NoMemory),
            Err(GenerateError::Write) => Err(Failure::Write),
        }
    }
}
