// SPDX-License-Identifier: MIT OR Apache-2.0
//! Traces that are played: what a command names is read and opened, and then the trace is played for its purpose.
ghost use Rattle.std.specs.Prelude.{◌≡◌, false, Some, IfErr, IfOk};
ghost use Rattle.ffa_manifest.specs.Document.{parts_of};
ghost use Rattle.play_report.specs.Manifests.{bytes_of};
ghost use Rattle.play_commands.specs.Performed.{Does, FailsToName, HasParts, is_session, ran};

use crate::files::Files;
use crate::machines::{Play, boot_and_play};
use crate::program::Program;
use crate::task::{Task, Trace};
use ffa_model::{Ffa, Manifest};
use play_arguments::{PlayOptions, Request, Source, built_in};
use play_report::{Failure, Notes, read_manifest};
use std::alloc::{Allocator, Global};
use std::io::{Read, Write};

impl<A: Allocator + Copy> Program<A> {
    /// Plays a trace on the machine of its source, for its purpose.
    pub(crate) fn play<'a, R: Read + Drop, W: Write, E: Write>(
        &self,
        options: PlayOptions<'a>,
        files: Files<'_, R>,
        out: &mut W,
        err: &mut E,
        notes: &mut Notes<A>,
    ) -> Result<(), Failure<'a>>
        ensures does { Does (Request.Play options.entry) (ran R.remaining files.entry W.contents out.old out.new) result }
        ensures quiet { is_session (Request.Play options.entry) ≡ false → err.new ≡ err.old }
    {
        let Files {
            manifest,
            trace,
            expected,
            ..
        } = files;
        let ffa = options.machine.ffa;
        let manifest = machine_of(self.manifests, options.source, manifest, ffa, notes)?;
        let trace = open(options.trace, trace)?;
        let task = Task::for_purpose(options.purpose, options.verbose, expected)?;
        let play = Play {
            alloc: self.alloc,
            machine: options.machine,
            task,
            trace,
        };
        boot_and_play(play, &manifest, out, err, &mut notes.guard)
    }
}

// The manifest of the machine of a source, which serves this version of FF-A. These are the bytes of the source's file, if it
// could be read.
pub(crate) fn machine_of<'a, A: Allocator>(
    alloc: Global,
    source: Source<'a>,
    bytes: Option<&[u8]>,
    ffa: Ffa,
    notes: &mut Notes<A>,
) -> Result<Manifest, Failure<'a>>
    ensures described { IfOk result (λ m. HasParts ffa source.entry (bytes_of bytes.entry) (parts_of m)) }
    ensures failed { IfErr result (FailsToName ffa source.entry (bytes_of bytes.entry)) }
{
    match source {
        Source::BuiltIn => Ok(built_in().with_ffa(ffa)),
        Source::File(path) => read_manifest(alloc, path, bytes, ffa, notes),
    }
}

// The trace at this path, with what reads it, if it could be opened.
fn open<'a, R: Read + Drop>(path: &'a str, reader: Option<R>) -> Result<Trace<'a, R>, Failure<'a>>
    ensures opened { IfOk result (λ trace. reader ≡ Some trace.reader) }
    ensures unread { IfErr result (λ failure. failure ≡ Failure.Read path.entry) }
{
    match reader {
        Some(reader) => Ok(Trace { path, reader }),
        None => Err(Failure::Read(path)),
    }
}
