// SPDX-License-Identifier: MIT OR Apache-2.0
//! The commands of the program.
ghost use Rattle.std.specs.Prelude.{◌≡◌, ◌≢◌, ◌≤◌, ◌⊎◌, true, false, Err, IfErr, IfOk, OnOk, Result, Some, is_some};
ghost use Rattle.std.specs.Io.KnownBytes.{Keeps};
ghost use Rattle.play_commands.specs.Counted.{tally_of};
ghost use Rattle.play_report.specs.declared.failure.Failure.{Failure};
ghost use Rattle.play_report.specs.declared.failure.Failure.TheVariants.{NoMemory};
ghost use Rattle.play_commands.specs.Performed.{CountsFor, Differs, Does, FailsFor, HasGuards, IsDone, IsRead, IsUnsaid, is_session, is_strict, SomeBadLine, SomeRefusal, SomeUnmetGuard, needs_manifest, needs_trace, ran};

use crate::files::Files;
use crate::guards::count_guards;
use play_arguments::{PlayOptions, Purpose, Request};
use play_generator::Counts;
use play_report::{Failure, Notes, accept, describe_for, lay_out, tell, tell_more};
use play_trace::PlayError;
use std::alloc::{AllocError, Allocator, Global};
use std::io::{self, ErrorKind, Read, Write};

/// What does the commands of the program, and with which memory.
#[derive(Drop)]
pub struct Program<A> {
    /// The memory for a manifest while it is read.
    pub manifests: Global,
    /// The memory for RAM, for what a machine stores, and for the play of a trace.
    pub alloc: A,
}

impl<A: Allocator + Copy> Program<A> {
    /// Does what was asked for, and answers the status with which the program ends.
    ///
    /// All output goes to `out`, which is flushed, and to `err` a line that says why a command isn't done, with a second
    /// line that says more where that is asked for, below which stands the line of a trace or of a text that is no TOML in which
    /// that is; where there is no memory to find that, it is told alone. The status is 0
    /// for a command that was done, 1 for a manifest that is refused, 2 for a line that is none of a trace, 3 where a file
    /// can't be read, `out` can't be written or memory is short, 4 where a trace prints another text than is expected, 5
    /// where a guard of the trace isn't met, and 64 where the words of a descriptor make no sense. Faults are found in this order: the manifest's file, the manifest, the words of a descriptor, the trace's
    /// file, the file of the expected text, RAM, the trace and the expected text, which are read together. A session tells `err`
    /// of bad lines too, and is done where its trace ends. Where guards are checked, `err` is told before its other lines which
    /// comments are nearly guards, and of a command that was done how many guards were met. An `out` that can't be flushed can't
    /// be written. This is told in place of a bad line, a difference and a guard, since what was printed is lost, and of no other
    /// fault, which was found before.
    pub fn perform<R: Read + Drop, W: Write, E: Write>(
        &self,
        request: &Request<'_>,
        files: Files<'_, R>,
        out: &mut W,
        err: &mut E,
    ) -> u8
        ensures done { result ≡ 0 → IsDone request.now (ran R.remaining files.entry W.contents out.old out.new) }
        ensures read { result ≡ 0 → needs_trace request.now ≡ true → is_some files.entry.trace ≡ true }
        ensures refused { result ≡ 1 → SomeRefusal request.now (ran R.remaining files.entry W.contents out.old out.new) }
        ensures named { result ≡ 1 → needs_manifest request.now ≡ true }
        ensures bad { result ≡ 2 → SomeBadLine request.now (ran R.remaining files.entry W.contents out.old out.new) }
        ensures differs { result ≡ 4 → Differs request.now (ran R.remaining files.entry W.contents out.old out.new) }
        ensures unmet { result ≡ 5 → SomeUnmetGuard request.now (ran R.remaining files.entry W.contents out.old out.new) }
        ensures unsaid { result ≡ 64
            → IsUnsaid request.now (ran R.remaining files.entry W.contents out.old out.new)
            × Keeps (W.contents out.old) (W.contents out.new) }
        ensures quiet { result ≡ 0 → is_session request.now ≡ false → is_strict request.now ≡ false
            → Keeps (E.contents err.old) (E.contents err.new) }
        ensures status { (result ≤ 5) ⊎ (result ≡ 64) }
    {
        let (reason, manifest) = (files.reason, files.manifest);
        let mut notes = Notes::new(self.alloc, request.is_verbose());
        match self.do_request(request, files, out, err, &mut notes) {
            Ok(()) => {
                tell_guards(request, &notes.guard, err);
                0
            }
            Err(failure) => {
                let status = tell(err, &failure, &notes.guard);
                tell_more(err, &notes.more_of(&failure, reason), manifest);
                status
            }
        }
    }

    pub(crate) fn count<R: Read + Drop>(
        &self,
        options: &PlayOptions<'_>,
        manifest: &[u8],
        trace: R,
        counts: &mut Counts,
    ) -> Result<(), AllocError>
        ensures { OnOk result ((came : Result (Unit {0}) Failure)
            × (came ≢ Err NoMemory)
            × CountsFor options.now (Some manifest.now) (R.remaining trace) (tally_of counts.old) (tally_of counts.new) came) }
    {
        match self.count_play(*options, manifest, trace, counts) {
            Err(Failure::NoMemory) => Err(AllocError),
            _ => Ok(()),
        }
    }

    pub(crate) fn guards<R: Read + Drop>(&self, trace: R) -> io::Result<u64>
        ensures { IfOk result (HasGuards (R.remaining trace)) }
    {
        match count_guards(self.alloc, trace) {
            Ok(guards) => Ok(guards),
            Err(PlayError::NoMemory) => Err(ErrorKind::OutOfMemory.into()),
            Err(_) => Err(ErrorKind::InvalidData.into()),
        }
    }
}

// Tells what is said of guards, where a command checks them.
fn tell_guards<E: Write>(request: &Request<'_>, told: &[u8], err: &mut E)
    ensures { is_strict request.now ≡ false → Keeps (E.contents err.old) (E.contents err.new) }
{
    if is_strict(request) {
        let _ = err.write_all(told);
    }
}

// Whether a command checks the guards of its trace.
fn is_strict(request: &Request<'_>) -> bool
    ensures { result ≡ is_strict request.now }
{
    match *request {
        Request::Play(
            PlayOptions {
                purpose: Purpose::Print {
                    strict,
                    keep_going,
                    ..
                },
                ..
            },
        ) => strict || keep_going,
        _ => false,
    }
}

impl<A: Allocator + Copy> Program<A> {
    // Does what was asked for, and flushes what it wrote. Where that fails, a command isn't done, and no bad line,
    // difference or guard is told of, since the text is lost. Another failure was found before, and stays.
    // It has single clauses instead of one `Does`, because the check of that record after the flush ran out of memory.
    fn do_request<'a, R: Read + Drop, W: Write, E: Write>(
        &self,
        request: &Request<'a>,
        files: Files<'_, R>,
        out: &mut W,
        err: &mut E,
        notes: &mut Notes<A>,
    ) -> Result<(), Failure<'a>>
        ensures done { OnOk result (IsDone request.now (ran R.remaining files.entry W.contents out.old out.new)) }
        ensures opened { OnOk result (needs_trace request.now ≡ true → is_some files.entry.trace ≡ true) }
        ensures failed { IfErr result (FailsFor request.now (ran R.remaining files.entry W.contents out.old out.new)) }
        ensures read { IfErr result (IsRead (is_some files.entry.trace)) }
        ensures quiet { is_session request.now ≡ false → err.new ≡ err.old }
    {
        let done = self.do_command(request, files, out, err, notes);
        let flushed = out.flush();
        match done {
            Ok(()) | Err(Failure::BadLine(..) | Failure::Differs | Failure::Unmet(_))
                if flushed.is_err() => { Err(Failure::Write) }
            _ => done,
        }
    }

    fn do_command<'a, R: Read + Drop, W: Write, E: Write>(
        &self,
        request: &Request<'a>,
        files: Files<'_, R>,
        out: &mut W,
        err: &mut E,
        notes: &mut Notes<A>,
    ) -> Result<(), Failure<'a>>
        ensures does { Does request.now (ran R.remaining files.entry W.contents out.old out.new) result }
        ensures quiet { is_session request.now ≡ false → err.new ≡ err.old }
    {
        let (alloc, manifest) = (self.manifests, files.manifest);
        match *request {
            Request::Play(options) => self.play(options, files, out, err, notes),
            Request::Check {
                manifest: path,
                ffa,
                ..
            } => accept(alloc, path, manifest, ffa, out, notes),
            Request::Layout {
                manifest: path,
                regions,
                ffa,
                ..
            } => lay_out(alloc, path, manifest, ffa, regions, out, notes),
            Request::Descriptor {
                manifest: path,
                words,
            } => { describe_for(self.alloc, alloc, path, manifest, words, out, notes) }
            Request::Generate(options) => self.generate(options, manifest, out, notes),
            // Its traces are played as commands of their own, and a trace in words isn't played.
            Request::Test(_) | Request::Lower { .. } => Ok(()),
        }
    }
}
