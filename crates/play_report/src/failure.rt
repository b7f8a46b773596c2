// SPDX-License-Identifier: MIT OR Apache-2.0
//! The reasons why a command fails.
ghost use Rattle.std.specs.Prelude.{◌≡◌};
ghost use Rattle.play_report.specs.Failures.{StopsFor, failure_of, status_of};

use crate::WordsFault;
use crate::call_fault::CallFault;
use crate::excerpt::Excerpt;
use ffa_manifest::ManifestError;
use play_reasons::{LineFault, line_fault};
use play_trace::{PlayError, Unfit};
use std::alloc::Allocator;
use std::fmt;
use thiserror::Error;

/// The fault of a line. It prints as one line.
#[derive(Clone, Copy, Debug, PartialEq, Eq)]
pub enum Fault {
    /// The words of a line that names a call are no call.
    Call(CallFault),
    /// The line is no line of a trace.
    Line(LineFault),
}

impl fmt::Display for Fault {
    fn fmt<W: fmt::Write>(&self, f: &mut fmt::Formatter<W>) -> fmt::Result {
        match self {
            Fault::Call(fault) => write!(f, "{fault}"),
            Fault::Line(fault) => write!(f, "{fault}"),
        }
    }
}

/// The fault of a bad line, and the excerpt that shows its place, if it has a place in the line.
#[derive(Clone, Copy, Debug, PartialEq, Eq)]
pub struct LineFlaw {
    pub fault: Fault,
    pub excerpt: Option<Excerpt>,
}

/// The reason why a command failed.
#[derive(Clone, Copy, Debug, PartialEq, Eq, Error)]
pub enum Failure<'a> {
    /// The manifest is rejected.
    #[error("manifest: {0}")]
    Manifest(ManifestError),
    /// The line of this number is no line of a trace. The first line has the number 1. The flaw says what is wrong with
    /// the line, if the command looked for it.
    #[error("line {0}: bad line")]
    BadLine(u64, Option<LineFlaw>),
    /// The file at this path cannot be read.
    #[error("cannot read {0}")]
    Read(&'a str),
    /// The output cannot be written.
    #[error("cannot write")]
    Write,
    /// There is no memory.
    #[error("no memory")]
    NoMemory,
    /// A trace prints another text than the expected text. The output says where.
    #[error("the output differs from the expected output")]
    Differs,
    /// The guard in the line of this number failed. The first line has the number 1.
    #[error("line {0}: guard failed")]
    Unmet(u64),
    /// The words are no words of a descriptor.
    #[error("descriptor: {0}")]
    Words(WordsFault),
    /// No bytes are a descriptor that says what the words say.
    #[error("descriptor: {0}")]
    Unfit(Unfit),
}

impl<'a> Failure<'a> {
    /// Returns the status with which the program ends. It is 1 for a rejected manifest, 2 for a bad line, and 3 for a
    /// file, the output or memory. It is 4 for a difference, 5 for a failed guard, and 64 for words or too many rows.
    pub fn status(&self) -> u8
        ensures { result ≡ status_of self.now }
    {
        match self {
            Failure::Manifest(_) => 1,
            Failure::BadLine(..) => 2,
            Failure::Read(_) | Failure::Write | Failure::NoMemory => 3,
            Failure::Differs => 4,
            Failure::Unmet(_) => 5,
            Failure::Words(_) | Failure::Unfit(_) => 64,
        }
    }

    /// Returns the failure of a play of the trace at this path, by the error of the play. `flaw` says what is wrong
    /// with the line at which the play stopped.
    pub fn of_play(path: &'a str, error: PlayError, flaw: Option<LineFlaw>) -> Failure<'a>
        ensures { result ≡ failure_of (Failure.Read path.entry) flaw error }
    {
        match error {
            PlayError::Read => Failure::Read(path),
            PlayError::Write => Failure::Write,
            PlayError::NoMemory => Failure::NoMemory,
            PlayError::BadLine(number) => Failure::BadLine(number, flaw),
        }
    }

    /// Returns the failure of a play of the trace at this path, like `of_play`, but finds the flaw itself. `line` has
    /// the bytes of the line at which the play stopped, and `processors` is the number of processors of the trace. For
    /// a line that names its call, the flaw is the fault of its words.
    pub fn of_line<A: Allocator + Copy>(
        path: &'a str,
        error: PlayError,
        processors: Option<usize>,
        line: &Vec<u8, A>,
    ) -> Failure<'a>
        ensures { StopsFor (Failure.Read path.entry) error result }
    {
        let flaw = match (error, line_fault(processors, line)) {
            (PlayError::BadLine(number), Some(fault)) => {
                Some(flaw_of(*line.allocator(), number, line, fault))
            }
            _ => None,
        };
        Failure::of_play(path, error, flaw)
    }
}

// Returns the flaw of the line of this number, as the trace has it. `fault` is its fault as a line of the plain format.
fn flaw_of<A: Allocator + Copy>(alloc: A, number: u64, line: &[u8], fault: LineFault) -> LineFlaw {
    let text = line.strip_suffix(b"\n").unwrap_or(line);
    let fault = match (fault, CallFault::of_line(alloc, text)) {
        (LineFault::Words { .. }, Some(fault)) => Fault::Call(fault),
        _ => Fault::Line(fault),
    };
    let at = match fault {
        Fault::Line(LineFault::NoEnd) => Some(text.len()),
        Fault::Line(LineFault::CarriageReturn) => Some(text.len().saturating_sub(1)),
        Fault::Line(LineFault::Words { column, .. }) => Some(column.saturating_sub(1)),
        Fault::Call(CallFault { fault, .. }) => Some(fault.column.saturating_sub(1)),
        Fault::Line(LineFault::Whole) => None,
    };
    let excerpt = match at {
        Some(at) => Some(Excerpt::of_line(number, text, at)),
        None => None,
    };
    LineFlaw { fault, excerpt }
}
