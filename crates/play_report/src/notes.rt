// SPDX-License-Identifier: MIT OR Apache-2.0
//! The notes that a command makes for its messages if it fails.
ghost use Rattle.std.specs.Prelude.{◌≡◌, is_some, true};

use crate::excerpt::Excerpt;
use crate::failure::{Failure, LineFlaw};
use ffa_manifest::refusal::Fault;
use ffa_manifest::{Found, ManifestError, ManifestRefusal};
use std::alloc::Allocator;
use std::fmt::{self, Display};
use std::io::ErrorKind;

/// More information about the reason why a command failed. It prints as one line.
#[derive(Drop)]
pub enum More {
    /// The place at which the manifest is rejected.
    Place(ManifestRefusal),
    /// The fault of the line.
    Line(LineFlaw),
    /// The reason why the file cannot be read.
    File(ErrorKind),
}

impl Display for More {
    fn fmt<W: fmt::Write>(&self, f: &mut fmt::Formatter<W>) -> fmt::Result {
        match self {
            More::Place(refusal) if needs_newer_machine(refusal) => {
                write!(f, "{refusal} (--ffa 1.2)")
            }
            More::Place(refusal) => write!(f, "{refusal}"),
            More::Line(flaw) => write!(f, "{}", flaw.fault),
            More::File(reason) => write!(f, "{reason}"),
        }
    }
}

// Whether a manifest is rejected because of an endpoint of FF-A 1.2, which a machine with the flag `--ffa 1.2` may
// have.
fn needs_newer_machine(refusal: &ManifestRefusal) -> bool {
    matches!(
        refusal.place.found,
        Found::Value {
            fault: Fault::NewerVersion,
            ..
        }
    )
}

impl More {
    /// Returns the excerpt of the line that the information is about, or `None` if it is about no line. `manifest` has
    /// the bytes of the manifest. The excerpt of a trace's line is in the information already.
    pub fn excerpt(&self, manifest: Option<&[u8]>) -> Option<Excerpt> {
        let at = match self {
            More::Place(refusal) => refusal.byte,
            More::Line(flaw) => return flaw.excerpt,
            More::File(_) => None,
        };
        Some(Excerpt::of_text(manifest?, at?))
    }
}

/// The notes that a command makes.
#[derive(Drop)]
pub struct Notes<A: Allocator> {
    /// Whether the user requests more than the reason why a command failed.
    pub verbose: bool,
    /// More information about the manifest.
    pub manifest: Option<More>,
    /// The lines about guards.
    pub guard: Vec<u8, A>,
}

impl<A: Allocator> Notes<A> {
    /// Returns notes that have nothing yet.
    pub fn new(alloc: A, verbose: bool) -> Notes<A>
        ensures { result.verbose ≡ verbose }
    {
        Notes {
            verbose,
            manifest: None,
            guard: Vec::new(alloc),
        }
    }

    /// Returns more information about the reason why a command failed, if the user requests it. It says where the
    /// manifest or a line is rejected, or why a file cannot be read.
    pub fn more_of(self, failure: &Failure<'_>, reason: Option<ErrorKind>) -> Option<More>
        ensures { (cause : ManifestError) → self.verbose ≡ true → failure.now ≡ Failure.Manifest cause
            → is_some self.manifest ≡ true → is_some result ≡ true }
    {
        if !self.verbose {
            return None;
        }
        match (failure, reason) {
            (Failure::Manifest(_), _) => self.manifest,
            (Failure::BadLine(_, Some(flaw)), _) => Some(More::Line(*flaw)),
            (Failure::Read(_), Some(reason)) => Some(More::File(reason)),
            _ => None,
        }
    }
}
