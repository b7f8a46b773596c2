// SPDX-License-Identifier: MIT OR Apache-2.0
//! The messages of a command that fails, and help.
ghost use Rattle.std.specs.Prelude.{◌≡◌, ◌⊎◌, IfSome};
ghost use Rattle.std.specs.Io.KnownBytes.{Appends, Keeps};
ghost use Rattle.play_report.specs.Failures.{status_of};

use crate::failure::Failure;
use crate::notes::More;
use std::fmt::Display;
use std::io::Write;

/// Writes the help or the version that the user requests, and returns the status with which the program ends. The
/// status is 0, or 3 if `out` cannot be written. It writes a message to `err` only in the second case.
pub fn show<T: Display, W: Write, E: Write>(help: &T, out: &mut W, err: &mut E) -> u8
    ensures written { result ≡ 0 → IfSome (T.output help.now) (Appends (W.contents out.old) (W.contents out.new)) }
    ensures quiet { result ≡ 0 → Keeps (E.contents err.old) (E.contents err.new) }
    ensures status { (result ≡ 0) ⊎ (result ≡ 3) }
{
    let written = write!(out, "{help}");
    if written.is_ok() && out.flush().is_ok() {
        0
    } else {
        tell(err, &Failure::Write, &[])
    }
}

/// Writes the reason why a command failed to `err`, and returns the status with which the program ends.
///
/// First it writes `told`, which has the lines about guards. It does not write these if the output cannot be written,
/// or if there is no memory. It writes no reason for a difference, which the output has, or for a failed guard.
pub fn tell<E: Write>(err: &mut E, failure: &Failure<'_>, told: &[u8]) -> u8
    ensures { result ≡ status_of failure.now }
{
    if !matches!(failure, Failure::Write | Failure::NoMemory) {
        let _ = err.write_all(told);
    }
    if !matches!(failure, Failure::Differs | Failure::Unmet(_)) {
        let _ = writeln!(err, "ffaplay: {failure}");
    }
    failure.status()
}

/// Writes more information to `err`, with the line that it is about. `manifest` has the bytes of the manifest.
pub fn tell_more<E: Write>(err: &mut E, more: &Option<More>, manifest: Option<&[u8]>) {
    if let Some(more) = more {
        let _ = writeln!(err, "ffaplay: {more}");
        if let Some(excerpt) = more.excerpt(manifest) {
            let _ = writeln!(err, "{excerpt}");
        }
    }
}
