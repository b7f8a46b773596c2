// SPDX-License-Identifier: MIT OR Apache-2.0
//! The files that a command names.
use std::io::ErrorKind;

/// The files that a command names, as far as the program could read or open them. The program leaves other files
/// closed.
#[derive(Drop)]
pub struct Files<'a, R> {
    /// The bytes of the manifest's file, or `None` if the program cannot read it.
    pub manifest: Option<&'a [u8]>,
    /// The reader of the trace's file, or `None` if the program cannot open it.
    pub trace: Option<R>,
    /// The reader of the file with the expected text, or `None` if the program cannot open it.
    pub expected: Option<R>,
    /// The reason why the program cannot read or open the first of these files that fails.
    pub reason: Option<ErrorKind>,
}
