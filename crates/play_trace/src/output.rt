// SPDX-License-Identifier: MIT OR Apache-2.0
//! Writes text, and names the reasons why a play stops.
ghost use Rattle.play_trace.specs.Output.{Writes};

use std::io::Write;
use thiserror::Error;

/// The reason why a play stopped.
#[derive(Clone, Copy, Debug, PartialEq, Eq, Error)]
pub enum PlayError {
    /// The reader failed, or its input is longer than a play can count.
    #[error("cannot read")]
    Read,
    /// The writer failed, or took no byte.
    #[error("cannot write")]
    Write,
    /// There is no memory for a line, or for the text that it prints.
    #[error("no memory")]
    NoMemory,
    /// The line of this number is no line of a trace. The first line has the number 1.
    #[error("line {0}: bad line")]
    BadLine(u64),
}

/// Writes all of a text, by the number of writes that it needs. It never repeats a write after an error. If the writer
/// fails or takes no byte, it fails with `Write`. The writer has then taken a beginning of the text, but not all of it.
// Inlined, so that a text of a constant size is copied without a call.
#[inline(always)]
pub fn write_text<W: Write>(writer: &mut W, text: &[u8]) -> Result<(), PlayError>
    ensures { Writes (W.contents writer.old) (W.contents writer.new) text.now result }
{
    if text.is_empty() {
        return Ok(());
    }
    match writer.write(text) {
        Ok(0) | Err(_) => Err(PlayError::Write),
        Ok(count) if count == text.len() => Ok(()),
        Ok(count) => write_rest(writer, &text[count..]),
    }
}

// Writes the bytes that the first write left.
#[inline(never)]
fn write_rest<W: Write>(writer: &mut W, text: &[u8]) -> Result<(), PlayError>
    ensures { Writes (W.contents writer.old) (W.contents writer.new) text.now result }
{
    let mut rest = text;
    while !rest.is_empty() {
        match writer.write(rest) {
            Ok(0) | Err(_) => return Err(PlayError::Write),
            Ok(count) => rest = &rest[count..],
        }
    }
    Ok(())
}
