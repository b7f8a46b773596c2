// SPDX-License-Identifier: MIT OR Apache-2.0
//! Writes a trace turn by turn.
ghost use Rattle.std.specs.Prelude.{◌≡◌, ◌≤◌, [], ◌∷◌, length, take, IfOk, OnOk};
ghost use Rattle.std.specs.Io.KnownBytes.{Appends};
ghost use Rattle.play_trace.specs.TraceLines.{skip};
ghost use Rattle.play_generator.specs.Traces.{Wrote};
ghost use Rattle.play_generator.specs.Turned.{GrowsByLines, turn_lines};

use crate::entries::{TraceEntry, put_entries};
use std::alloc::Allocator;
use std::io::Write;
use thiserror::Error;

/// The reason why a trace was not written, or not written whole.
#[derive(Clone, Copy, Debug, PartialEq, Eq, Error)]
pub enum GenerateError {
    #[error("no memory")]
    NoMemory,
    /// The writer failed, or took no byte.
    #[error("cannot write")]
    Write,
}

/// A source of the lines of a trace, one turn at a time.
pub trait Turns {
    /// Plays a turn, and returns its lines. The caller uses at most the first `most` of these lines.
    fn play_turn(&mut self, most: u64) -> Result<&[TraceEntry], GenerateError>;
}

/// Plays turns, and writes this number of lines of a trace. Fails if there is no memory, or if the writer fails or
/// takes no byte.
pub fn write_turns<P: Turns, A: Allocator, W: Write>(
    alloc: A,
    turns: &mut P,
    lines: u64,
    out: &mut W,
) -> Result<(), GenerateError>
    ensures { OnOk result (Wrote lines (W.contents out.old) (W.contents out.new)) }
{
    let mut text = Vec::new(alloc);
    let mut left = lines;
    while left > 0 {
        left -= write_turn(turns, &mut text, left, out)?;
    }
    Ok(())
}

// Plays a turn, writes its lines, which are at most `most`, and returns the number of the lines.
fn write_turn<P: Turns, A: Allocator, W: Write>(
    turns: &mut P,
    text: &mut Vec<u8, A>,
    most: u64,
    out: &mut W,
) -> Result<u64, GenerateError>
    requires { 1 ≤ most }
    ensures lines { IfOk result (λ count. Wrote count (W.contents out.old) (W.contents out.new)) }
    ensures some { IfOk result (λ count. 1 ≤ count) }
    ensures few { IfOk result (λ count. count ≤ most) }
{
    let entries = turns.play_turn(most)?;
    let count = put_turn(text, entries, most)?;
    write_text(out, text)?;
    Ok(count)
}

// Makes the text of a turn from at most the first `most` entries, and returns its number of lines. A turn without
// entries has one line that says so.
fn put_turn<A: Allocator>(
    text: &mut Vec<u8, A>,
    entries: &[TraceEntry],
    most: u64,
) -> Result<u64, GenerateError>
    requires { 1 ≤ most }
    ensures lines { OnOk result (GrowsByLines (turn_lines (take most entries.now)) [] text.new.items) }
    ensures count { IfOk result (λ count. count ≡ length (turn_lines (take most entries.now))) }
    ensures some { IfOk result (λ count. 1 ≤ count) }
    ensures few { IfOk result (λ count. count ≤ most) }
{
    text.clear();
    match put_entries(text, entries, most) {
        Ok(0) => put_nothing(text),
        Ok(count) => Ok(count),
        Err(_) => Err(GenerateError::NoMemory),
    }
}

// Appends a line that does nothing to a text, and returns 1.
fn put_nothing<A: Allocator>(text: &mut Vec<u8, A>) -> Result<u64, GenerateError>
    ensures line { OnOk result (GrowsByLines (skip ∷ []) text.old.items text.new.items) }
    ensures one { IfOk result (λ count. count ≡ 1) }
{
    match text.extend_from_slice(b"# nothing\n") {
        Ok(()) => Ok(1),
        Err(_) => Err(GenerateError::NoMemory),
    }
}

// Writes all of a text, by the number of writes that it needs.
fn write_text<W: Write>(out: &mut W, text: &[u8]) -> Result<(), GenerateError>
    ensures { OnOk result (Appends (W.contents out.old) (W.contents out.new) text.now) }
{
    let mut rest = text;
    while !rest.is_empty() {
        match out.write(rest) {
            Ok(0) | Err(_) => return Err(GenerateError::Write),
            Ok(count) => rest = &rest[count..],
        }
    }
    Ok(())
}
