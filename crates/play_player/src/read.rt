// SPDX-License-Identifier: MIT OR Apache-2.0
//! Reading the lines of a trace.
ghost use Rattle.std.specs.Prelude.{◌≡◌, ◌^◌, ◌<◌};
ghost use Rattle.play_player.specs.Reading.{ReadsLine, TakesFeed, TakesLine, TakesNext, TakesWhole};
ghost use Rattle.play_player.specs.Steps.{Refuses};

use play_trace::{Line, PlayError};
use std::alloc::Allocator;
use std::io::{BufRead, ErrorKind};

/// Reads the next line, which has this number, into `line`, and answers whether there is one. The LF that ends a line
/// is none of its bytes.
///
/// After an interrupt it asks the reader again, as `read_until` does. A rest that no LF ends is a bad line, and stands
/// in `line` then. Where the reader fails, no line was read whole.
pub fn next_line<A: Allocator, R: BufRead>(
    reader: &mut R,
    line: &mut Vec<u8, A>,
    number: u64,
) -> Result<bool, PlayError>
    ensures { let had = R.remaining reader.old in
        let has = R.remaining reader.new in
        ReadsLine had has line.new.items number result }
{
    line.clear();
    match reader.read_until(b'\n', line) {
        Ok(0) => Ok(false),
        Ok(_) => take_feed(line, number),
        Err(error) if error.kind() == ErrorKind::OutOfMemory => Err(PlayError::NoMemory),
        Err(_) => take_whole(line),
    }
}

// Takes off the LF that ends the bytes of a line.
fn take_feed<A: Allocator>(line: &mut Vec<u8, A>, number: u64) -> Result<bool, PlayError>
    ensures { TakesFeed line.old.items line.new.items number result }
{
    match line.pop() {
        Some(b'\n') => Ok(true),
        Some(last) => match line.push(last) {
            Ok(()) => Err(PlayError::BadLine(number)),
            Err(_) => Err(PlayError::NoMemory),
        },
        None => Err(PlayError::Read),
    }
}

// The same of what was read before the reader failed. A reader that fails behind an LF has given a line.
fn take_whole<A: Allocator>(line: &mut Vec<u8, A>) -> Result<bool, PlayError>
    ensures { TakesWhole line.old.items line.new.items result }
{
    match line.pop() {
        Some(b'\n') => Ok(true),
        Some(_) => Err(PlayError::Read),
        None => Err(PlayError::Read),
    }
}

/// The lines of a trace, one after another.
#[derive(Drop)]
pub struct Lines {
    /// The number of the line that is read next, counted from 1.
    pub number: u64,
    /// How many processors the trace may name; nothing where one alone runs the machine.
    pub processors: Option<usize>,
}

impl Lines {
    /// The lines of a trace of so many processors of which none was read.
    pub fn new(processors: Option<usize>) -> Lines
        ensures number { result.number ≡ 1 }
        ensures processors { result.processors ≡ processors }
    {
        Lines {
            number: 1,
            processors,
        }
    }

    /// Reads the next line, and answers its number and what it is, or nothing where the reader is at its end.
    ///
    /// The bytes of a line that is taken stand in `bytes` without the LF that ends them. Those of a bad line stand
    /// there as they stand in the trace, with the LF that ends them, where one does. A trace of more lines than can be
    /// counted can't be read.
    pub fn next<A: Allocator, R: BufRead>(
        &mut self,
        reader: &mut R,
        bytes: &mut Vec<u8, A>,
    ) -> Result<Option<(u64, Line)>, PlayError>
        ensures taken { let had = R.remaining reader.old in
            let has = R.remaining reader.new in
            TakesNext self.old.processors self.old.number self.new.number had has bytes.new.items result }
        ensures processors { self.new.processors ≡ self.old.processors }
        ensures fits { self.new.number < 2 ^ 64 }
    {
        let number = self.number;
        if number == u64::MAX {
            return Err(PlayError::Read);
        }
        let Some(line) = take_line(self.processors, reader, bytes, number)? else {
            return Ok(None);
        };
        self.number += 1;
        Ok(Some((number, line)))
    }
}

// Reads the line of this number, and answers what it is, or nothing where the reader is at its end.
fn take_line<A: Allocator, R: BufRead>(
    processors: Option<usize>,
    reader: &mut R,
    bytes: &mut Vec<u8, A>,
    number: u64,
) -> Result<Option<Line>, PlayError>
    ensures { let had = R.remaining reader.old in
        let has = R.remaining reader.new in
        TakesLine processors had has bytes.new.items number result }
{
    if !next_line(reader, bytes, number)? {
        return Ok(None);
    }
    match Line::read_in(processors, bytes) {
        Some(line) => Ok(Some(line)),
        None => refuse(bytes, number),
    }
}

// Answers that a line is bad, and puts its LF back.
fn refuse<A: Allocator>(bytes: &mut Vec<u8, A>, number: u64) -> Result<Option<Line>, PlayError>
    ensures { Refuses bytes.old.items bytes.new.items number result }
{
    match bytes.push(b'\n') {
        Ok(()) => Err(PlayError::BadLine(number)),
        Err(_) => Err(PlayError::NoMemory),
    }
}
