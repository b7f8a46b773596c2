// SPDX-License-Identifier: MIT OR Apache-2.0
//! The guards of a trace, counted.
ghost use Rattle.std.specs.Prelude.{◌≡◌, ◌≤◌, IfOk, [], ◌∷◌};
ghost use Rattle.play_player.specs.Guards.{guards_among};
ghost use Rattle.play_commands.specs.Performed.{HasGuards};

use play_player::{guard_text, next_line};
use play_trace::PlayError;
use std::alloc::Allocator;
use std::io::{BufRead, BufReader, Read};

/// Answers how many guards a trace has, which can be read to its end and ends at a line.
pub(crate) fn count_guards<A: Allocator + Copy, R: Read + Drop>(
    alloc: A,
    trace: R,
) -> Result<u64, PlayError>
    ensures { IfOk result (HasGuards (R.remaining trace)) }
{
    match BufReader::new(alloc, trace) {
        Ok(mut reader) => count_lines(alloc, &mut reader),
        Err(_) => Err(PlayError::NoMemory),
    }
}

// The same of the lines that a reader gives, of which there are no more than can be counted.
fn count_lines<A: Allocator, R: BufRead>(alloc: A, reader: &mut R) -> Result<u64, PlayError>
    ensures { IfOk result (HasGuards (R.remaining reader.old)) }
{
    let mut line = Vec::new(alloc);
    let mut number: u64 = 1;
    let mut guards: u64 = 0;
    while next_line(reader, &mut line, number)? {
        if number == u64::MAX {
            return Err(PlayError::Read);
        }
        number += 1;
        guards += guards_in(&line);
    }
    Ok(guards)
}

// How many guards a line is.
fn guards_in(line: &[u8]) -> u64
    ensures count { result ≡ guards_among (line.now ∷ []) }
    ensures most { result ≤ 1 }
{
    if guard_text(line).is_some() { 1 } else { 0 }
}
