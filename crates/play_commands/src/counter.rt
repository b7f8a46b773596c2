// SPDX-License-Identifier: MIT OR Apache-2.0
//! Plays of a trace of which is counted what comes of its operations.
ghost use Rattle.std.specs.Prelude.{◌≡◌, IfErr, OnOk};
ghost use Rattle.ffa_playable.specs.Bench.{why_of};
ghost use Rattle.play_trace.specs.Lines.{meant};
ghost use Rattle.play_trace.specs.TraceText.{line_after};
ghost use Rattle.play_commands.specs.Counted.{CountsTrace, line_counted, tally_of, why_in};

use crate::listeners::buffer;
use ffa_model::{Outcome, Why};
use ffa_playable::Playable;
use play_generator::Counts;
use play_player::{Lines, Player};
use play_trace::{Line, PlayError};
use std::alloc::Allocator;
use std::io::{self, BufRead, Read};

/// Plays a trace, and counts what comes of its operations, behind what was counted before. At a bad line the lines before it
/// are counted, and where the reader fails each that was read whole.
pub fn count_trace<P: Playable, A: Allocator + Copy, R: Read + Drop>(
    player: &mut Player<P>,
    alloc: A,
    reader: R,
    counts: &mut Counts,
) -> Result<(), PlayError>
    ensures { CountsTrace player.old.bench (R.remaining reader) (tally_of counts.old) (tally_of counts.new) result }
{
    let Ok(mut reader) = buffer(alloc, reader) else {
        return Err(PlayError::NoMemory);
    };
    count_lines(player, alloc, &mut reader, counts)
}

// Does the lines that the reader gives, one after another, and counts what comes of each operation.
fn count_lines<P: Playable, A: Allocator + Copy, R: BufRead>(
    player: &mut Player<P>,
    alloc: A,
    reader: &mut R,
    counts: &mut Counts,
) -> Result<(), PlayError>
    ensures { CountsTrace player.old.bench (R.remaining reader.old) (tally_of counts.old) (tally_of counts.new) result }
{
    let mut bytes = Vec::new(alloc);
    let mut lines = Lines::new(player.processors());
    while let Some((_, line)) = lines.next(reader, &mut bytes)? {
        count_line(player, alloc, &line, counts)?;
    }
    Ok(())
}

// Does a line, and counts what comes of it, if it is an operation. Where a partition goes on that was preempted, that is done.
fn count_line<P: Playable, A: Allocator + Copy>(
    player: &mut Player<P>,
    alloc: A,
    line: &Line,
    counts: &mut Counts,
) -> Result<(), PlayError>
    ensures state { OnOk result (player.new.bench ≡ line_after player.old.bench (meant line.now)) }
    ensures counted { OnOk result (tally_of counts.new ≡ line_counted player.old.bench (meant line.now) (tally_of counts.old)) }
    ensures failed { IfErr result (λ e. e ≡ PlayError.NoMemory) }
{
    let why = why_in(player, line);
    // The sink takes all that is written.
    let outcome = player
        .line(alloc, line, &mut io::sink())
        .map_err(|_| PlayError::NoMemory)?;
    if let Line::Operation(op) = line {
        counts.count(op, &outcome.unwrap_or(Outcome::Done), why);
    }
    Ok(())
}

// Why a line is refused, if it is an operation that is.
fn why_in<P: Playable>(player: &Player<P>, line: &Line) -> Option<Why>
    ensures { result ≡ why_in player.now.bench (meant line.now) }
{
    match line {
        Line::Operation(op) => match player.machine().why(op) {
            Some(explanation) => Some(explanation.why),
            None => None,
        },
        Line::Show | Line::Audit | Line::Nothing | Line::Turn(_) | Line::Interrupt => None,
    }
}
