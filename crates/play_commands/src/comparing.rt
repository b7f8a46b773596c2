// SPDX-License-Identifier: MIT OR Apache-2.0
//! Plays of a trace whose text is compared with a text that is expected.
ghost use Rattle.play_report.specs.Failures.{IsDifference};
ghost use Rattle.play_commands.specs.Plays.{Plays, streams_of};
ghost use Rattle.play_commands.specs.Purposes.{comparison_of};

use crate::listeners::{buffer, play_trace};
use crate::task::{Expected, Trace};
use ffa_playable::Playable;
use play_player::{Comparer, ComparisonStop, Form, Mismatch, Player};
use play_report::{Difference, Failure};
use std::alloc::Allocator;
use std::io::{Read, Write};

/// Compares what a trace prints with what is expected. Where it differs, `out` is told so.
pub(crate) fn compare<'a, A: Allocator + Copy, P: Playable, R: Read + Drop, W: Write>(
    player: &mut Player<P>,
    alloc: A,
    expected: Expected<'a, R>,
    form: Form,
    trace: Trace<'a, R>,
    out: &mut W,
) -> Result<(), Failure<'a>>
    ensures { let streams = streams_of R.remaining trace.entry.reader W.contents out.old out.new in
        Plays (comparison_of R.remaining expected.entry form) trace.entry.path player.old.bench streams result }
{
    let Expected { path, reader } = expected;
    let wanted = buffer(alloc, reader)?;
    let mut comparer = Comparer::new(alloc, form, wanted);
    let mut line = Vec::new(alloc);
    match play_trace(player, alloc, trace, out, &mut comparer, &mut line) {
        Ok(None) => match comparer.end() {
            Ok(None) => Ok(()),
            Ok(Some(ComparisonStop::Differs(mismatch))) => {
                Err(tell_difference(alloc, mismatch, &comparer, b"", out))
            }
            Ok(Some(ComparisonStop::Unreadable)) => Err(Failure::Read(path)),
            Err(_) => Err(Failure::NoMemory),
        },
        Ok(Some(ComparisonStop::Differs(mismatch))) => {
            Err(tell_difference(alloc, mismatch, &comparer, &line, out))
        }
        Ok(Some(ComparisonStop::Unreadable)) => Err(Failure::Read(path)),
        Err(failure) => Err(failure),
    }
}

// Tells `out` that the text of this line of a trace is another than is expected. After the last line there are no bytes.
fn tell_difference<A: Allocator + Copy, R, W: Write>(
    alloc: A,
    mismatch: Mismatch,
    comparer: &Comparer<R, A>,
    line: &[u8],
    out: &mut W,
) -> Failure<'static>
    ensures { IsDifference result }
{
    let Ok(text) = comparer.text.bytes() else {
        return Failure::NoMemory;
    };
    let difference = Difference {
        number: mismatch.number,
        line,
        expected_line: mismatch.expected_line,
        expected: &comparer.rows.row,
        found: text.get(mismatch.place..).unwrap_or(&[]),
        reason: mismatch.reason,
    };
    difference.tell(alloc, out)
}
