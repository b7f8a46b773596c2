// SPDX-License-Identifier: MIT OR Apache-2.0
//! A listener that writes a trace with the guards of its own play.
ghost use Rattle.std.specs.Prelude.{◌∷◌, [], map};
ghost use Rattle.play_trace.specs.TraceLines.{joined};
ghost use Rattle.play_reasons.specs.Drafts.{Puts};
ghost use Rattle.play_player.specs.Guards.{lines_in};
ghost use Rattle.play_player.specs.Recorded.{RecordsLines, guard_for, line_recorded};

use crate::Player;
use crate::asking::first_feed;
use crate::guards::guard_text;
use crate::listening::{Event, Listener};
use ffa_playable::Playable;
use play_reasons::Draft;
use play_trace::{PlayError, output};
use std::alloc::Allocator;
use std::convert::Infallible;
use std::io::Write;

/// Writes each line as it stands, and after it a guard for each line that it prints. It leaves out the guards of the trace,
/// and stops no play.
///
/// What it writes plays as the trace does, and all guards of what it writes are met.
#[derive(Drop)]
pub struct Recorder<A: Allocator> {
    text: Draft<A>,
}

impl<A: Allocator> Recorder<A> {
    /// A recorder that has heard no line.
    pub fn new(alloc: A) -> Recorder<A> {
        Recorder {
            text: Draft::new(alloc),
        }
    }
}

impl<A: Allocator> Listener for Recorder<A> {
    type Stop = Infallible;

    ghost heard = { λ start lines old new held holds result. RecordsLines start lines held holds result };

    fn hear<P: Playable, W: Write>(
        &mut self,
        player: &Player<P>,
        event: &Event<'_>,
        out: &mut W,
    ) -> Result<Option<Infallible>, PlayError> {
        self.text.clear();
        put_recorded(event.bytes, event.text, &mut self.text);
        match output::write_text(out, self.text.bytes()?) {
            Ok(()) => Ok(None),
            Err(error) => Err(error),
        }
    }
}

// Puts a line, with a guard for each line of what it printed, or nothing, where it is a guard.
fn put_recorded<A: Allocator>(line: &[u8], printed: &[u8], text: &mut Draft<A>)
    ensures { Puts text.old text.new (joined (line_recorded line.now printed.now)) }
{
    if guard_text(line).is_some() {
        return;
    }
    text.put_bytes(line);
    text.put("\n");
    put_guards(printed, text);
}

fn put_guards<A: Allocator>(printed: &[u8], text: &mut Draft<A>)
    ensures { Puts text.old text.new (joined (map guard_for (lines_in printed.now))) }
{
    let mut rest = printed;
    while let Some(end) = first_feed(rest) {
        put_guard(&rest[..end], text);
        rest = &rest[end + 1..];
    }
}

fn put_guard<A: Allocator>(printed: &[u8], text: &mut Draft<A>)
    ensures { Puts text.old text.new (joined (guard_for printed.now ∷ [])) }
{
    text.put("#= ");
    text.put_bytes(printed);
    text.put("\n");
}
