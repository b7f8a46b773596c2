// SPDX-License-Identifier: MIT OR Apache-2.0
//! Plays a trace: does its lines, and lets a listener hear each.
ghost use Rattle.std.specs.Prelude.{List, ℕ, Option, Result, Ok, None, []};
ghost use Rattle.ffa_playable.specs.Bench.{Bench};
ghost use Rattle.play_player.specs.Listening.{HearsLine, PlaysTo};
ghost use Rattle.play_trace.specs.declared.output.PlayError.{PlayError};

use crate::Player;
use crate::form::do_line;
use crate::read::Lines;
use ffa_model::Outcome;
use ffa_playable::Playable;
use play_trace::{Line, PlayError};
use std::alloc::Allocator;
use std::io::{BufRead, Write};

/// A line of a trace that was done.
#[derive(Clone, Copy)]
pub struct Event<'a> {
    /// The number of the line, counted from 1.
    pub number: u64,
    /// The bytes of the line, without the LF that ends it.
    pub bytes: &'a [u8],
    /// What the line is.
    pub line: Line,
    /// The outcome of the operation or of the interrupt that the line is.
    pub outcome: Option<Outcome>,
    /// The plain text of the line.
    pub text: &'a [u8],
}

/// Hears the lines of a trace, each after it was done.
pub trait Listener {
    /// Why this listener stops a play.
    type Stop;

    /// What this listener says of the lines that it heard.
    ghost heard: { Bench → List (List ℕ) → Self → Self → Option (List ℕ) → Option (List ℕ) → Result (Option Self.Stop) PlayError → Type 0 };

    /// Hears a line, and writes what it has to say of the line. It returns why the play stops, or `None` to go on.
    fn hear<P: Playable, W: Write>(
        &mut self,
        player: &Player<P>,
        event: &Event<'_>,
        out: &mut W,
    ) -> Result<Option<Self::Stop>, PlayError>
        ensures { HearsLine heard player.now.bench event.now self.old self.new (W.contents out.old) (W.contents out.new) result };
}

/// Plays a trace: reads its lines, does them, and lets a listener hear each. It returns why the listener stopped the play,
/// or `None` at the end of the trace.
///
/// Lines count from 1. The bytes of the line that was read last stand in `bytes`, without the LF that ends it. The bytes of
/// a bad line stand there as they stand in the trace, with their LF, if there is one.
pub fn play<P: Playable, A: Allocator + Copy, R: BufRead, W: Write, L: Listener>(
    player: &mut Player<P>,
    alloc: A,
    reader: &mut R,
    out: &mut W,
    listener: &mut L,
    bytes: &mut Vec<u8, A>,
) -> Result<Option<L::Stop>, PlayError>
    requires { let held = W.contents out.old in L.heard player.old.bench [] listener.old listener.old held held (Ok None) }
    ensures { let had = R.remaining reader.old in
        let has = R.remaining reader.new in
        let held = W.contents out.old in
        let holds = W.contents out.new in
        PlaysTo L.heard player.old.bench player.new.bench had has bytes.new.items listener.old listener.new held holds result }
{
    let mut text = Vec::new(alloc);
    let mut lines = Lines::new(player.processors());
    while let Some((number, line)) = lines.next(reader, bytes)? {
        let outcome = do_line(player, alloc, &line, &mut text)?;
        let event = Event {
            number,
            bytes,
            line,
            outcome,
            text: &text,
        };
        if let Some(stop) = listener.hear(player, &event, out)? {
            return Ok(Some(stop));
        }
    }
    Ok(None)
}
