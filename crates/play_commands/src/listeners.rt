// SPDX-License-Identifier: MIT OR Apache-2.0
//! Plays of a trace: its text printed as the player prints it or in a form.
ghost use Rattle.std.specs.Prelude.{◌≡◌, ◌++◌, ◌⊎◌, IfErr, IfOk, None, Ok, OnOk, []};
ghost use Rattle.std.specs.Io.Buffered.{reader_remaining};
ghost use Rattle.ffa_playable.specs.Bench.{processors_of};
ghost use Rattle.play_report.specs.Guarded.{met_text};
ghost use Rattle.play_commands.specs.Plays.{EndsGuards, Plays, PlaysTrace, TellsGuards, streams_of};

use crate::task::{Task, Trace};
use ffa_playable::Playable;
use play_player::{
    Breach, Form, GuardChecker, Listener, Player, Printer, Recorder, play, put_unmet,
};
use play_report::{Failure, tell_met, tell_near, tell_unmet};
use std::alloc::Allocator;
use std::io::{BufReader, Read, Write};

/// Plays a trace, and prints its text as the player does.
pub(crate) fn play_plainly<'a, A: Allocator + Copy, P: Playable, R: Read + Drop, W: Write>(
    player: &mut Player<P>,
    alloc: A,
    trace: Trace<'a, R>,
    out: &mut W,
) -> Result<(), Failure<'a>>
    ensures { let streams = streams_of R.remaining trace.entry.reader W.contents out.old out.new in
        Plays Task.Plain trace.entry.path player.old.bench streams result }
{
    let Trace { path, mut reader } = trace;
    match player.play(alloc, &mut reader, out) {
        Ok(()) => Ok(()),
        Err(error) => Err(Failure::of_play(path, error, None)),
    }
}

/// A reader that is read line by line.
pub(crate) fn buffer<A: Allocator, R: Read + Drop>(
    alloc: A,
    reader: R,
) -> Result<BufReader<R, A>, Failure<'static>>
    ensures unread { IfOk result (λ b. reader_remaining R.remaining b ≡ R.remaining reader) }
    ensures failed { IfErr result (λ failure. failure ≡ Failure.NoMemory) }
{
    match BufReader::new(alloc, reader) {
        Ok(reader) => Ok(reader),
        Err(_) => Err(Failure::NoMemory),
    }
}

/// Plays a trace to a listener. `line` gets the bytes of the line that was read last.
pub(crate) fn play_trace<
    'a,
    A: Allocator + Copy,
    P: Playable,
    R: Read + Drop,
    W: Write,
    L: Listener,
>(
    player: &mut Player<P>,
    alloc: A,
    trace: Trace<'a, R>,
    out: &mut W,
    listener: &mut L,
    line: &mut Vec<u8, A>,
) -> Result<Option<L::Stop>, Failure<'a>>
    requires { let held = W.contents out.old in L.heard player.old.bench [] listener.old listener.old held held (Ok None) }
    ensures { let streams = streams_of R.remaining trace.entry.reader W.contents out.old out.new in
        PlaysTrace L.heard trace.entry.path player.old.bench streams line.new.items listener.old listener.new result }
{
    let Trace { path, reader } = trace;
    let mut reader = buffer(alloc, reader)?;
    match play(player, alloc, &mut reader, out, listener, line) {
        Ok(stop) => Ok(stop),
        Err(error) => Err(Failure::of_line(path, error, player.processors(), line)),
    }
}

/// Plays a trace, and prints its text in a form.
pub(crate) fn play_in_form<'a, A: Allocator + Copy, P: Playable, R: Read + Drop, W: Write>(
    player: &mut Player<P>,
    alloc: A,
    form: Form,
    trace: Trace<'a, R>,
    out: &mut W,
) -> Result<(), Failure<'a>>
    ensures { let streams = streams_of R.remaining trace.entry.reader W.contents out.old out.new in
        Plays (Task.Formed form) trace.entry.path player.old.bench streams result }
{
    let mut printer = Printer::new(alloc, form);
    match play_trace(
        player,
        alloc,
        trace,
        out,
        &mut printer,
        &mut Vec::new(alloc),
    ) {
        Ok(_) => Ok(()),
        Err(failure) => Err(failure),
    }
}

/// Plays a trace, and checks its guards. It stops at the first guard that is not met, or it goes on to the end of the trace.
///
/// `told` gets a line for each guard that is not met, and for each comment that is nearly a guard, however the play ends. At
/// the end of the trace it gets how many guards were met, and how many were not, if some were not.
pub(crate) fn play_guarded<'a, A: Allocator + Copy, P: Playable, R: Read + Drop, W: Write>(
    player: &mut Player<P>,
    alloc: A,
    form: Form,
    keep_going: bool,
    trace: Trace<'a, R>,
    out: &mut W,
    told: &mut Vec<u8, A>,
) -> Result<(), Failure<'a>>
    ensures played { let streams = streams_of R.remaining trace.entry.reader W.contents out.old out.new in
        Plays (Task.Guarded form keep_going) trace.entry.path player.old.bench streams result }
    ensures told { let processors = processors_of player.old.bench in
        OnOk result (TellsGuards processors (R.remaining trace.entry.reader) told.old.items told.new.items) }
{
    let mut checker = GuardChecker::new(alloc, form, keep_going);
    let mut line = Vec::new(alloc);
    let played = play_trace(player, alloc, trace, out, &mut checker, &mut line);
    put_told(told, &checker.told)?;
    tell_near(told, &checker.tally.near)?;
    match played {
        Ok(None) => end_guards(told, checker.tally.met, &checker.tally.unmet),
        Ok(Some(breach)) => Err(tell_breach(told, breach, &line, &checker.found)),
        Err(failure) => Err(failure),
    }
}

fn put_told<A: Allocator>(told: &mut Vec<u8, A>, text: &[u8]) -> Result<(), Failure<'static>>
    ensures written { OnOk result (told.new.items ≡ told.old.items ++ text.now) }
    ensures failed { IfErr result (λ failure. failure ≡ Failure.NoMemory) }
{
    told.extend_from_slice(text).map_err(|_| Failure::NoMemory)
}

// Says in `told` that the guard in this line isn't met, where this is found, and answers so.
fn tell_breach<A: Allocator>(
    told: &mut Vec<u8, A>,
    breach: Breach,
    line: &[u8],
    found: &[u8],
) -> Failure<'static>
    ensures { (result ≡ Failure.Unmet breach.number) ⊎ (result ≡ Failure.NoMemory) }
{
    match put_unmet(told, &breach, line, found) {
        Ok(()) => Failure::Unmet(breach.number),
        Err(_) => Failure::NoMemory,
    }
}

// Says in `told` how many guards were met, and answers the first of those that weren't, whose numbers these are.
fn end_guards<A: Allocator>(
    told: &mut Vec<u8, A>,
    met: u64,
    unmet: &[u64],
) -> Result<(), Failure<'static>>
    ensures ended { EndsGuards unmet.now result }
    ensures told { OnOk result (told.new.items ≡ told.old.items ++ met_text met) }
{
    tell_met(told, met)?;
    match *unmet {
        [] => Ok(()),
        [first, ..] => {
            tell_unmet(told, unmet.len())?;
            Err(Failure::Unmet(first))
        }
    }
}

/// Plays a trace, and prints it with the guards of its play.
pub(crate) fn record<'a, A: Allocator + Copy, P: Playable, R: Read + Drop, W: Write>(
    player: &mut Player<P>,
    alloc: A,
    trace: Trace<'a, R>,
    out: &mut W,
) -> Result<(), Failure<'a>>
    ensures { let streams = streams_of R.remaining trace.entry.reader W.contents out.old out.new in
        Plays Task.Recorded trace.entry.path player.old.bench streams result }
{
    let mut recorder = Recorder::new(alloc);
    match play_trace(
        player,
        alloc,
        trace,
        out,
        &mut recorder,
        &mut Vec::new(alloc),
    ) {
        Ok(_) => Ok(()),
        Err(failure) => Err(failure),
    }
}

/// Plays a trace, and prints its text in a form. Bad lines are told `err`, and the play goes on.
pub(crate) fn play_session<
    'a,
    A: Allocator + Copy,
    P: Playable,
    R: Read + Drop,
    W: Write,
    E: Write,
>(
    player: &mut Player<P>,
    alloc: A,
    form: Form,
    trace: Trace<'a, R>,
    out: &mut W,
    err: &mut E,
) -> Result<(), Failure<'a>>
    ensures { let streams = streams_of R.remaining trace.entry.reader W.contents out.old out.new in
        Plays (Task.Session form) trace.entry.path player.old.bench streams result }
{
    let Trace { path, reader } = trace;
    let mut reader = buffer(alloc, reader)?;
    match play_player::play_session(player, alloc, form, &mut reader, out, err) {
        Ok(()) => Ok(()),
        Err(error) => Err(Failure::of_play(path, error, None)),
    }
}
