// SPDX-License-Identifier: MIT OR Apache-2.0
//! A session: a play that tells of a bad line and goes on.
ghost use Rattle.std.specs.Prelude.{◌≡◌, ◌++◌, ◌∷◌, []};
ghost use Rattle.ffa_playable.specs.Bench.{processors_of};
ghost use Rattle.play_trace.specs.Lines.{meant};
ghost use Rattle.play_trace.specs.TraceLines.{feed};
ghost use Rattle.play_reasons.specs.Drafts.{Puts};
ghost use Rattle.play_player.specs.Sessions.{SessionIn, TellsBadLines, asks_end, bad_line_text, cause_text, joint_of};
ghost use Rattle.play_player.specs.Steps.{PrintsLine};
ghost use Rattle.play_player.specs.SessionSteps.{AnswersLine, AnswersTelling, HearsLine, HearsTelling, TellsBadLine, TellsOrLoses};

use crate::Player;
use crate::form::{Form, Texts, make_text};
use crate::read::next_line;
use ffa_playable::Playable;
use play_reasons::{Draft, LineFault, line_fault};
use play_trace::{Line, PlayError, output};
use std::alloc::Allocator;
use std::io::{BufRead, Write};

/// Does the good ones of the lines that the reader gives, one after another, and writes the text of each in this form
/// before the next is read. Lines count from 1, bad ones too. A line that is the word `quit` or `exit` ends the session as
/// the reader's end does, and nothing is told of it.
///
/// A bad line isn't done, and the machine stays as it is: `told` is told its number and what is wrong with it. A rest that
/// no LF ends is a bad line, and the last. What `told` doesn't take is lost: it was told of each bad line, in order, or a
/// front of that.
///
/// Where the reader fails, the good ones of the lines that were read whole were done, and nothing more, and their whole
/// text was written; where the writer fails, it took a beginning of the text of the line that was done last. What is left
/// where there is no memory is in no clause.
pub fn play_session<P: Playable, A: Allocator + Copy, R: BufRead, W: Write, E: Write>(
    player: &mut Player<P>,
    alloc: A,
    form: Form,
    reader: &mut R,
    writer: &mut W,
    told: &mut E,
) -> Result<(), PlayError>
    ensures done { let held = W.contents writer.old in
        let holds = W.contents writer.new in
        let had = R.remaining reader.old in
        let has = R.remaining reader.new in
        SessionIn form player.old.bench player.new.bench held holds had has result }
    ensures told { TellsBadLines (processors_of player.old.bench) (R.remaining reader.old) (E.contents told.old) (E.contents told.new) result }
{
    let (mut bytes, mut texts) = (Vec::new(alloc), Texts::new(alloc));
    let processors = player.processors();
    let mut number = 1;
    while hear_line(
        processors,
        reader,
        &mut bytes,
        number,
        told,
        &mut texts.text,
    )? {
        answer_line(
            player, alloc, form, number, &mut bytes, writer, told, &mut texts,
        )?;
        number += 1;
    }
    Ok(())
}

// Reads the line of this number, and answers whether there is one. A rest that no LF ends is told, and is none, as a line
// that asks for the end is. No more lines are read than can be counted.
fn hear_line<A: Allocator, R: BufRead, E: Write>(
    processors: Option<usize>,
    reader: &mut R,
    bytes: &mut Vec<u8, A>,
    number: u64,
    told: &mut E,
    text: &mut Draft<A>,
) -> Result<bool, PlayError>
    ensures heard { let had = R.remaining reader.old in
        let has = R.remaining reader.new in
        HearsLine had has bytes.new.items number result }
    ensures told { HearsTelling processors (R.remaining reader.old) number (E.contents told.old) (E.contents told.new) result }
{
    if number == u64::MAX {
        return Err(PlayError::Read);
    }
    match next_line(reader, bytes, number) {
        Err(PlayError::BadLine(_)) => {
            tell_or_lose(processors, told, number, bytes, text)?;
            Ok(false)
        }
        Ok(true) => Ok(!asks_end(bytes)),
        read => read,
    }
}

// Whether a line asks that the session end.
fn asks_end(line: &[u8]) -> bool
    ensures { result ≡ asks_end line.now }
{
    line == b"quit".as_slice() || line == b"exit".as_slice()
}

// Does the line of this number that these bytes are, and writes its text, or tells that they are none.
fn answer_line<P: Playable, A: Allocator + Copy, W: Write, E: Write>(
    player: &mut Player<P>,
    alloc: A,
    form: Form,
    number: u64,
    bytes: &mut Vec<u8, A>,
    writer: &mut W,
    told: &mut E,
    texts: &mut Texts<A>,
) -> Result<(), PlayError>
    ensures done { let held = W.contents writer.old in
        let holds = W.contents writer.new in
        AnswersLine form player.old.bench player.new.bench number bytes.old.items held holds result }
    ensures told { AnswersTelling (processors_of player.old.bench) bytes.old.items number (E.contents told.old) (E.contents told.new) result }
{
    let processors = player.processors();
    match Line::read_in(processors, bytes) {
        Some(line) => print_line(player, alloc, form, number, &line, writer, texts),
        None => refuse_line(processors, bytes, number, told, &mut texts.text),
    }
}

// Does a line and writes its text.
fn print_line<P: Playable, A: Allocator + Copy, W: Write>(
    player: &mut Player<P>,
    alloc: A,
    form: Form,
    number: u64,
    line: &Line,
    writer: &mut W,
    texts: &mut Texts<A>,
) -> Result<(), PlayError>
    ensures { let held = W.contents writer.old in
        let holds = W.contents writer.new in
        PrintsLine form player.old.bench player.new.bench number (meant line.now) held holds result }
{
    let Texts { said, text } = texts;
    make_text(player, alloc, form, number, line, said, text)?;
    output::write_text(writer, text.bytes()?)
}

// Tells that a line is bad, once its LF is put back, since what is wrong is looked for in a line as the trace has it.
fn refuse_line<A: Allocator, E: Write>(
    processors: Option<usize>,
    bytes: &mut Vec<u8, A>,
    number: u64,
    told: &mut E,
    text: &mut Draft<A>,
) -> Result<(), PlayError>
    ensures { TellsOrLoses processors number (bytes.old.items ++ feed ∷ []) (E.contents told.old) (E.contents told.new) result }
{
    match bytes.push(b'\n') {
        Ok(()) => tell_or_lose(processors, told, number, bytes, text),
        Err(_) => Err(PlayError::NoMemory),
    }
}

// Tells where a line is bad. What can't be told is lost.
fn tell_or_lose<A: Allocator, E: Write>(
    processors: Option<usize>,
    told: &mut E,
    number: u64,
    line: &[u8],
    text: &mut Draft<A>,
) -> Result<(), PlayError>
    ensures { TellsOrLoses processors number line.now (E.contents told.old) (E.contents told.new) result }
{
    match tell_bad_line(processors, told, number, line, text) {
        Ok(()) => Ok(()),
        Err(PlayError::Write) => Ok(()),
        Err(error) => Err(error),
    }
}

// Tells where a line is bad. It makes what it tells in `text`.
fn tell_bad_line<A: Allocator, E: Write>(
    processors: Option<usize>,
    told: &mut E,
    number: u64,
    line: &[u8],
    text: &mut Draft<A>,
) -> Result<(), PlayError>
    ensures { TellsBadLine processors number line.now (E.contents told.old) (E.contents told.new) result }
{
    text.clear();
    put_bad_line(text, number, line_fault(processors, line));
    output::write_text(told, text.bytes()?)
}

#[tactic(auto, using(play_reasons::proofs::Together::together))]
fn put_bad_line<A: Allocator>(text: &mut Draft<A>, number: u64, fault: Option<LineFault>)
    ensures { Puts text.old text.new (bad_line_text number fault) }
{
    text.put("ffaplay: line ");
    text.put_shown(&number);
    put_cause(text, fault);
}

fn put_cause<A: Allocator>(text: &mut Draft<A>, fault: Option<LineFault>)
    ensures { Puts text.old text.new (cause_text fault) }
{
    match fault {
        Some(fault) => {
            text.put(joint(fault));
            text.put_shown(&fault);
            text.put("\n");
        }
        None => text.put(": bad line\n"),
    }
}

// What stands between a line's number and what is wrong with it. A column goes on from the number.
fn joint(fault: LineFault) -> &'static str
    ensures { result.now ≡ joint_of fault }
{
    match fault {
        LineFault::Words { .. } => ", ",
        LineFault::NoEnd | LineFault::CarriageReturn | LineFault::Whole => ": ",
    }
}
