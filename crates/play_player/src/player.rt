// SPDX-License-Identifier: MIT OR Apache-2.0
//! The player of traces.
ghost use Rattle.std.specs.Prelude.{◌≡◌, ◌*◌, codes, ◌==◌, true, [], ◌++◌, position, IfErr, IfOk, OnOk, Some, None, if◌then◌else◌};
ghost use Rattle.std.specs.List.{flat_map};
ghost use Rattle.play_trace.specs.TraceLines.{call_of, feed, has_no_feed, operate, words_of};
ghost use Rattle.ffa_model.specs.Memory.{size_of};
ghost use Rattle.ffa_playable.specs.Bench.{after_op, effect_of, processors_of};
ghost use Rattle.play_trace.specs.TraceText.{effect_text, ended, hex, interrupt_text, outcome_text, resumed_text, spaced};
ghost use Rattle.play_player.specs.Feeding.{LineDone, LineEnded, Kept, IsNumbered, Fed, Feeding, StopsIn};
ghost use Rattle.play_trace.specs.Lines.{Answered, meant};
ghost use Rattle.play_trace.specs.Output.{Writes};
ghost use Rattle.play_player.specs.Played.{Played};

use crate::{certificate, show};
use ffa_model::{Effect, EndpointId, Op, Outcome, Size};
use ffa_playable::Playable;
use memchr::memchr;
use play_trace::{Line, PlayError, line, output, text};
use std::alloc::{Allocator, Global};
use std::io::{Read, Write};
use std::marker::Model;

/// How many bytes a play asks of its reader at a time.
const BLOCK: usize = 65536;

/// Plays traces on a machine. Contracts see how that stands, and the processors, where several run it.
#[derive(Drop)]
pub struct Player<P: Playable> {
    machine: P,
}

impl<P: Playable> Model for Player<P> {
    ghost use Rattle.play_player.specs.Standing.{Standing, coded_standing};

    ghost Value = { Standing };

    ghost coded = { coded_standing };

    ghost view = { λ player. record { bench = P.bench player.machine } };
}

/// The bytes of a line whose LF hasn't come yet, and the line's number.
#[derive(Drop)]
pub struct Begun<A: Allocator = Global> {
    /// The bytes, none of which is an LF.
    pub bytes: Vec<u8, A>,
    /// The number, counted from 1.
    pub number: u64,
    pub ghost unended: { has_no_feed bytes.items ≡ true },
    pub ghost numbered: { IsNumbered number bytes.items },
}

impl<A: Allocator> Begun<A> {
    /// The first line, of which no byte has come.
    pub fn new(alloc: A) -> Begun<A>
        ensures bytes { result.bytes.items ≡ [] }
        ensures number { result.number ≡ 1 }
    {
        Begun {
            bytes: Vec::new(alloc),
            number: 1,
        }
    }
}

impl<P: Playable> Player<P> {
    /// A player on this machine, as it is.
    pub fn new(machine: P) -> Player<P>
        ensures { result.bench ≡ P.bench machine }
    {
        Player { machine }
    }

    /// The machine, as the lines so far left it.
    pub fn machine(&self) -> &P
        ensures { P.bench result.now ≡ self.now.bench }
    {
        &self.machine
    }

    /// How many processors a trace may name: nothing where one alone runs the machine.
    pub fn processors(&self) -> Option<usize>
        ensures { result ≡ processors_of self.now.bench }
    {
        self.machine.processors()
    }

    /// Does the lines that the reader gives, one after another, and writes the text of each before the next is done.
    /// Lines count from 1. It asks the reader and the writer for `read` and `write` alone, and tries nothing again
    /// after an error. It is `feed`, with what each `read` gave, before the next `read`.
    // Not inlined: the block would lie on the stack while the caller boots the machine.
    #[inline(never)]
    pub fn play<A: Allocator + Copy, R: Read, W: Write>(
        &mut self,
        alloc: A,
        reader: &mut R,
        writer: &mut W,
    ) -> Result<(), PlayError>
        ensures { let held = W.contents writer.old in
            let holds = W.contents writer.new in
            let had = R.remaining reader.old in
            let has = R.remaining reader.new in
            Played self.old.bench self.new.bench held holds had has result }
    {
        let mut begun = Begun::new(alloc);
        let mut block = [0; BLOCK];
        for _ in 0..u64::MAX - 1 {
            match reader.read(&mut block) {
                Ok(0) if begun.bytes.is_empty() => return Ok(()),
                Ok(0) => return Err(PlayError::BadLine(begun.number)),
                Ok(count) => begun = self.feed(alloc, begun, &block[..count], writer)?,
                Err(_) => return Err(PlayError::Read),
            }
        }
        Err(PlayError::Read)
    }

    /// Takes bytes of a trace, of which `begun` came before: does each line that ends in them, and writes its text, and
    /// answers what has begun of the line behind these.
    ///
    /// So no text of a line whose LF has come is kept back. It asks the writer for `write` alone, and tries nothing
    /// again after an error. After `PlayError::Read` there are more lines than can be counted.
    // A play reads and then calls `feed`, in turn. The values of a reader and a writer cannot say which of them was
    // asked first.
    pub fn feed<A: Allocator + Copy, W: Write>(
        &mut self,
        alloc: A,
        begun: Begun<A>,
        bytes: &[u8],
        writer: &mut W,
    ) -> Result<Begun<A>, PlayError>
        ensures fed { let start = self.old.bench in
            let now = self.new.bench in
            let held = W.contents writer.old in
            let holds = W.contents writer.new in
            let all = begun.bytes.items ++ bytes.now in
            IfOk result (λ next. Feeding start now held holds begun.number next.number all next.bytes.items) }
        ensures failed { let start = self.old.bench in
            let now = self.new.bench in
            let held = W.contents writer.old in
            let holds = W.contents writer.new in
            IfErr result (StopsIn start now held holds begun.number (begun.bytes.items ++ bytes.now)) }
    {
        let Begun {
            bytes: mut line,
            mut number,
        } = begun;
        self.do_lines(alloc, writer, &mut line, &mut number, bytes)?;
        Ok(Begun {
            bytes: line,
            number,
        })
    }

    // Takes bytes that were read: `begun` are those of the line that hasn't ended, and `number` is its number. The last
    // number is that of no line, so bytes behind the lines that can be counted are those of an input that is too long.
    fn do_lines<A: Allocator + Copy, W: Write>(
        &mut self,
        alloc: A,
        writer: &mut W,
        begun: &mut Vec<u8, A>,
        number: &mut u64,
        bytes: &[u8],
    ) -> Result<(), PlayError>
        requires unended { has_no_feed begun.old.items ≡ true }
        requires numbered { IsNumbered number.old begun.old.items }
        ensures { let start = self.old.bench in
            let now = self.new.bench in
            let held = W.contents writer.old in
            let holds = W.contents writer.new in
            Fed start now held holds number.old number.new (begun.old.items ++ bytes.now) begun.new.items result }
    {
        let mut rest = bytes;
        while *number < u64::MAX {
            let Some(end) = first_feed(rest) else {
                return keep(begun, rest);
            };
            self.end_line(alloc, writer, begun, *number, &rest[..end])?;
            *number += 1;
            rest = &rest[end + 1..];
        }
        if rest.is_empty() {
            Ok(())
        } else {
            Err(PlayError::Read)
        }
    }

    // Does the line that begins with `begun` and ends with `piece`. A line that lies in one block isn't copied.
    fn end_line<A: Allocator + Copy, W: Write>(
        &mut self,
        alloc: A,
        writer: &mut W,
        begun: &mut Vec<u8, A>,
        number: u64,
        piece: &[u8],
    ) -> Result<(), PlayError>
        ensures line { let held = W.contents writer.old in
            let holds = W.contents writer.new in
            LineEnded self.old.bench self.new.bench held holds number (begun.old.items ++ piece.now) result }
        ensures none_begun { OnOk result (begun.new.items ≡ []) }
    {
        if begun.is_empty() {
            return self.do_line(alloc, writer, number, piece);
        }
        keep(begun, piece)?;
        self.do_line(alloc, writer, number, begun)?;
        begun.clear();
        Ok(())
    }

    // Does a line, and writes its text. It tells the commands that most lines have by their bytes, as `Line::read`
    // does, and does each where it was read: a line that is made into a `Line` first, and that taken apart again, takes
    // 87 instructions more.
    fn do_line<A: Allocator + Copy, W: Write>(
        &mut self,
        alloc: A,
        writer: &mut W,
        number: u64,
        bytes: &[u8],
    ) -> Result<(), PlayError>
        ensures { let held = W.contents writer.old in
            let holds = W.contents writer.new in
            LineDone self.old.bench self.new.bench held holds number bytes.now result }
    {
        match bytes {
            [] | [b'#', ..] => Ok(()),
            [b'c', b'a', b'l', b'l', b' ', words @ ..] => self.do_call(writer, number, words),
            [b'l', b'o', b'a', b'd', b' ', words @ ..] => self.do_load(writer, number, words),
            [b's', b't', b'o', b'r', b'e', b' ', words @ ..] => {
                self.do_store(writer, number, words)
            }
            _ => self.do_other(alloc, writer, number, bytes),
        }
    }

    // Does a call, by the words behind its name.
    #[inline(always)]
    fn do_call<W: Write>(
        &mut self,
        writer: &mut W,
        number: u64,
        words: &[u8],
    ) -> Result<(), PlayError>
        ensures { let held = W.contents writer.old in
            let holds = W.contents writer.new in
            LineDone self.old.bench self.new.bench held holds number (codes "call " ++ words.now) result }
    {
        let mut op = Op::Call([0; 8]);
        if read_call(words, &mut op) {
            self.operate(writer, &op)
        } else {
            Err(PlayError::BadLine(number))
        }
    }

    // Does a load, alike.
    #[inline(always)]
    fn do_load<W: Write>(
        &mut self,
        writer: &mut W,
        number: u64,
        words: &[u8],
    ) -> Result<(), PlayError>
        ensures { let held = W.contents writer.old in
            let holds = W.contents writer.new in
            LineDone self.old.bench self.new.bench held holds number (codes "load " ++ words.now) result }
    {
        match line::load(words) {
            Some((addr, size)) => self.operate(writer, &Op::Load { addr, size }),
            None => Err(PlayError::BadLine(number)),
        }
    }

    // Does a store, alike.
    #[inline(always)]
    fn do_store<W: Write>(
        &mut self,
        writer: &mut W,
        number: u64,
        words: &[u8],
    ) -> Result<(), PlayError>
        ensures { let held = W.contents writer.old in
            let holds = W.contents writer.new in
            LineDone self.old.bench self.new.bench held holds number (codes "store " ++ words.now) result }
    {
        match line::store(words) {
            Some((addr, size, value)) => self.operate(writer, &Op::Store { addr, size, value }),
            None => Err(PlayError::BadLine(number)),
        }
    }

    // Does a line of another command, of which a trace has few.
    #[inline(never)]
    fn do_other<A: Allocator + Copy, W: Write>(
        &mut self,
        alloc: A,
        writer: &mut W,
        number: u64,
        bytes: &[u8],
    ) -> Result<(), PlayError>
        ensures { let held = W.contents writer.old in
            let holds = W.contents writer.new in
            LineDone self.old.bench self.new.bench held holds number bytes.now result }
    {
        match Line::read_in(self.processors(), bytes) {
            Some(line) => {
                self.line(alloc, &line, writer)?;
                Ok(())
            }
            None => Err(PlayError::BadLine(number)),
        }
    }

    /// Does a line, and writes its text. It answers the outcome of the operation or the interrupt that the line is, but
    /// none where a preempted partition goes on.
    ///
    /// Only `Line::Audit` wants memory: where that is refused, nothing is done and nothing is written.
    pub fn line<A: Allocator + Copy, W: Write>(
        &mut self,
        alloc: A,
        line: &Line,
        writer: &mut W,
    ) -> Result<Option<Outcome>, PlayError>
        ensures { let held = W.contents writer.old in
            let holds = W.contents writer.new in
            Answered self.old.bench self.new.bench held holds (meant line.now) result }
    {
        let machine = &mut self.machine;
        match *line {
            Line::Operation(op) => operate_and_tell(machine, writer, &op),
            Line::Show => show::write_show(machine, writer).map(|()| None),
            Line::Audit => certificate::write_audit(machine, alloc, writer).map(|()| None),
            Line::Nothing => Ok(None),
            Line::Turn(processor) => {
                machine.turn(processor);
                Ok(None)
            }
            Line::Interrupt => {
                let outcome = machine.interrupt();
                write_interrupt(writer, &outcome)?;
                Ok(Some(outcome))
            }
        }
    }

    // Does an operation, and writes what comes of it.
    #[inline(always)]
    fn operate<W: Write>(&mut self, writer: &mut W, op: &Op) -> Result<(), PlayError>
        ensures bench { self.new.bench ≡ after_op self.old.bench op.now }
        ensures text { let held = W.contents writer.old in
            let holds = W.contents writer.new in
            Writes held holds (effect_text op.now (effect_of self.old.bench op.now)) result }
    {
        let mut effect = Effect::Outcome(Outcome::Done);
        self.machine.op(op, &mut effect);
        match &effect {
            Effect::Outcome(outcome) => write_outcome(writer, op, outcome),
            Effect::Resumed(partition) => write_resumed(writer, *partition),
        }
    }
}

#[inline(always)]
fn first_feed(bytes: &[u8]) -> Option<usize>
    ensures { result ≡ position (λ c. c == feed) bytes.now }
{
    memchr(b'\n', bytes)
}

fn keep<A: Allocator>(begun: &mut Vec<u8, A>, bytes: &[u8]) -> Result<(), PlayError>
    ensures { Kept begun.old.items begun.new.items bytes.now result }
{
    begun
        .extend_from_slice(bytes)
        .map_err(|_| PlayError::NoMemory)
}

// Reads the call that words name into an operation, or returns false. Registers that are read elsewhere would be copied.
#[inline(always)]
fn read_call(words: &[u8], op: &mut Op) -> bool
    ensures { (if result then Some (operate op.new) else None) ≡ call_of (words_of words.now) }
{
    let mut is_call = false;
    *op = Op::Call([0; 8]);
    if let Op::Call(x) = op {
        is_call = line::registers(words, x);
    }
    is_call
}

// Does an operation, writes what comes of it, and answers the outcome, if it has one.
fn operate_and_tell<P: Playable, W: Write>(
    machine: &mut P,
    writer: &mut W,
    op: &Op,
) -> Result<Option<Outcome>, PlayError>
    ensures { let held = W.contents writer.old in
        let holds = W.contents writer.new in
        Answered (P.bench machine.old) (P.bench machine.new) held holds (operate op.now) result }
{
    let mut effect = Effect::Outcome(Outcome::Done);
    machine.op(op, &mut effect);
    match effect {
        Effect::Outcome(outcome) => {
            write_outcome(writer, op, &outcome)?;
            Ok(Some(outcome))
        }
        Effect::Resumed(partition) => {
            write_resumed(writer, partition)?;
            Ok(None)
        }
    }
}

// Writes that a store was done. It stands alone, so that its text is written without a call for its bytes.
#[inline(never)]
fn write_done<W: Write>(writer: &mut W) -> Result<(), PlayError>
    ensures { Writes (W.contents writer.old) (W.contents writer.new) (ended (codes "done")) result }
{
    output::write_text(writer, b"done\n")
}

// Writes that a partition goes on.
#[inline(never)]
fn write_resumed<W: Write>(writer: &mut W, partition: EndpointId) -> Result<(), PlayError>
    ensures { Writes (W.contents writer.old) (W.contents writer.new) (resumed_text partition.0) result }
{
    output::write_text(writer, &text::resumed_line(partition.0))
}

// Writes what an interrupt comes to, as a call that comes to the same.
#[inline(never)]
fn write_interrupt<W: Write>(writer: &mut W, outcome: &Outcome) -> Result<(), PlayError>
    ensures { Writes (W.contents writer.old) (W.contents writer.new) (interrupt_text outcome.now) result }
{
    write_outcome(writer, &Op::Call([0; 8]), outcome)
}

// Writes what an operation with this outcome prints. It is inlined, though plays on machines of four kinds call it.
#[inline(always)]
#[tactic(auto, unfolding(play_trace::specs::TraceText::outcome_words))]
fn write_outcome<W: Write>(writer: &mut W, op: &Op, outcome: &Outcome) -> Result<(), PlayError>
    ensures { Writes (W.contents writer.old) (W.contents writer.new) (outcome_text op.now outcome.now) result }
{
    match outcome {
        Outcome::Done => write_done(writer),
        Outcome::Data(value) => write_data(writer, op, *value),
        Outcome::Regs { runner, x } => write_registers(writer, runner.0, x),
        Outcome::Fault(fault) => output::write_text(writer, text::fault_line(*fault)),
    }
}

// Writes data that an operation read, alike.
#[inline(always)]
#[tactic(auto, unfolding(play_trace::specs::TraceText::outcome_words))]
fn write_data<W: Write>(writer: &mut W, op: &Op, value: u64) -> Result<(), PlayError>
    ensures { Writes (W.contents writer.old) (W.contents writer.new) (outcome_text op.now (Outcome.Data value)) result }
{
    match op {
        Op::Call(_) => output::write_text(writer, b"data \n"),
        Op::Load { size, .. } | Op::Store { size, .. } => write_bytes(writer, *size, value),
        Op::Fetch { .. } => write_bytes(writer, Size::B4, value),
    }
}

// Writes the line of data of one size.
fn write_bytes<W: Write>(writer: &mut W, size: Size, value: u64) -> Result<(), PlayError>
    ensures { let held = W.contents writer.old in
        let holds = W.contents writer.new in
        Writes held holds (ended (codes "data" ++ spaced (hex (2 * size_of size) value))) result }
{
    match size {
        Size::B1 => output::write_text(writer, &text::byte_line(value)),
        Size::B2 => output::write_text(writer, &text::two_byte_line(value)),
        Size::B4 => output::write_text(writer, &text::four_byte_line(value)),
        Size::B8 => output::write_text(writer, &text::eight_byte_line(value)),
    }
}

// Writes the line of the runner and its registers. It stands alone, so that other lines have no room for it.
#[inline(never)]
fn write_registers<W: Write>(writer: &mut W, runner: u16, x: &[u64; 8]) -> Result<(), PlayError>
    ensures { let held = W.contents writer.old in
        let holds = W.contents writer.new in
        let registers = flat_map (λ v. spaced (hex 16 v)) x.now in
        Writes held holds (ended (codes "regs" ++ spaced (hex 4 runner) ++ registers)) result }
{
    let mut line = [0; text::REGISTERS];
    text::put_registers(&mut line, runner, x);
    output::write_text(writer, &line)
}
