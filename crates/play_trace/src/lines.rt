// SPDX-License-Identifier: MIT OR Apache-2.0
//! Reads the lines of a trace, each by itself.
ghost use Rattle.std.specs.Prelude.{◌≡◌, ◌++◌, None, codes, option_map};
ghost use Rattle.play_trace.specs.TraceLines.{act_of, line_in, line_of, turn_of, words_of};
ghost use Rattle.play_trace.specs.Lines.{meant};
ghost use Rattle.play_trace.specs.Parsed.{IsOther};

use crate::line;
use ffa_model::Op;

/// A line of a trace.
#[derive(Clone, Copy)]
pub enum Line {
    /// An operation of the endpoint that runs.
    Operation(Op),
    /// A request for the table of accesses.
    Show,
    /// A request for the certificate.
    Audit,
    /// An empty line, or a comment.
    Nothing,
    /// The turn of a processor, by its number from 0 on. The lines after it are operations of this processor.
    Turn(usize),
    /// An interrupt that the processor on turn takes.
    Interrupt,
}

impl Line {
    /// Reads a line, without its LF, in a trace of this number of processors. It accepts every line that `read`
    /// accepts, and also `on` with the number of a processor, and `interrupt`.
    ///
    /// If the number is `None`, only one processor runs the machine, and it accepts only what `read` accepts. Returns
    /// `None` if the bytes are no such line.
    pub fn read_in(processors: Option<usize>, bytes: &[u8]) -> Option<Line>
        ensures { option_map meant result ≡ line_in processors bytes.now }
    {
        match Line::read(bytes) {
            Some(line) => Some(line),
            None => read_act(processors?, bytes),
        }
    }

    /// Reads a line of a trace, without its LF. Returns `None` if the bytes are no line of a trace.
    ///
    /// `do_line` of `play_player` distinguishes the commands a second time, because it does a line where it reads the
    /// line. This saves 87 instructions a line.
    pub fn read(bytes: &[u8]) -> Option<Line>
        ensures { option_map meant result ≡ line_of bytes.now }
    {
        match bytes {
            [] | [b'#', ..] => Some(Line::Nothing),
            [b'c', b'a', b'l', b'l', b' ', words @ ..] => read_call(words),
            [b'l', b'o', b'a', b'd', b' ', words @ ..] => read_load(words),
            [b's', b't', b'o', b'r', b'e', b' ', words @ ..] => read_store(words),
            _ => read_other(bytes),
        }
    }
}

fn read_call(words: &[u8]) -> Option<Line>
    ensures { option_map meant result ≡ line_of (codes "call " ++ words.now) }
{
    let mut x = [0; 8];
    if line::registers(words, &mut x) {
        Some(Line::Operation(Op::Call(x)))
    } else {
        None
    }
}

fn read_load(words: &[u8]) -> Option<Line>
    ensures { option_map meant result ≡ line_of (codes "load " ++ words.now) }
{
    match line::load(words) {
        Some((addr, size)) => Some(Line::Operation(Op::Load { addr, size })),
        None => None,
    }
}

fn read_store(words: &[u8]) -> Option<Line>
    ensures { option_map meant result ≡ line_of (codes "store " ++ words.now) }
{
    match line::store(words) {
        Some((addr, size, value)) => Some(Line::Operation(Op::Store { addr, size, value })),
        None => None,
    }
}

// Reads a line of a command that traces seldom have.
fn read_other(bytes: &[u8]) -> Option<Line>
    requires { IsOther bytes.now }
    ensures { option_map meant result ≡ line_of bytes.now }
{
    if let Some(words) = bytes.strip_prefix(b"fetch ") {
        read_fetch(words)
    } else if bytes == b"show".as_slice() {
        Some(Line::Show)
    } else if bytes == b"audit".as_slice() {
        Some(Line::Audit)
    } else {
        None
    }
}

fn read_fetch(words: &[u8]) -> Option<Line>
    ensures { option_map meant result ≡ line_of (codes "fetch " ++ words.now) }
{
    match line::fetch(words) {
        Some(addr) => Some(Line::Operation(Op::Fetch { addr })),
        None => None,
    }
}

// Reads a line that only a trace of several processors has. `count` is the number of processors.
fn read_act(count: usize, bytes: &[u8]) -> Option<Line>
    ensures { option_map meant result ≡ act_of count (words_of bytes.now) }
{
    if let Some(words) = bytes.strip_prefix(b"on ") {
        read_turn(count, words)
    } else if bytes == b"interrupt".as_slice() {
        Some(Line::Interrupt)
    } else {
        None
    }
}

fn read_turn(count: usize, words: &[u8]) -> Option<Line>
    ensures { option_map meant result ≡ turn_of count (words_of words.now) }
{
    match line::processor(words) {
        Some(processor) if processor < count as u64 => Some(Line::Turn(processor as usize)),
        _ => None,
    }
}
