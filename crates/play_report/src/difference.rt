// SPDX-License-Identifier: MIT OR Apache-2.0
//! The difference between the text that a trace prints and the expected text.
ghost use Rattle.std.specs.Prelude.{◌≡◌, IfErr};
ghost use Rattle.play_report.specs.Failures.{IsDifference, IsShort};

use crate::failure::Failure;
use crate::output::write;
use play_reasons::{Draft, Reason, put_reason};
use std::alloc::Allocator;
use std::io::Write;
use std::{fmt, io};

/// A place where a trace prints another text than the expected text.
#[derive(Clone, Copy)]
pub struct Difference<'a> {
    /// The number of the line of the trace that prints the text.
    pub number: u64,
    /// The bytes of the line of the trace. There are no bytes if the trace has ended and the expected text has more.
    pub line: &'a [u8],
    /// The number of the line of the expected text that differs.
    pub expected_line: u64,
    /// The line of the expected text that differs, with its LF if it has an LF. It is empty if the expected text has
    /// ended.
    pub expected: &'a [u8],
    /// The text that the line of the trace prints, from its first line that differs.
    pub found: &'a [u8],
    /// The reason why the operation of the line is refused, if the user requests reasons.
    pub reason: Option<Reason>,
}

// The words of a line of registers.
const REGISTERS: [&str; 10] = [
    "regs", "runner", "x0", "x1", "x2", "x3", "x4", "x5", "x6", "x7",
];

// A printed line with its LF, as a message shows it. Bytes that a terminal does not show are escaped.
#[derive(Clone, Copy)]
struct Printed<'a>(&'a [u8]);

impl fmt::Display for Printed<'_> {
    fn fmt<W: fmt::Write>(&self, f: &mut fmt::Formatter<W>) -> fmt::Result {
        match self.0.strip_suffix(b"\n") {
            Some(line) => write!(f, "{}", line.escape_ascii()),
            None if self.0.is_empty() => f.write_str("(the end)"),
            None => write!(f, "{} (no line end)", self.0.escape_ascii()),
        }
    }
}

impl<'a> Difference<'a> {
    /// Prints where the texts differ. Returns `Differs`, or `Write` or `NoMemory` if it could not print that.
    pub fn tell<A: Allocator, W: Write>(&self, alloc: A, out: &mut W) -> Failure<'static>
        ensures { IsDifference result }
    {
        match self.print(alloc, out) {
            Ok(()) => Failure::Differs,
            Err(failure) => failure,
        }
    }

    fn print<A: Allocator, W: Write>(&self, alloc: A, out: &mut W) -> Result<(), Failure<'static>>
        ensures { IfErr result IsShort }
    {
        let text = self.text(alloc)?;
        write(out, &text)
    }

    // Returns the text of the difference. It has the trace's line with its number, the expected line with its number,
    // and the line that was found. If these are registers, it names the ones that differ. Last comes the reason why the
    // operation is refused, if there is one.
    fn text<A: Allocator>(&self, alloc: A) -> Result<Vec<u8, A>, Failure<'static>>
        ensures { IfErr result (λ failure. failure ≡ Failure.NoMemory) }
    {
        let mut text = Vec::new(alloc);
        // A text in memory takes each byte that there is memory for.
        self.put(&mut text).map_err(|_| Failure::NoMemory)?;
        let mut draft = Draft::of(text);
        put_reason(&mut draft, self.reason);
        draft.end().map_err(|_| Failure::NoMemory)
    }

    fn put<A: Allocator>(&self, text: &mut Vec<u8, A>) -> io::Result<()> {
        if self.line.is_empty() {
            writeln!(text, "line {}: (the end)", self.number)?;
        } else {
            writeln!(text, "line {}: {}", self.number, self.line.escape_ascii())?;
        }
        let start = text.len();
        write!(text, "expected, line {}: ", self.expected_line)?;
        let width = text.len().saturating_sub(start);
        writeln!(text, "{}", Printed(self.expected))?;
        put_head(text, "found:", width)?;
        let found = first_line(self.found);
        writeln!(text, "{}", Printed(found))?;
        put_registers(text, width, self.expected, found)
    }
}

fn first_line(text: &[u8]) -> &[u8] {
    match text.split_inclusive(|byte| *byte == b'\n').next() {
        Some(line) => line,
        None => &[],
    }
}

// Appends a word, and spaces up to this width in bytes. So the texts after several words begin in the same column.
fn put_head<A: Allocator>(text: &mut Vec<u8, A>, word: &str, width: usize) -> io::Result<()> {
    text.write_all(word.as_bytes())?;
    for _ in word.len()..width {
        text.write_all(b" ")?;
    }
    Ok(())
}

// Appends a line that names the registers that differ, if both lines have registers. A register that one line lacks
// differs.
fn put_registers<A: Allocator>(
    text: &mut Vec<u8, A>,
    width: usize,
    expected: &[u8],
    found: &[u8],
) -> io::Result<()> {
    let (Some(expected), Some(found)) = (registers(expected), registers(found)) else {
        return Ok(());
    };
    let mut expected = expected.split(|byte| *byte == b' ');
    let mut found = found.split(|byte| *byte == b' ');
    let mut is_first = true;
    for name in REGISTERS {
        if expected.next() != found.next() {
            if is_first {
                put_head(text, "differ:", width)?;
            } else {
                write!(text, ", ")?;
            }
            write!(text, "{name}")?;
            is_first = false;
        }
    }
    if is_first { Ok(()) } else { writeln!(text) }
}

// Returns a line of registers without its number and without its LF, or `None` if the line has no registers.
fn registers(line: &[u8]) -> Option<&[u8]> {
    let line = line.strip_suffix(b"\n").unwrap_or(line);
    let digits = line.iter().take_while(|byte| byte.is_ascii_digit()).count();
    let line = match line.get(digits..).and_then(|rest| rest.strip_prefix(b": ")) {
        Some(rest) => rest,
        None => line,
    };
    if line == b"regs".as_slice() || line.starts_with(b"regs ") {
        Some(line)
    } else {
        None
    }
}
