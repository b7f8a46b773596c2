// SPDX-License-Identifier: MIT OR Apache-2.0
//! Prints the outcomes of tested traces one by one.
use std::fmt::{self, Display};
use std::io::{self, Write};

/// The message for a trace without a guard.
const NO_GUARD: &[u8] = b"ffaplay: the trace has no guard; use --allow-unguarded to allow this";

/// The outcome of a trace.
#[derive(Clone, Copy)]
pub(crate) enum Outcome {
    /// The trace was played to its end, and this number of guards passed, which are all of its guards.
    Passed(u64),
    /// The trace was played to its end, but it has no guard, which the options do not allow.
    Unguarded,
    /// The trace ended with this status.
    Failed(u8),
}

/// The outcomes of the traces so far.
#[derive(Default, Drop)]
pub(crate) struct Report {
    tap: bool,
    passed: usize,
    failed: usize,
}

impl Report {
    pub(crate) fn new(tap: bool) -> Report {
        Report {
            tap,
            ..Report::default()
        }
    }

    pub(crate) fn begin<W: Write>(&self, count: usize, out: &mut W) -> io::Result<()> {
        if self.tap {
            writeln!(out, "TAP version 14\n1..{count}")?;
        }
        Ok(())
    }

    /// Prints the outcome of the trace with this title, and its messages.
    pub(crate) fn put<W: Write>(
        &mut self,
        title: &str,
        outcome: Outcome,
        told: &[u8],
        out: &mut W,
    ) -> io::Result<()> {
        match outcome {
            Outcome::Passed(_) => self.passed = usize::saturating_add(self.passed, 1),
            _ => self.failed = usize::saturating_add(self.failed, 1),
        }
        if self.tap {
            self.put_point(title, outcome, out)?;
            put_lines("# ", told, out)?;
        } else {
            put_line(title, outcome, out)?;
            put_lines("  ", messages_below(outcome, told), out)?;
        }
        if let Outcome::Unguarded = outcome {
            put_lines(if self.tap { "# " } else { "  " }, NO_GUARD, out)?;
        }
        out.flush()
    }

    // Prints the test point of a trace.
    fn put_point<W: Write>(&self, title: &str, outcome: Outcome, out: &mut W) -> io::Result<()> {
        let number = usize::saturating_add(self.passed, self.failed);
        let description = Description(title);
        match outcome {
            Outcome::Passed(_) => writeln!(out, "ok {number} - {description}"),
            _ => writeln!(out, "not ok {number} - {description}"),
        }
    }

    pub(crate) fn end<W: Write>(&self, out: &mut W) -> io::Result<()> {
        if !self.tap {
            let (passed, failed) = (self.passed, self.failed);
            writeln!(out, "{passed} passed, {failed} failed")?;
        }
        out.flush()
    }

    /// Prints the counts.
    pub(crate) fn put_counts<W: Write>(&self, counts: &[u8], out: &mut W) -> io::Result<()> {
        put_lines(if self.tap { "# " } else { "" }, counts, out)
    }

    pub(crate) fn status(&self) -> u8 {
        if self.failed == 0 { 0 } else { 5 }
    }
}

// Prints the line of a trace.
fn put_line<W: Write>(title: &str, outcome: Outcome, out: &mut W) -> io::Result<()> {
    match outcome {
        Outcome::Passed(1) => writeln!(out, "{title}: ok, 1 guard"),
        Outcome::Passed(guards) => writeln!(out, "{title}: ok, {guards} guards"),
        Outcome::Unguarded => writeln!(out, "{title}: FAILED, without a guard"),
        Outcome::Failed(status) => writeln!(out, "{title}: FAILED, with status {status}"),
    }
}

// Returns the messages that are below the line of a trace. If the trace passed, the last message is left out, since the
// line of the trace already says the number of guards.
fn messages_below(outcome: Outcome, told: &[u8]) -> &[u8] {
    let Outcome::Passed(_) = outcome else {
        return told;
    };
    let text = told.strip_suffix(b"\n").unwrap_or(told);
    let end = text.iter().rposition(|byte| *byte == b'\n');
    text.get(..end.unwrap_or(0)).unwrap_or(text)
}

/// A name whose control characters are escaped, so that it needs only one line.
#[derive(Clone, Copy)]
pub(crate) struct Shown<'a>(pub(crate) &'a str);

impl Display for Shown<'_> {
    fn fmt<W: fmt::Write>(&self, f: &mut fmt::Formatter<W>) -> fmt::Result {
        for each in self.0.chars() {
            if each.is_control() {
                let mut bytes = [0; 4];
                let bytes = each.encode_utf8(&mut bytes).as_bytes();
                write!(f, "{}", bytes.escape_ascii())?;
            } else {
                write!(f, "{each}")?;
            }
        }
        Ok(())
    }
}

// A title as a description of the Test Anything Protocol, in which a `#` without a `\` before it begins a directive.
#[derive(Clone, Copy)]
struct Description<'a>(&'a str);

impl Display for Description<'_> {
    fn fmt<W: fmt::Write>(&self, f: &mut fmt::Formatter<W>) -> fmt::Result {
        for each in self.0.chars() {
            match each {
                '#' | '\\' => write!(f, "\\{each}")?,
                _ => write!(f, "{each}")?,
            }
        }
        Ok(())
    }
}

// Writes the lines of a text, each with this text before it. It leaves out empty lines.
fn put_lines<W: Write>(front: &str, text: &[u8], out: &mut W) -> io::Result<()> {
    for line in text.split(|byte| *byte == b'\n') {
        if !line.is_empty() {
            out.write_all(front.as_bytes())?;
            out.write_all(line)?;
            out.write_all(b"\n")?;
        }
    }
    Ok(())
}
