// SPDX-License-Identifier: MIT OR Apache-2.0
//! A line of a text, with a caret under the place of a fault.
use std::fmt;

/// The largest number of bytes of a line that an excerpt shows. If the line is longer, it shows the bytes around the
/// place.
const SHOWN: usize = 72;

/// A line, cut around a place. It prints as two lines, and the second line has a caret under the place. A byte that is
/// no printed character of ASCII prints as `\xNN`.
#[derive(Clone, Copy, Debug, PartialEq, Eq)]
pub struct Excerpt {
    number: u64,
    bytes: [u8; SHOWN],
    len: usize,
    // The index of the place among these bytes, or their number if the place is after them.
    at: usize,
    is_cut_before: bool,
    is_cut_behind: bool,
}

impl Excerpt {
    /// Returns the excerpt of a line around the byte with the index `at`. The line is without its LF. Its number counts
    /// from 1, and the index from 0. If the line has no such byte, the place is the end of the line.
    pub fn of_line(number: u64, line: &[u8], at: usize) -> Excerpt {
        let at = at.min(line.len());
        let first = first_shown(line.len(), at);
        let rest = line.get(first..).unwrap_or(&[]);
        let mut bytes = [0; SHOWN];
        for (byte, its) in bytes.iter_mut().zip(rest) {
            *byte = *its;
        }
        Excerpt {
            number,
            bytes,
            len: rest.len().min(SHOWN),
            at: at.saturating_sub(first),
            is_cut_before: first > 0,
            is_cut_behind: rest.len() > SHOWN,
        }
    }

    /// Returns the excerpt of the line of a text that has the byte with the index `at`. The index counts from 0. If the
    /// text has no such byte, the place is the end of the text.
    pub fn of_text(text: &[u8], at: usize) -> Excerpt {
        let mut start: usize = 0;
        let mut number: u64 = 0;
        for line in text.split_inclusive(|byte| *byte == b'\n') {
            number = number.saturating_add(1);
            let end = start.saturating_add(line.len());
            if at < end || (end == text.len() && !line.ends_with(b"\n")) {
                return Excerpt::of_line(number, without_end(line), at.saturating_sub(start));
            }
            start = end;
        }
        Excerpt::of_line(number.saturating_add(1), &[], 0)
    }
}

// Returns the index of the first byte that an excerpt shows of a line with this length, around a place.
fn first_shown(len: usize, at: usize) -> usize {
    if len <= SHOWN {
        return 0;
    }
    at.saturating_sub(SHOWN / 2).min(len.saturating_sub(SHOWN))
}

// Returns a line without its LF, and without a CR before the LF.
fn without_end(line: &[u8]) -> &[u8] {
    let line = line.strip_suffix(b"\n").unwrap_or(line);
    line.strip_suffix(b"\r").unwrap_or(line)
}

impl fmt::Display for Excerpt {
    fn fmt<W: fmt::Write>(&self, f: &mut fmt::Formatter<W>) -> fmt::Result {
        let shown = self.bytes.get(..self.len).unwrap_or(&[]);
        let before = shown.get(..self.at).unwrap_or(shown);
        let front = if self.is_cut_before { ".." } else { "" };
        let behind = if self.is_cut_behind { ".." } else { "" };
        write!(f, "{} | {front}", self.number)?;
        for byte in shown {
            put_byte(*byte, f)?;
        }
        writeln!(f, "{behind}")?;
        put_spaces(digits_of(self.number), f)?;
        write!(f, " | ")?;
        put_spaces(front.len(), f)?;
        for byte in before {
            put_spaces(if is_printed(*byte) { 1 } else { 4 }, f)?;
        }
        write!(f, "^")
    }
}

// Whether a byte is a printed character of ASCII. Such a byte prints as itself, and any other byte as four characters
// `\xNN`.
fn is_printed(byte: u8) -> bool {
    matches!(byte, b' '..=b'~')
}

fn put_byte<W: fmt::Write>(byte: u8, f: &mut fmt::Formatter<W>) -> fmt::Result {
    if is_printed(byte) {
        f.write_char(char::from(byte))
    } else {
        write!(f, "\\x{byte:02X}")
    }
}

// Returns the number of decimal digits of a number.
fn digits_of(number: u64) -> usize {
    let mut digits: usize = 1;
    let mut rest = number / 10;
    // A number of 64 bits has at most 20 digits.
    for _ in 0..19 {
        if rest > 0 {
            digits = digits.saturating_add(1);
            rest /= 10;
        }
    }
    digits
}

fn put_spaces<W: fmt::Write>(count: usize, f: &mut fmt::Formatter<W>) -> fmt::Result {
    for _ in 0..count {
        f.write_char(' ')?;
    }
    Ok(())
}
