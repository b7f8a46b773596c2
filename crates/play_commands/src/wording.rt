// SPDX-License-Identifier: MIT OR Apache-2.0
//! Reads a trace in words as a trace of the plain format.
ghost use Rattle.std.specs.Counts.{IsPrefixLen};
ghost use Rattle.std.specs.Result.{IfOk};

use play_reasons::line_fault;
use play_report::CallFault;
use play_trace::{LowerError, lower_line};
use std::alloc::{AllocError, Allocator};
use std::io::{self, BufRead, BufReader, ErrorKind, Read};

/// The way in which a trace in words is played.
#[derive(Drop)]
pub(crate) struct Wording<'a, H> {
    /// The number of processors that run the machine, or `None` if only one processor runs it.
    pub(crate) processors: Option<usize>,
    /// The writer of messages about words that are no call. Only a session has this writer.
    pub(crate) session: Option<&'a H>,
}

/// A text, or a trace in words that is read as a trace of the plain format.
#[derive(Drop)]
pub(crate) enum Text<'a, H, R, A: Allocator> {
    Plain(R),
    InWords(InWords<'a, H, R, A>),
}

/// Returns the text of a reader, if there is a reader. The text is in words if `wording` says how to play these. Fails
/// if there is no memory.
pub(crate) fn text_of<'a, H: Eprint + Drop, R: Read + Drop, A: Allocator + Copy>(
    alloc: A,
    reader: Option<R>,
    wording: Option<Wording<'a, H>>,
) -> Result<Option<Text<'a, H, R, A>>, AllocError> {
    Ok(match (reader, wording) {
        (None, _) => None,
        (Some(reader), None) => Some(Text::Plain(reader)),
        (Some(reader), Some(wording)) => Some(Text::InWords(InWords {
            alloc,
            reader: BufReader::new(alloc, reader).map_err(|_| AllocError)?,
            wording,
            number: 0,
            lowered: Vec::new(alloc),
            taken: 0,
        })),
    })
}

impl<H: Eprint + Drop, R: Read + Drop, A: Allocator + Copy> Read for Text<'_, H, R, A> {
    fn read(&mut self, buf: &mut [u8]) -> io::Result<usize> {
        match self {
            Text::Plain(reader) => reader.read(buf),
            Text::InWords(trace) => trace.read(buf),
        }
    }
}

/// A reader of a trace in words, which reads line by line. A line that has no form in the plain format stays as it is,
/// and is bad there too. So the message about the line shows it as the user wrote it.
///
/// In a session, this reader itself reports a line whose words are no call. The session then gets an empty line instead
/// of it.
#[derive(Drop)]
pub(crate) struct InWords<'a, H, R, A: Allocator> {
    alloc: A,
    reader: BufReader<R, A>,
    wording: Wording<'a, H>,
    // The number of lines that were read.
    number: u64,
    // The last line that was read, in the plain format, and the number of bytes of it that were taken.
    lowered: Vec<u8, A>,
    taken: usize,
}

impl<H: Eprint + Drop, R: Read + Drop, A: Allocator + Copy> InWords<'_, H, R, A> {
    fn read(&mut self, buf: &mut [u8]) -> io::Result<usize>
        ensures { IfOk result (λ n. IsPrefixLen n buf.new) }
    {
        if self.taken >= self.lowered.len() {
            self.next_line()?;
        }
        let taken = self.taken;
        let Some(left) = self.lowered.get(taken..) else {
            return Ok(0);
        };
        let count = left.len().min(buf.len());
        buf[..count].copy_from_slice(&left[..count]);
        self.taken = taken.saturating_add(count);
        Ok(count)
    }

    // Reads the next line, which is empty at the end.
    fn next_line(&mut self) -> io::Result<()> {
        let mut line = Vec::new(self.alloc);
        self.reader.read_until(b'\n', &mut line)?;
        self.taken = 0;
        self.number = self.number.saturating_add(1);
        self.lowered = match line.strip_suffix(b"\n") {
            None => line,
            Some(text) => match lower_line(self.alloc, text) {
                Ok(lowered) if line_fault(self.wording.processors, &lowered).is_none() => lowered,
                Err(LowerError::Words(_)) if self.tells(text) => {
                    line.clear();
                    line.push(b'\n')?;
                    line
                }
                Ok(_) | Err(LowerError::Words(_)) => line,
                Err(LowerError::NoMemory) => return Err(ErrorKind::OutOfMemory.into()),
            },
        };
        Ok(())
    }

    // Reports what is wrong with a line whose words are no call, in a session, and returns whether it did. The session
    // reports a CR, and a line for which there is no memory.
    fn tells(&self, line: &[u8]) -> bool {
        let Some(rt) = self.wording.session else {
            return false;
        };
        match CallFault::of_line(self.alloc, line) {
            Some(fault) if !line.ends_with(b"\r") => {
                let _ = eprintln!(rt; "ffaplay: line {}, {fault}", self.number);
                true
            }
            _ => false,
        }
    }
}
