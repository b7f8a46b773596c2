// SPDX-License-Identifier: MIT OR Apache-2.0
//! Traces in words, printed as ones of the plain format.

use crate::Files;
use ffa_model::MOST_PROCESSORS;
use play_reasons::line_fault;
use play_report::{Failure, Notes, tell, tell_more};
use play_trace::{LowerError, PlayError, lower_line};
use std::alloc::Allocator;
use std::io::{BufRead, BufReader, ErrorKind, Read, Write};

/// Prints the trace at this path as one of the plain format, of so many processors as a machine may have, if it could be
/// opened, and answers the status with which the program ends: 0, 2 where a line is none of a trace, or 3. The lines before a
/// bad one are printed.
pub(crate) fn lower<A: Allocator + Copy, R: Read + Drop, W: Write, E: Write>(
    alloc: A,
    path: &str,
    files: Files<'_, R>,
    verbose: bool,
    out: &mut W,
    err: &mut E,
) -> u8 {
    let Files { trace, reason, .. } = files;
    let lowered = match trace {
        Some(reader) => put_lines(alloc, path, reader, out),
        None => Err(Failure::Read(path)),
    };
    let flushed = out.flush();
    let failure = match lowered {
        Ok(()) if flushed.is_ok() => return 0,
        Ok(()) => Failure::Write,
        Err(Failure::BadLine(..)) if flushed.is_err() => Failure::Write,
        Err(failure) => failure,
    };
    let status = tell(err, &failure, &[]);
    let notes = Notes::new(alloc, verbose);
    tell_more(err, &notes.more_of(&failure, reason), None);
    status
}

fn put_lines<'a, A: Allocator + Copy, R: Read + Drop, W: Write>(
    alloc: A,
    path: &'a str,
    reader: R,
    out: &mut W,
) -> Result<(), Failure<'a>> {
    let Ok(mut reader) = BufReader::new(alloc, reader) else {
        return Err(Failure::NoMemory);
    };
    let mut line = Vec::new(alloc);
    for number in 1..u64::MAX {
        line.clear();
        match reader.read_until(b'\n', &mut line) {
            Ok(0) => return Ok(()),
            Ok(_) => (),
            Err(error) if error.kind() == ErrorKind::OutOfMemory => return Err(Failure::NoMemory),
            Err(_) => return Err(Failure::Read(path)),
        }
        put_line(alloc, path, number, &line, out)?;
    }
    Err(Failure::Read(path))
}

// Puts the line of the plain format to which the line of this number comes, as it stands in the trace.
fn put_line<'a, A: Allocator + Copy, W: Write>(
    alloc: A,
    path: &'a str,
    number: u64,
    line: &Vec<u8, A>,
    out: &mut W,
) -> Result<(), Failure<'a>> {
    let processors = Some(MOST_PROCESSORS);
    let bad = PlayError::BadLine(number);
    let Some(text) = line.strip_suffix(b"\n") else {
        return Err(Failure::of_line(path, bad, processors, line));
    };
    match lower_line(alloc, text) {
        Ok(lowered) if line_fault(processors, &lowered).is_none() => {
            out.write_all(&lowered).map_err(|_| Failure::Write)
        }
        Ok(_) | Err(LowerError::Words(_)) => Err(Failure::of_line(path, bad, processors, line)),
        Err(LowerError::NoMemory) => Err(Failure::NoMemory),
    }
}
