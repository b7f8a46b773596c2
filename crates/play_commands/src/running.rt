// SPDX-License-Identifier: MIT OR Apache-2.0
//! The program: reads its words, opens its files, and passes both to the code that does the command.
use crate::files::Files;
use crate::input::Input;
use crate::lowering::lower;
use crate::output::{Output, Told};
use crate::program::Program;
use crate::testing::test;
use crate::wording::{Wording, text_of};
use play_arguments::{ErrorKind, Purpose, Request, STANDARD_INPUT, request};
use play_report::show;
use std::alloc::{AllocError, Global};
use std::cell::Cell;
use std::io::{BufWriter, IsTerminal, Read, Write};
use std::rt::Runtime;
use std::{env, fs, io};

/// The number of bytes of output that the program gathers before it writes them.
const OUTPUT: usize = 65536;

/// The status with which the program ends if nobody reads its output. A shell has the same status for a program that
/// SIGPIPE ends.
const CLOSED: u8 = 141;

/// The greeting with which a session at a terminal begins.
const GREETING: &str =
    "ffaplay: session: each line runs when you press Enter. Type help for the forms of a line, or quit to end the session";

/// Runs the program with these standard streams, and returns the status with which it ends. If nobody reads the output,
/// it writes no message about that.
pub fn run(
    rt: &(impl Runtime + AllocGlobal),
    input: impl Read + IsTerminal + Copy + Drop,
    out: impl Write + Drop,
    err: &mut (impl Write + IsTerminal),
) -> u8 {
    let alloc = rt.alloc();
    let program = &Program {
        manifests: alloc,
        alloc,
    };
    let is_closed = &Cell::new(false);
    let is_seen = err.is_terminal();
    let out = Output { out, is_closed };
    let mut told = Told { err, is_closed };
    let status = match status(rt, input, out, &mut told, is_seen, program) {
        Ok(status) => status,
        Err(_) => {
            // If the message cannot be written, only the status says that there is no memory.
            let _ = writeln!(told, "ffaplay: no memory");
            3
        }
    };
    if status == 3 && is_closed.get() {
        CLOSED
    } else {
        status
    }
}

// Reads the command line, and does its command. If `is_seen` is true, a terminal shows the messages, and they say more.
fn status(
    rt: &(impl Runtime + AllocGlobal),
    input: impl Read + IsTerminal + Copy + Drop,
    mut out: impl Write + Drop,
    err: &mut impl Write,
    is_seen: bool,
    program: &Program<Global>,
) -> Result<u8, AllocError> {
    let alloc = rt.alloc();
    let args = match env::args(rt) {
        Ok(args) => args,
        Err(error) if error.kind() == io::ErrorKind::OutOfMemory => return Err(AllocError),
        Err(_) => {
            let _ = eprintln!(rt; "ffaplay: an argument is not UTF-8");
            return Ok(64);
        }
    };
    let args: Vec<String> = args.collect(alloc)?;
    let words: Vec<&str> = args.iter().map(|word| word.as_str()).collect(alloc)?;
    match request(alloc, words.as_slice()) {
        Ok(Request::Test(options)) => test(rt, input, &mut out, err, program, &options),
        Ok(request) if is_seen => {
            let is_typed = input.is_terminal() && request.trace() == Some(STANDARD_INPUT);
            if is_typed && is_interactive(&request) {
                let _ = writeln!(err, "{GREETING}");
            }
            carry_out(rt, input, out, err, program, &request.said_more())
        }
        Ok(request) => carry_out(rt, input, out, err, program, &request),
        Err(error) => match error.kind() {
            ErrorKind::OutOfMemory => Err(AllocError),
            ErrorKind::DisplayHelp | ErrorKind::DisplayVersion => {
                Ok(show(&error, &mut out, err))
            }
            _ => {
                let _ = error.print(rt);
                Ok(64)
            }
        },
    }
}

/// Opens the files of a request, does its command, and returns the status with which the program ends. Fails if there
/// is no memory.
pub(crate) fn carry_out<
    H: AllocGlobal + fs::Files + Eprint + Drop,
    S: Read + Copy + Drop,
    W: Write + Drop,
    E: Write,
>(
    rt: &H,
    input: S,
    out: W,
    err: &mut E,
    program: &Program<Global>,
    request: &Request<'_>,
) -> Result<u8, AllocError> {
    let alloc = rt.alloc();
    let mut reason = None;
    let manifest = unless_no_memory(read_whole(rt, input, request.manifest()), &mut reason)?;
    let path = lowered(request).or(request.trace());
    let trace = unless_no_memory(open(rt, input, path), &mut reason)?;
    let expected = unless_no_memory(open(rt, input, request.expected()), &mut reason)?;
    let files = Files {
        manifest: manifest.as_ref().map(|bytes| bytes.as_slice()),
        trace: text_of(alloc, trace, wording_of(rt, request))?,
        expected: text_of(alloc, expected, None)?,
        reason,
    };
    // With no room the program gathers no output: each write goes to standard output at once.
    let room = if request.answers_at_once() { 0 } else { OUTPUT };
    let mut out = BufWriter::with_capacity(alloc, room, out).map_err(|_| AllocError)?;
    Ok(perform(program, request, files, &mut out, err))
}

// Returns the path of the trace that the program must print in the plain format, if the request is for that.
fn lowered<'a>(request: &Request<'a>) -> Option<&'a str> {
    match *request {
        Request::Lower { trace, .. } => Some(trace),
        _ => None,
    }
}

// Whether a request is for a session.
fn is_interactive(request: &Request<'_>) -> bool {
    let Request::Play(options) = *request else {
        return false;
    };
    match options.purpose {
        Purpose::Print { interactive, .. } => interactive,
        _ => false,
    }
}

/// Returns how to play the trace of a request in words, or `None` if it is not in words.
pub(crate) fn wording_of<'a, H>(rt: &'a H, request: &Request<'_>) -> Option<Wording<'a, H>> {
    match *request {
        Request::Play(options) if options.words => Some(Wording {
            processors: options.machine.processors,
            session: is_interactive(request).then_some(rt),
        }),
        _ => None,
    }
}

fn perform<R: Read + Drop, W: Write, E: Write>(
    program: &Program<Global>,
    request: &Request<'_>,
    files: Files<'_, R>,
    out: &mut W,
    err: &mut E,
) -> u8 {
    match *request {
        Request::Lower { trace, verbose } => lower(program.alloc, trace, files, verbose, out, err),
        _ => program.perform(request, files, out, err),
    }
}

/// Opens the file at a path, or standard input, and returns its reader. Returns `None` if there is no path.
pub(crate) fn open<H: fs::Files, S: Read + Drop>(
    rt: &H,
    input: S,
    path: Option<&str>,
) -> io::Result<Option<Input<H::File, S>>> {
    match path {
        None => Ok(None),
        Some(STANDARD_INPUT) => Ok(Some(Input::Standard(input))),
        Some(path) => Ok(Some(Input::File(fs::open(rt, path)?))),
    }
}

/// Returns the bytes of the file at a path, or of standard input. Returns `None` if there is no path.
pub(crate) fn read_whole<H: AllocGlobal + fs::Files, S: Read + Drop>(
    rt: &H,
    input: S,
    path: Option<&str>,
) -> io::Result<Option<Vec<u8>>> {
    let Some(mut reader) = open(rt, input, path)? else {
        return Ok(None);
    };
    let mut bytes = Vec::new(rt.alloc());
    reader.read_to_end(&mut bytes)?;
    Ok(Some(bytes))
}

/// Returns the result of a read, or `None` if the read failed. Then `reason` becomes the reason, unless it has an
/// earlier one. Fails only if the read failed because there is no memory.
pub(crate) fn unless_no_memory<T>(
    read: io::Result<Option<T>>,
    reason: &mut Option<io::ErrorKind>,
) -> Result<Option<T>, AllocError> {
    match read {
        Ok(value) => Ok(value),
        Err(error) if error.kind() == io::ErrorKind::OutOfMemory => Err(AllocError),
        Err(error) => {
            *reason = reason.or(Some(error.kind()));
            Ok(None)
        }
    }
}
