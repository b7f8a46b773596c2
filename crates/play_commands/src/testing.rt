// SPDX-License-Identifier: MIT OR Apache-2.0
//! Tests all traces of some folders. It plays each trace with its guards.
use crate::flags::with_own_flags;
use crate::program::Program;
use crate::report::{Outcome, Report, Shown};
use crate::running::{carry_out, open, read_whole, unless_no_memory, wording_of};
use crate::wording::text_of;
use play_arguments::{
    MachineOptions, PlayOptions, Purpose, Request, Source, TestOptions, TextOptions,
};
use play_generator::{Counts, Everyone};
use std::alloc::{AllocError, Global};
use std::io::{ErrorKind, Read, Write};
use std::rt::Runtime;
use std::{fs, io};

/// The options for the text of a tested trace, which is compared only with its guards.
const TEXT: TextOptions = TextOptions {
    line_buffered: false,
    number: false,
    names: false,
    explain: false,
    short: false,
};

// A trace of a folder, by its name without the ending.
#[derive(Drop)]
struct Trace<'a> {
    folder: &'a str,
    name: String,
}

impl Trace<'_> {
    // Returns the name of the trace for messages, in one line. The name of its folder comes before it if there are
    // several folders.
    fn title(&self, alloc: Global, has_folder: bool) -> Result<String, AllocError> {
        let (folder, name) = (Shown(self.folder), Shown(self.name.as_str()));
        if has_folder {
            format!(in alloc; "{folder}/{name}")
        } else {
            format!(in alloc; "{name}")
        }
    }
}

/// Plays each trace of the folders on the machine of its manifest, and plays on after guards that fail. Returns the
/// status with which the program ends.
///
/// It prints a line for each trace, in the order of the folders and of the names. The line says how many guards passed.
/// Below the line of a trace that failed, it prints the trace's messages. Then it prints how many traces passed and
/// failed. A trace without a guard fails, unless the options allow this. If the options request counts, it prints after
/// that what all traces together reach.
///
/// It reads all folders first. If some folder cannot be read or has no trace, it reports the first such folder, and
/// plays nothing. Fails if there is no memory, which includes memory for a trace's messages.
pub(crate) fn test(
    rt: &(impl Runtime + AllocGlobal),
    input: impl Read + Copy + Drop,
    out: &mut impl Write,
    err: &mut impl Write,
    program: &Program<Global>,
    options: &TestOptions<'_>,
) -> Result<u8, AllocError> {
    let Some(traces) = traces_of(rt, options.folders.as_slice(), err)? else {
        return Ok(3);
    };
    match play_all(rt, input, out, program, options, &traces) {
        Ok(status) => Ok(status),
        Err(error) if error.kind() == ErrorKind::OutOfMemory => Err(AllocError),
        Err(_) => {
            let _ = writeln!(err, "ffaplay: cannot write");
            Ok(3)
        }
    }
}

// Returns the traces of all folders. The traces of one folder are in the order of their names. If a folder cannot be
// read or has no trace, it reports the first such folder and returns `None`.
fn traces_of<'a>(
    rt: &(impl Runtime + AllocGlobal),
    folders: &[&'a str],
    err: &mut impl Write,
) -> Result<Option<Vec<Trace<'a>>>, AllocError> {
    let mut traces = Vec::new(rt.alloc());
    for folder in folders {
        match names_in(rt, folder) {
            Ok(names) if names.is_empty() => {
                let _ = writeln!(err, "ffaplay: no trace in {folder}");
                return Ok(None);
            }
            Ok(names) => traces.extend(names.into_iter().map(|name| Trace { folder, name }))?,
            Err(error) if error.kind() == ErrorKind::OutOfMemory => return Err(AllocError),
            Err(_) => {
                let _ = writeln!(err, "ffaplay: cannot read {folder}");
                return Ok(None);
            }
        }
    }
    Ok(Some(traces))
}

// Plays the traces one by one, and prints the outcome of each trace, and of all traces. Returns the status with which
// the program ends.
fn play_all(
    rt: &(impl Runtime + AllocGlobal),
    input: impl Read + Copy + Drop,
    out: &mut impl Write,
    program: &Program<Global>,
    options: &TestOptions<'_>,
    traces: &[Trace<'_>],
) -> io::Result<u8> {
    let alloc = rt.alloc();
    let mut report = Report::new(options.tap);
    let mut counts = Counts::new();
    counts.everyone = Everyone::NOWHERE;
    report.begin(traces.len(), out)?;
    for trace in traces {
        let mut told = Kept::new(alloc);
        let outcome = play_one(rt, input, program, options, trace, &mut told, &mut counts)?;
        let title = trace.title(alloc, options.folders.len() > 1)?;
        report.put(title.as_str(), outcome, told.whole()?, out)?;
    }
    report.end(out)?;
    if options.count {
        let text = format!(in alloc; "{counts}")?;
        report.put_counts(text.as_bytes(), out)?;
    }
    out.flush()?;
    Ok(report.status())
}

// The messages of a trace, and whether there was memory for all of them.
#[derive(Drop)]
struct Kept {
    text: Vec<u8>,
    is_whole: bool,
}

impl Kept {
    fn new(alloc: Global) -> Kept {
        Kept {
            text: Vec::new(alloc),
            is_whole: true,
        }
    }

    fn whole(&self) -> Result<&[u8], AllocError> {
        let text = self.is_whole.then_some(self.text.as_slice());
        text.ok_or(AllocError)
    }
}

impl Write for Kept {
    fn write(&mut self, buf: &[u8]) -> io::Result<usize> {
        self.is_whole &= self.text.extend_from_slice(buf).is_ok();
        Ok(buf.len())
    }

    fn flush(&mut self) -> io::Result<()> {
        Ok(())
    }
}

// Plays a trace, and returns its outcome. If the options request counts, it counts the outcomes of the operations too.
fn play_one(
    rt: &(impl Runtime + AllocGlobal),
    input: impl Read + Copy + Drop,
    program: &Program<Global>,
    options: &TestOptions<'_>,
    trace: &Trace<'_>,
    told: &mut Kept,
    counts: &mut Counts,
) -> io::Result<Outcome> {
    let (alloc, Trace { folder, name }) = (rt.alloc(), trace);
    let path = format!(in alloc; "{folder}/{name}{ENDING}")?;
    let own = format!(in alloc; "{folder}/{name}.toml")?;
    let manifest = if fs::metadata(rt, own.as_str()).is_ok() {
        own
    } else {
        format!(in alloc; "{folder}/machine.toml")?
    };
    let Some(machine) = machine_of(rt, path.as_str(), options, told)? else {
        return Ok(Outcome::Failed(2));
    };
    let play = play_of(manifest.as_str(), path.as_str(), machine, options.words);
    let request = Request::Play(play);
    if options.count {
        count_one(rt, input, program, &play, &request, counts)?;
    }
    match carry_out(rt, input, io::sink(), told, program, &request)? {
        0 => {
            let trace = fs::open(rt, path.as_str());
            outcome_of(trace.and_then(|trace| program.guards(trace)), options)
        }
        status => Ok(Outcome::Failed(status)),
    }
}

// Returns the options of the machine of a trace. The flags of the trace replace the same flags of the command line. If
// a flag is wrong, the function writes the message to `told`, and returns `None`. If the program cannot read the trace,
// the play of the trace reports this.
fn machine_of(
    rt: &(impl Runtime + AllocGlobal),
    path: &str,
    options: &TestOptions<'_>,
    told: &mut Kept,
) -> io::Result<Option<MachineOptions>> {
    let machine = MachineOptions {
        frames: false,
        tlb: false,
        processors: options.processors,
        ffa: options.ffa,
    };
    let found = fs::open(rt, path);
    match found.and_then(|trace| with_own_flags(rt.alloc(), trace, machine, told)) {
        Err(error) if error.kind() != ErrorKind::OutOfMemory => Ok(Some(machine)),
        found => found,
    }
}

// Returns the outcome of a trace that was played to its end, and whose guards all passed. `guards` is their number. If
// the trace cannot be read again, it failed.
fn outcome_of(guards: io::Result<u64>, options: &TestOptions<'_>) -> io::Result<Outcome> {
    match guards {
        Ok(0) if !options.allow_unguarded => Ok(Outcome::Unguarded),
        Ok(guards) => Ok(Outcome::Passed(guards)),
        Err(error) if error.kind() == ErrorKind::OutOfMemory => Err(error),
        Err(_) => Ok(Outcome::Failed(3)),
    }
}

// Counts the outcomes of a trace's operations. It reports no file that cannot be read, since the play of the trace
// does.
fn count_one<H: AllocGlobal + fs::Files + Eprint + Drop, S: Read + Copy + Drop>(
    rt: &H,
    input: S,
    program: &Program<Global>,
    play: &PlayOptions<'_>,
    request: &Request<'_>,
    counts: &mut Counts,
) -> Result<(), AllocError> {
    let mut reason = None;
    let manifest = unless_no_memory(read_whole(rt, input, request.manifest()), &mut reason)?;
    let trace = unless_no_memory(open(rt, input, request.trace()), &mut reason)?;
    let trace = text_of(rt.alloc(), trace, wording_of(rt, request))?;
    match (manifest, trace) {
        (Some(manifest), Some(trace)) => { program.count(play, manifest.as_slice(), trace, counts) }
        _ => Ok(()),
    }
}

// Returns the options of a play of a trace, on a machine with these options, that plays on after guards that fail.
fn play_of<'a>(
    manifest: &'a str,
    trace: &'a str,
    machine: MachineOptions,
    words: bool,
) -> PlayOptions<'a> {
    PlayOptions {
        source: Source::File(manifest),
        trace,
        machine,
        purpose: Purpose::Print {
            text: TEXT,
            strict: false,
            keep_going: true,
            interactive: false,
        },
        words,
        verbose: true,
    }
}

// The ending of the names of traces.
const ENDING: &str = ".trace";

// Returns the names of the traces in a folder, without their endings, in order.
fn names_in(rt: &(impl Runtime + AllocGlobal), folder: &str) -> io::Result<Vec<String>> {
    let alloc = rt.alloc();
    let mut names = Vec::new(alloc);
    for entry in fs::read_dir(rt, folder)? {
        let entry = entry?;
        if let Some(name) = entry.file_name().strip_suffix(ENDING) {
            names.push(String::from_str(alloc, name)?)?;
        }
    }
    names.sort_unstable();
    Ok(names)
}
