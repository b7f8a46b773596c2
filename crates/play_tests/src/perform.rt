// SPDX-License-Identifier: MIT OR Apache-2.0
//! Commands with output that cannot be written, with input that cannot be read, or without enough memory.

use ffa_model::Ffa;
use fixtures::ROW_TEXT;
use play_arguments::{MachineOptions, PlayOptions, Purpose, Request, Source, TextOptions};
use play_commands::{Files, Program, show};
use std::alloc::Global;
use std::io::{self, Write};
use std::process::Abort;

// Commands without enough memory.
mod refused;
// Comparisons and sessions with texts that cannot be read, or for which there is no memory.
mod sides;

const MACHINE: MachineOptions = MachineOptions {
    frames: false,
    tlb: false,
    processors: None,
    ffa: Ffa::V1_1,
};

const TEXT: TextOptions = TextOptions {
    line_buffered: false,
    number: false,
    names: false,
    explain: false,
    short: false,
};

const PRINT: Purpose<'static> = Purpose::Print {
    text: TEXT,
    strict: false,
    keep_going: false,
    interactive: false,
};

const ROW: PlayOptions<'static> = PlayOptions {
    source: Source::File("row.toml"),
    trace: "row.trace",
    machine: MACHINE,
    purpose: PRINT,
    words: false,
    verbose: false,
};

const RUN: Request<'static> = Request::Play(ROW);

const BUILT_IN: PlayOptions<'static> = PlayOptions {
    source: Source::BuiltIn,
    trace: "no.trace",
    ..ROW
};

const DEMO: Request<'static> = Request::Play(BUILT_IN);

const CHECK: Request<'static> = Request::Check {
    manifest: "row.toml",
    ffa: Ffa::V1_1,
    verbose: false,
};

const LAYOUT: Request<'static> = Request::Layout {
    manifest: "row.toml",
    regions: false,
    ffa: Ffa::V1_1,
    verbose: false,
};

// A first trace, and the text that it prints on the built-in machine.
const FIRST: &str = "call 84000069\nstore 40010000 2A\nload 40010000 1\nload 40020000 1\nshow\n";

const FIRST_TEXT: &str =
    "regs 0000 0000000084000061 0000000000000000 0000000000000000 0000000000000000 0000000000000000 0000000000000000 0000000000000000 0000000000000000\ndone\ndata 2A\nfault translation\nrunner 0000\npages 40000000 4000FFFF 8000 --- ---\npages 40010000 4001FFFF 0000 rw- ---\npages 40020000 4002FFFF 8001 --- rwx\npages 40030000 401FFFFF 8000 --- ---\n";

// Returns the commands with this memory for RAM and for the player.
fn program<A>(manifests: Global, alloc: A) -> Program<A> {
    Program { manifests, alloc }
}

// Returns the text that a play of a trace prints on the machine of the rows.
fn printed(alloc: Global, trace: &str) -> Vec<u8> {
    let (mut out, mut err) = (Vec::new(alloc), Vec::new(alloc));
    let files = Files {
        manifest: Some(ROW_TEXT.as_bytes()),
        trace: Some(trace.as_bytes()),
        expected: None,
        reason: None,
    };
    program(alloc, alloc).perform(&RUN, files, &mut out, &mut err);
    out
}

// The kinds of machines that play, with RAM in frames or in one piece, and with or without a cache of translations.
const KINDS: [(bool, bool); 4] = [(false, false), (true, false), (false, true), (true, true)];

// Returns the request of a play on a machine of one kind.
fn on_kind<'a>(play: PlayOptions<'a>, (frames, tlb): (bool, bool)) -> Request<'a> {
    let machine = MachineOptions {
        frames,
        tlb,
        ..MACHINE
    };
    Request::Play(PlayOptions { machine, ..play })
}

// A writer that takes up to `room` bytes. After these bytes it takes nothing, or it fails. It flushes only if `flushes`
// is true.
#[derive(Drop)]
struct Stuck {
    room: usize,
    fails: bool,
    flushes: bool,
}

impl Stuck {
    // Returns a writer that takes nothing after `room` bytes, and that does not flush.
    fn new(room: usize) -> Stuck {
        Stuck {
            room,
            fails: false,
            flushes: false,
        }
    }
}

impl Write for Stuck {
    fn write(&mut self, buf: &[u8]) -> io::Result<usize> {
        let count = buf.len().min(self.room);
        if count == 0 && self.fails {
            return Err(io::Error::from(io::ErrorKind::StorageFull));
        }
        self.room -= count;
        Ok(count)
    }

    fn flush(&mut self) -> io::Result<()> {
        if self.flushes {
            Ok(())
        } else {
            Err(io::Error::from(io::ErrorKind::Other))
        }
    }
}

const CANNOT_WRITE: &str = "ffaplay: cannot write\n";

// Performs a command that writes its text to `out`. Asserts its status and its message.
fn tells(
    rt: &impl Abort,
    alloc: Global,
    request: &Request<'_>,
    manifest: &[u8],
    trace: Option<&str>,
    mut out: Stuck,
    (status, told): (u8, &str),
) {
    let mut err = Vec::new(alloc);
    let files = Files {
        manifest: Some(manifest),
        trace: trace.map(|text| text.as_bytes()),
        expected: None,
        reason: None,
    };
    let ended = program(alloc, alloc).perform(request, files, &mut out, &mut err);
    assert_eq!(rt; ended, status);
    assert_eq!(rt; err.as_slice(), told.as_bytes());
}

#[test]
fn tells_what_cannot_be_written(rt: HostRuntime) {
    for room in [0, 3, 1000] {
        tells_that_it_is_stuck(&rt, rt.alloc(), &RUN, room);
        tells_that_it_is_stuck(&rt, rt.alloc(), &CHECK, room);
        tells_that_it_is_stuck(&rt, rt.alloc(), &LAYOUT, room);
    }
}

// Asserts that a command reports a writer that takes nothing after `room` bytes.
fn tells_that_it_is_stuck(rt: &impl Abort, alloc: Global, request: &Request<'_>, room: usize) {
    let trace = Some("show\n");
    let wanted = (3, CANNOT_WRITE);
    let out = Stuck::new(room);
    tells(rt, alloc, request, ROW_TEXT.as_bytes(), trace, out, wanted);
}

// A writer fails after each number of bytes of the text, except after the whole text.
#[test]
fn tells_that_a_write_failed(rt: HostRuntime) {
    for (request, bytes) in [(&DEMO, 151_usize), (&CHECK, 9), (&LAYOUT, 96)] {
        for room in 0..=bytes {
            let trace = Some("call 84000069\nstore 40010000 2A\n");
            let out = Stuck {
                room,
                fails: true,
                flushes: true,
            };
            let wanted = if room < bytes {
                (3, CANNOT_WRITE)
            } else {
                (0, "")
            };
            tells(
                &rt,
                rt.alloc(),
                request,
                ROW_TEXT.as_bytes(),
                trace,
                out,
                wanted,
            );
        }
    }
}

// The program first writes to a buffer, so only the flush fails. The text before a bad line is lost, and the program
// does not report the line.
#[test]
fn tells_that_the_flush_failed(rt: HostRuntime) {
    for trace in ["load 40010000 1\n", "load 40010000 1\nload 4001\n"] {
        let (trace, out) = (Some(trace), Stuck::new(1000));
        tells(
            &rt,
            rt.alloc(),
            &RUN,
            ROW_TEXT.as_bytes(),
            trace,
            out,
            (3, CANNOT_WRITE),
        );
    }
}

// If a manifest is refused or a trace cannot be read, the program printed nothing before.
#[test]
fn tells_an_earlier_fault_than_the_flush(rt: HostRuntime) {
    let unread = (3, "ffaplay: cannot read row.trace\n");
    tells(
        &rt,
        rt.alloc(),
        &RUN,
        ROW_TEXT.as_bytes(),
        None,
        Stuck::new(1000),
        unread,
    );
    let refused = (1, "ffaplay: manifest: M2 Toml\n");
    let good = Some("load 40010000 1\n");
    tells(
        &rt,
        rt.alloc(),
        &RUN,
        b"\xff",
        good,
        Stuck::new(1000),
        refused,
    );
    tells(
        &rt,
        rt.alloc(),
        &CHECK,
        b"\xff",
        None,
        Stuck::new(1000),
        refused,
    );
}

// Asserts that the program reports a writer that takes nothing of a help text after `room` bytes.
fn tells_that_help_is_stuck(rt: &impl Abort, alloc: Global, room: usize) {
    let (mut out, mut err) = (Stuck::new(room), Vec::new(alloc));
    assert_eq!(rt; show(&"Usage: ffaplay", &mut out, &mut err), 3);
    assert_eq!(rt; err.as_slice(), CANNOT_WRITE.as_bytes());
}

#[test]
fn shows_help(rt: HostRuntime) {
    for room in [0, 3, 1000] {
        tells_that_help_is_stuck(&rt, rt.alloc(), room);
    }
}
