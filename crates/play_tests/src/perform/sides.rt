// SPDX-License-Identifier: MIT OR Apache-2.0
//! Comparisons with an expected text that cannot be read or that does not fit in memory, and a session whose trace
//! cannot be read further.

use super::{FIRST, MACHINE, TEXT, printed, program};
use fixtures::{InPieces, ROW_TEXT};
use linked_list_allocator::LocalHeap;
use play_arguments::{PlayOptions, Purpose, Request, Source};
use play_commands::Files;
use std::alloc::Global;
use std::process::Abort;
use std::test::Fail;

const COMPARE: Request<'static> = Request::Play(PlayOptions {
    source: Source::File("row.toml"),
    trace: "row.trace",
    machine: MACHINE,
    purpose: Purpose::Compare {
        expected: "row.text",
        text: TEXT,
    },
    words: false,
    verbose: false,
});

const SESSION: Request<'static> = Request::Play(PlayOptions {
    source: Source::File("row.toml"),
    trace: "row.trace",
    machine: MACHINE,
    purpose: Purpose::Print {
        text: TEXT,
        strict: false,
        keep_going: false,
        interactive: true,
    },
    words: false,
    verbose: false,
});

// The end of a command: its status, and the texts that it wrote.
#[derive(Drop)]
struct Ended {
    status: u8,
    out: Vec<u8>,
    err: Vec<u8>,
}

// Compares the text that FIRST prints with an expected text that can be read `reads` times.
fn compared(alloc: Global, expected: &[u8], reads: usize) -> Ended {
    let (mut out, mut err) = (Vec::new(alloc), Vec::new(alloc));
    let files = Files {
        manifest: Some(ROW_TEXT.as_bytes()),
        trace: Some(InPieces::of(FIRST.as_bytes(), 7, 1000)),
        expected: Some(InPieces::of(expected, 7, reads)),
        reason: None,
    };
    let status = program(alloc, alloc).perform(&COMPARE, files, &mut out, &mut err);
    Ended { status, out, err }
}

// Asserts the end of a command: its status, the text that it printed, and its message.
fn check_end(rt: &impl Abort, got: &Ended, (status, out, err): (u8, &[u8], &str)) {
    assert_eq!(rt; got.status, status);
    assert_eq!(rt; got.out.as_slice(), out);
    assert_eq!(rt; got.err.as_slice(), err.as_bytes());
}

// The reader of the expected text fails at each read in turn, also at the read that finds its end.
#[test]
fn tells_that_the_expected_text_cannot_be_read(rt: HostRuntime) {
    let alloc = rt.alloc();
    let whole = printed(alloc, FIRST);
    let needed = usize::saturating_add(whole.chunks(7).count(), 1);
    for reads in 0..needed {
        let got = compared(alloc, &whole, reads);
        check_end(&rt, &got, (3, b"", "ffaplay: cannot read row.text\n"));
    }
    let got = compared(alloc, &whole, needed);
    check_end(&rt, &got, (0, b"", ""));
}

// Whether the comparison of FIRST's text with this text succeeds in a heap of this size. If it does not, asserts that
// there is no memory.
fn is_compared(rt: &impl Abort, alloc: Global, text: &[u8], room: usize) -> Result<bool, Fail> {
    let heap = LocalHeap::new(alloc, room)?;
    let mut out = Vec::new(alloc);
    let mut err = Vec::with_capacity(alloc, 64)?;
    let files = Files {
        manifest: Some(ROW_TEXT.as_bytes()),
        trace: Some(FIRST.as_bytes()),
        expected: Some(text),
        reason: None,
    };
    let status = program(alloc, &heap).perform(&COMPARE, files, &mut out, &mut err);
    assert_eq!(rt; heap.used(), 0);
    assert!(rt; out.is_empty());
    if status == 0 {
        assert!(rt; err.is_empty());
    } else {
        assert_eq!(rt; status, 3);
        assert_eq!(rt; err.as_slice(), b"ffaplay: no memory\n".as_slice());
    }
    Ok(status == 0)
}

// There is no memory for the readers of both files or for a line of either side, or there is enough. The readers take 8
// KiB each, besides the memory of the machine.
#[test]
fn compares_or_has_no_memory(rt: HostRuntime) -> Result<(), Fail> {
    let alloc = rt.alloc();
    let whole = printed(alloc, FIRST);
    let booted = 512 * 4096 + 512 * 4 + 128 * 616;
    for more in (0..16_384).step_by(1024) {
        assert!(rt; !is_compared(&rt, alloc, &whole, booted + more)?, "{more}");
    }
    for more in (16_384..17_408).step_by(64) {
        is_compared(&rt, alloc, &whole, booted + more)?;
    }
    assert!(rt; is_compared(&rt, alloc, &whole, booted + 20_480)?);
    Ok(())
}

// If a trace cannot be read further, the session first does all that it has read, and then ends with an error.
#[test]
fn ends_a_session_where_it_cannot_read(rt: HostRuntime) {
    let (mut out, mut err) = (Vec::new(rt.alloc()), Vec::new(rt.alloc()));
    let files = Files {
        manifest: Some(ROW_TEXT.as_bytes()),
        trace: Some(InPieces::of(b"fetch\nload 40010000 1\nload 40010000 1\n", 7, 4)),
        expected: None,
        reason: None,
    };
    let program = program(rt.alloc(), rt.alloc());
    let status = program.perform(&SESSION, files, &mut out, &mut err);
    let told = "ffaplay: line 1, column 6: missing word\nffaplay: cannot read row.trace\n";
    check_end(&rt, &Ended { status, out, err }, (3, b"data 00\n", told));
}
