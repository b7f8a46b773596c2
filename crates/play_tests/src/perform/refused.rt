// SPDX-License-Identifier: MIT OR Apache-2.0
//! Commands without enough memory. Over a heap of a fixed size, each allocation of RAM, of a machine's storage and of
//! the player is refused in turn. The script tests/refused-memory refuses the memory with which a manifest is read.

use super::{BUILT_IN, FIRST, FIRST_TEXT, KINDS, ROW, RUN, on_kind, printed, program};
use fixtures::{InPieces, ROW_TEXT};
use linked_list_allocator::LocalHeap;
use play_arguments::{PlayOptions, Request};
use play_commands::Files;
use std::alloc::Global;
use std::process::Abort;
use std::test::Fail;

// The number of bytes of the pages of 2 MiB of RAM. The next constant is the number of bytes of the list of boxes, if
// the RAM is in frames. Each box names its place and its heap.
const PAGES: usize = 512 * 4096;

const LIST: usize = 512 * 16;

// The number of bytes that a machine with 2 MiB of RAM stores of the owners of its pages. The next constant is the
// number of bytes of the slots for open transactions, for the most endpoints.
const OWNERS: usize = 512 * 4;

const SLOTS: usize = 128 * 616;

// The most bytes that the player takes: the room for a line of up to 33 bytes, before and after it grows.
const LINE: usize = 256;

// Partition 8001 lends a page to 8002. Partition 8002 retrieves it, and then requests it again.
const LEND: &str = "call 84000066 4001E000 4001F000 1
call 8400006D 80020000
call 84000066 4003E000 4003F000 1
call 8400006B
call 8400006D 80010000
call 84000066 4002E000 4002F000 1
store 4002E000 0000000000008001
store 4002E018 0000000100000010
store 4002E020 0000000000000030
store 4002E030 0000004000028002
store 4002E040 0000000100000001
store 4002E050 0000000040021000
store 4002E058 0000000000000001
call 84000072 60 60
load 40021000 1
call 8400006B
call 8400006D 80020000
store 4003E000 0000000000008001
store 4003E008 0000800100000001
store 4003E018 0000000100000010
store 4003E020 0000000000000030
store 4003E030 0000000000028002
call 84000074 40 40
load 4003F000 8
call 84000074 40 40
";

// Whether a command succeeds with a heap of this size. If it does not, asserts that there is no memory, and that the
// text so far ends at a line's end.
fn is_done(
    rt: &impl Abort,
    alloc: Global,
    request: &Request<'_>,
    trace: &str,
    text: &[u8],
    room: usize,
) -> Result<bool, Fail> {
    let heap = LocalHeap::new(alloc, room)?;
    let mut out = Vec::with_capacity(alloc, text.len())?;
    let mut err = Vec::with_capacity(alloc, 64)?;
    let files = Files {
        manifest: Some(ROW_TEXT.as_bytes()),
        trace: Some(InPieces::of(trace.as_bytes(), 5, usize::MAX)),
        expected: None,
        reason: None,
    };
    let status = program(alloc, &heap).perform(request, files, &mut out, &mut err);
    assert_eq!(rt; heap.used(), 0);
    if status == 0 {
        assert_eq!(rt; out.as_slice(), text);
        assert_eq!(rt; err.as_slice(), b"".as_slice());
    } else {
        assert_eq!(rt; status, 3);
        assert_eq!(rt; err.as_slice(), b"ffaplay: no memory\n".as_slice());
        assert!(rt; text.starts_with(&out));
        assert!(rt; out.is_empty() || out.ends_with(b"\n"));
    }
    Ok(status == 0)
}

// Plays on a machine of each kind. Asserts that the command has no memory for RAM or for a part of the machine's
// storage. With a little more memory, either the room for a line cannot grow, or the command succeeds.
fn done_or_no_memory(
    rt: &impl Abort,
    alloc: Global,
    play: PlayOptions<'_>,
    trace: &str,
    text: &[u8],
) -> Result<(), Fail> {
    for (frames, tlb) in KINDS {
        let request = on_kind(play, (frames, tlb));
        let ram = if frames { PAGES + LIST } else { PAGES };
        let booted = ram + OWNERS + SLOTS;
        for room in [16, 4096, LIST, ram - 16, ram, ram + OWNERS, booted] {
            assert!(rt; !is_done(rt, alloc, &request, trace, text, room)?, "{room}");
        }
        for more in (16..LINE).step_by(16) {
            is_done(rt, alloc, &request, trace, text, booted + more)?;
        }
        assert!(rt; is_done(rt, alloc, &request, trace, text, booted + LINE)?);
    }
    Ok(())
}

#[test]
fn demonstrates_or_has_no_memory(rt: HostRuntime) -> Result<(), Fail> {
    done_or_no_memory(&rt, rt.alloc(), BUILT_IN, FIRST, FIRST_TEXT.as_bytes())
}

#[test]
fn runs_or_has_no_memory(rt: HostRuntime) -> Result<(), Fail> {
    let whole = printed(rt.alloc(), LEND);
    done_or_no_memory(&rt, rt.alloc(), ROW, LEND, &whole)
}

// Each frame is refused in turn.
#[test]
fn frames_or_no_memory(rt: HostRuntime) -> Result<(), Fail> {
    let request = on_kind(BUILT_IN, (true, false));
    for frame in 0..512 {
        let room = LIST + 4096 * frame;
        assert!(rt;
            !is_done(&rt, rt.alloc(), &request, FIRST, b"", room)?,
            "{frame}"
        );
    }
    Ok(())
}

// Asserts that a run with this manifest, and without memory for RAM, is refused with this message.
fn assert_refused(
    rt: &impl Abort,
    alloc: Global,
    manifest: &str,
    message: &str,
) -> Result<(), Fail> {
    let heap = LocalHeap::new(alloc, 16)?;
    let mut out = Vec::new(alloc);
    let mut err = Vec::with_capacity(alloc, 64)?;
    let files = Files {
        manifest: Some(manifest.as_bytes()),
        trace: Some(LEND.as_bytes()),
        expected: None,
        reason: None,
    };
    let status = program(alloc, &heap).perform(&RUN, files, &mut out, &mut err);
    assert_eq!(rt; status, 1);
    assert_eq!(rt; err.as_slice(), message.as_bytes());
    assert!(rt; out.is_empty());
    Ok(())
}

// The program refuses a manifest before it allocates RAM.
#[test]
fn refuses_a_manifest_without_memory_for_ram(rt: HostRuntime) -> Result<(), Fail> {
    let alloc = rt.alloc();
    let overlapping = ROW_TEXT.replacen(alloc, "0x40030000", "0x40028000", 1)?;
    let message = "ffaplay: manifest: M13 RegionOverlap\n";
    assert_refused(&rt, alloc, overlapping.as_str(), message)?;
    let without_endpoints = "ram_base = 0x40000000\nram_blocks = 1\nendpoint = []\n";
    let message = "ffaplay: manifest: M8 EndpointCount\n";
    assert_refused(&rt, alloc, without_endpoints, message)
}
