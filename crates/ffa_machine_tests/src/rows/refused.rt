// SPDX-License-Identifier: MIT OR Apache-2.0
//! Rows on machines with little memory. Either no memory is free after the boot, or each growth of the room for a line
//! that comes in pieces is refused in turn.
use super::memory::{
    DONATE, LEND, MAPPED, RELINQUISH, RETRIEVE, RETRIEVED, TAKE, TAKEN, TO_FIRST, TO_SECOND,
};
use super::*;
use crate::checks::{holds, holds_at};
use crate::machines::{FlatPlayer, booted};
use ffa_physmem::{FlatRam, FrameRam};
use ffa_reasons::Explained;
use ffa_spmc::{Machine, Storage};
use ffa_tlb::{InTurn, Tlb};
use fixtures::InPieces;
use linked_list_allocator::LocalHeap;
use play_trace::PlayError;
use std::alloc::AllocError;
use std::io::Read;

// The number of bytes of the pages of the rows' RAM. The next constant is the number of bytes of the list of boxes, if
// the RAM is in frames. Each box names its place and its heap.
const PAGES: usize = 512 * 4096;

const LIST: usize = 512 * 16;

// Plays a row of these parts, with each allocation after the boot refused. RAM fills the heap that it is in, and the
// player has no other heap. The player reads the trace in one piece.
fn plays_after_boot(rt: &impl Abort, alloc: Global, parts: &[&str]) -> Result<(), Fail> {
    let row = Row::of(alloc, parts)?;
    let heap = LocalHeap::new(alloc, PAGES)?;
    let mut player = flat_player(rt, &heap)?;
    check_over(rt, alloc, &row, &heap, &mut player)?;
    let heap = LocalHeap::new(alloc, PAGES + LIST)?;
    let mut player = player_in_frames(rt, &heap)?;
    check_over(rt, alloc, &row, &heap, &mut player)
}

// Returns a player whose RAM fills a heap.
fn flat_player<'a>(
    rt: &impl Abort,
    heap: &'a LocalHeap,
) -> Result<Player<Explained<FlatRam<&'a LocalHeap>>>, Fail> {
    let manifest = row_machine();
    let ram = FlatRam::new_in(heap, manifest.ram_base, 512 * manifest.ram_blocks)?;
    holds(rt, is_full(heap));
    Ok(Player::new(Explained(Machine::boot_with(&manifest, ram, NoTlb))))
}

fn player_in_frames<'a>(
    rt: &impl Abort,
    heap: &'a LocalHeap,
) -> Result<Player<Explained<FrameRam<&'a LocalHeap>, Tlb<InTurn, 4>>>, Fail> {
    let manifest = row_machine();
    let ram = FrameRam::new_in(heap, manifest.ram_base, 512 * manifest.ram_blocks)?;
    holds(rt, is_full(heap));
    Ok(Player::new(Explained(Machine::boot_with(&manifest, ram, four_in_turn()))))
}

// Whether the heap has not one free byte.
fn is_full(heap: &LocalHeap) -> bool {
    Box::new(heap, 0u8).is_err()
}

fn check_over<P: Playable>(
    rt: &impl Abort,
    alloc: Global,
    row: &Row,
    heap: &LocalHeap,
    player: &mut Player<P>,
) -> Result<(), Fail> {
    let mut printed = Vec::with_capacity(alloc, row.text.len())?;
    play_over(heap, player, &mut row.trace.as_bytes(), &mut printed)?;
    same(rt, printed.as_slice(), row.text.as_bytes());
    Ok(())
}

// Plays a trace with the memory of a heap.
fn play_over<P: Playable, R: Read>(
    heap: &LocalHeap,
    player: &mut Player<P>,
    reader: &mut R,
    printed: &mut Vec<u8>,
) -> Result<(), PlayError> {
    player.play(heap, reader, printed)
}

#[test]
fn transactions_without_memory(rt: HostRuntime) -> Result<(), Fail> {
    let reclaimed = "\
call 84000077 1 8001 -> 8001: 84000061
load 40021000 1 -> data 5A
";
    let lend = [
        MAPPED, LEND, TO_SECOND, RETRIEVE, RETRIEVED, RELINQUISH, TO_FIRST, reclaimed,
    ];
    plays_after_boot(&rt, rt.alloc(), &lend)?;
    let gone = "\
show -> runner 8002
pages 40000000 4000FFFF 8000 --- --- ---
pages 40010000 4001FFFF 0000 rw- --- ---
pages 40020000 4002FFFF 8001 --- rwx ---
pages 40030000 40030FFF 8002 --- --- rw-
pages 40031000 40031FFF 8001 --- rw- ---
pages 40032000 4003FFFF 8002 --- --- rw-
pages 40040000 401FFFFF 8000 --- --- ---
";
    let donate = [
        MAPPED, TO_SECOND, DONATE, TO_FIRST, TAKE, TAKEN, TO_SECOND, gone,
    ];
    plays_after_boot(&rt, rt.alloc(), &donate)
}

// The first partition gets the partition information, and sends the second a message. The second learns of it by
// FFA_NOTIFICATION_GET.
#[test]
fn messages_without_memory(rt: HostRuntime) -> Result<(), Fail> {
    let message = "\
call 84000068 -> 8001: 84000061 0 2 18
call 84000065 -> 8001: 84000061
store 4002E008 8001800200000014 -> done
store 4002E010 00000FEC -> done
call 84000086 -> 8001: 84000061
";
    let told = "call 84000082 8002 4 -> 8002: 84000061 0 0 0 0 0 1\n";
    plays_after_boot(&rt, rt.alloc(), &[MAPPED, message, TO_SECOND, told])
}

// Returns the lines of a row after the lines that print this number of bytes.
fn lines_behind(alloc: Global, row: &Row, printed: usize) -> Result<&[u8], Fail> {
    let mut player = Player::new(Explained(booted(alloc, &row_machine())?));
    let mut written = 0;
    let mut done = 0;
    for line in row.trace.split_inclusive('\n') {
        if written < printed {
            let text = played(alloc, &mut player, line)?;
            written = usize::saturating_add(written, text.len());
            done = usize::saturating_add(done, line.len());
        }
    }
    Ok(row.trace.as_bytes().get(done..).unwrap_or(&[]))
}

// Plays a row with the memory of a heap. Either the player prints the whole text, or it is refused memory in a line,
// and has printed the text of the lines before. Then a play of the other lines prints the rest. Returns the number of
// bytes that were printed before the refusal, if there was one.
fn refused_at(
    rt: &impl Abort,
    alloc: Global,
    row: &Row,
    room: usize,
) -> Result<Option<usize>, Fail> {
    let mut player = Player::new(Explained(booted(alloc, &row_machine())?));
    let mut printed = Vec::with_capacity(alloc, row.text.len())?;
    let played = play_with(rt, alloc, room, &mut player, row, &mut printed)?;
    let mut stopped = None;
    if let Err(error) = played {
        same(rt, error, PlayError::NoMemory);
        stopped = Some(printed.len());
        go_on_behind(rt, alloc, &mut player, row, &mut printed)?;
    }
    same(rt, printed.as_slice(), row.text.as_bytes());
    Ok(stopped)
}

// Plays a row that comes in pieces with this amount of memory. Asserts that the player keeps no memory.
fn play_with(
    rt: &impl Abort,
    alloc: Global,
    room: usize,
    player: &mut FlatPlayer,
    row: &Row,
    printed: &mut Vec<u8>,
) -> Result<Result<(), PlayError>, Fail> {
    let heap = LocalHeap::new(alloc, room)?;
    let mut reader = InPieces::of(row.trace.as_bytes(), 5, usize::MAX);
    let played = play_over(&heap, player, &mut reader, printed);
    same(rt, heap.used(), 0);
    Ok(played)
}

// Asserts that whole lines were printed, and plays the lines of the row after them.
fn go_on_behind(
    rt: &impl Abort,
    alloc: Global,
    player: &mut FlatPlayer,
    row: &Row,
    printed: &mut Vec<u8>,
) -> Result<(), Fail> {
    holds(rt, ends_a_line(printed.as_slice()));
    let rest = lines_behind(alloc, row, printed.len())?;
    play(alloc, player, rest, printed)?;
    Ok(())
}

// Whether a text ends at the end of a line.
fn ends_a_line(text: &[u8]) -> bool {
    match text.last() {
        Some(byte) => *byte == b'\n',
        None => true,
    }
}

// Returns the number of places in which a row is refused memory. It tries heaps of every size up to a size in which
// nothing is refused. Asserts that a larger heap never stops a play earlier.
fn places_of_refusal(
    rt: &impl Abort,
    alloc: Global,
    row: &Row,
    enough: usize,
) -> Result<u32, Fail> {
    let mut places = 0u32;
    let mut last = None;
    for room in (16..enough).step_by(16) {
        let stopped = refused_at(rt, alloc, row, room)?;
        if stopped.is_some() && stopped != last {
            holds_at(rt, last < stopped, &room);
            places = u32::saturating_add(places, 1);
            last = stopped;
        }
    }
    same(rt, refused_at(rt, alloc, row, enough)?, None);
    Ok(places)
}

// Whether storage for the rows' machine fits a heap of this size. If it does not, asserts that no memory of the heap is
// used.
fn has_room(rt: &impl Abort, alloc: Global, size: usize) -> Result<bool, Fail> {
    let heap = LocalHeap::new(alloc, size)?;
    match Storage::allocate_for(&heap, &row_machine()) {
        Ok(_storage) => Ok(true),
        Err(AllocError) => {
            holds(rt, heap.used() == 0);
            Ok(false)
        }
    }
}

#[test]
fn room_comes_whole_or_not(rt: HostRuntime) -> Result<(), Fail> {
    let mut came: u64 = 0;
    for kibibytes in 1..129 {
        if has_room(&rt, rt.alloc(), 1024 * kibibytes)? {
            came = u64::saturating_add(came, 1);
        }
    }
    // The storage takes four bytes for each of 512 pages, and 616 bytes for each of 128 slots. These are 79 KiB, so it
    // fits heaps from this size on.
    same(&rt, came, 50);
    Ok(())
}

// The room for a line grows to 8, 16, 32 and 64 bytes in the first line, and no line is longer.
#[test]
fn a_lend_or_no_memory(rt: HostRuntime) -> Result<(), Fail> {
    let parts = [MAPPED, LEND, TO_SECOND, RETRIEVE, RETRIEVED];
    let row = Row::of(rt.alloc(), &parts)?;
    let places = places_of_refusal(&rt, rt.alloc(), &row, 256)?;
    same(&rt, places, 1);
    Ok(())
}

// Adds a comment of this number of bytes, and a line.
fn add_comment(row: &mut Row, length: usize) -> Result<(), Fail> {
    row.trace.push_str("#")?;
    for _ in 1..length {
        row.trace.push_str("x")?;
    }
    row.trace.push_str("\n")?;
    row.add("load 40010000 1 -> data 00")
}

// The comments have 10 to 320 bytes. Each makes the room for a line grow again.
#[test]
fn long_lines_or_no_memory(rt: HostRuntime) -> Result<(), Fail> {
    let mut row = Row::new(rt.alloc());
    for length in [10, 20, 40, 80, 160, 320] {
        add_comment(&mut row, length)?;
    }
    let places = places_of_refusal(&rt, rt.alloc(), &row, 2048)?;
    same(&rt, places, 6);
    Ok(())
}

// The room for the runs of a certificate grows as the runs come. If it cannot grow, the player writes nothing of the
// line.
#[test]
fn a_certificate_or_no_memory(rt: HostRuntime) -> Result<(), Fail> {
    let mut row = Row::new(rt.alloc());
    row.add(
        "\
load 40010000 1 -> data 00
audit -> cert 40000000 401FFFFF 3
root 0000 40000000
root 8001 40003000
root 8002 40006000
pages 40000000 4000FFFF 8000 - --- --- ---
pages 40010000 4001FFFF 0000 - rw- --- ---
pages 40020000 4002FFFF 8001 - --- rwx ---
pages 40030000 4003FFFF 8002 - --- --- rw-
pages 40040000 401FFFFF 8000 - --- --- ---
agrees
load 40010000 2 -> data 0000
",
    )?;
    let places = places_of_refusal(&rt, rt.alloc(), &row, 2048)?;
    same(&rt, places, 2);
    Ok(())
}
