// SPDX-License-Identifier: MIT OR Apache-2.0
//! The lines of a turn, and their text.
ghost use Rattle.std.specs.Prelude.{◌≡◌, ◌%◌, ◌^◌, [], ◌∷◌, length, map, min, take, IfOk, OnOk};
ghost use Rattle.ffa_model.specs.Memory.{size_of};
ghost use Rattle.play_generator.specs.Traces.{fitted};
ghost use Rattle.play_generator.specs.Turned.{GrowsByLines, meant};

use crate::attempts::{Attempt, put_attempt};
use ffa_model::{Op, Size};
use play_trace::put_operation;
use std::alloc::{AllocError, Allocator};

/// A line of a trace.
#[derive(Clone, Copy)]
pub enum TraceEntry {
    Operation(Op),
    /// A comment, which says what an endpoint tries.
    Attempt(Attempt),
    Show,
    Audit,
}

/// Returns an operation unchanged, except that a store has only the lowest bytes of its value: the 1, 2, 4 or 8 bytes
/// that it moves.
pub fn fit_store(op: &Op) -> Op
    ensures { result ≡ fitted op.now }
{
    match *op {
        Op::Store { addr, size, value } => Op::Store {
            addr,
            size,
            value: lowest(value, size),
        },
        Op::Call(_) | Op::Load { .. } | Op::Fetch { .. } => *op,
    }
}

// Returns the lowest bytes of a value: the number of bytes that the size says.
fn lowest(value: u64, size: Size) -> u64
    ensures { result ≡ value % 256 ^ size_of size }
{
    match size {
        Size::B1 => value % (1 << 8),
        Size::B2 => value % (1 << 16),
        Size::B4 => value % (1 << 32),
        Size::B8 => value,
    }
}

/// Appends the lines of the first entries to a text, of at most `most` entries. Returns the number of lines that it
/// appended. Fails if there is no memory.
pub fn put_entries<A: Allocator>(
    text: &mut Vec<u8, A>,
    entries: &[TraceEntry],
    most: u64,
) -> Result<u64, AllocError>
    ensures count { IfOk result (λ count. count ≡ min most (length entries.now)) }
    ensures lines { IfOk result (λ count.
        GrowsByLines (map meant (take count entries.now)) text.old.items text.new.items) }
{
    let most = most.min(entries.len() as u64);
    let mut count = 0;
    while count < most {
        put_entry(text, &entries[count as usize])?;
        count += 1;
    }
    Ok(count)
}

// Appends the line of an entry to a text.
fn put_entry<A: Allocator>(text: &mut Vec<u8, A>, entry: &TraceEntry) -> Result<(), AllocError>
    ensures { OnOk result (GrowsByLines (meant entry.now ∷ []) text.old.items text.new.items) }
{
    match entry {
        TraceEntry::Operation(op) => put_operation(text, &fit_store(op)),
        TraceEntry::Attempt(attempt) => put_attempt(text, attempt),
        TraceEntry::Show => text.extend_from_slice(b"show\n"),
        TraceEntry::Audit => text.extend_from_slice(b"audit\n"),
    }
}
