// SPDX-License-Identifier: MIT OR Apache-2.0
//! Copies machines for C: into RAM from the heap, and into lent RAM.
ghost use Rattle.std.specs.Prelude.{◌≡◌, ◌≢◌, ◌<◌, [], length, true, false, None, Some, IfOk};
ghost use Rattle.ffa_c.specs.Copying.{HasCopied, copied_answer, copied_lent_answer};
ghost use Rattle.ffa_c.specs.Boarded.{ram_places};
ghost use Rattle.ffa_c.specs.Lending.{page_count, pages_of, places_of, ready_for};

use crate::board::Board;
use crate::booting::open_heap;
use crate::codes::{NO_LIST, NO_MACHINE, NO_MEMORY, OCCUPIED, OK, WRONG_COUNT};
use crate::lending::CLent;
use crate::lent_list::LentList;
use crate::machine::{CMachine, put};
use crate::seat::Seat;
use ffa_physmem::NoMemory;
use std::alloc::{AllocError, Global};

/// Makes a copy of the machine of `original`, in RAM from the heap. Returns `OK` if the copy was made. Otherwise
/// returns the first answer that applies: `OCCUPIED` if there is already a machine, `NO_MACHINE` if there is no machine
/// to copy, or `NO_MEMORY`. Then nothing has changed. With each answer, `original` stays as it was.
#[unsafe(no_mangle)]
pub extern "C" fn gorseplumb_copy(
    alloc: Global,
    machine: &mut CMachine,
    original: &mut CMachine,
) -> u32
    ensures answer { result ≢ NO_MEMORY → result ≡ copied_answer machine.old.held.value original.old.held.value }
    ensures wanting { result ≡ NO_MEMORY → copied_answer machine.old.held.value original.old.held.value ≡ 0 }
    ensures copied { result ≡ 0 → HasCopied false original.old.held.value machine.new.held.value }
    ensures refused { result ≢ 0 → machine.new ≡ machine.old }
    ensures original { original.new.held.value ≡ original.old.held.value }
{
    if machine.live {
        OCCUPIED
    } else if original.live {
        copy_to_heap(alloc, machine, original.held.board())
    } else {
        NO_MACHINE
    }
}

/// Makes a copy of the machine of `original` in the pages of a list. It writes every byte of the pages, and leaves the
/// list empty. Returns `OK` if the copy was made. Otherwise returns the first answer that applies: `OCCUPIED`,
/// `NO_LIST`, `NO_MACHINE`, `WRONG_COUNT` if the machine's RAM has more pages than the list or fewer, or `NO_MEMORY`.
/// Then nothing has changed. `NO_MEMORY` comes only if the list is ready for fewer pages than it has. A new list is
/// ready for the number of pages for which it was begun. With each answer, `original` stays as it was.
#[unsafe(no_mangle)]
pub extern "C" fn gorseplumb_copy_lent(
    alloc: Global,
    machine: &mut CMachine,
    lent: &mut CLent,
    original: &mut CMachine,
) -> u32
    ensures answer { result ≢ NO_MEMORY
        → result ≡ copied_lent_answer machine.old.held.value (pages_of lent.old.held.value) original.old.held.value }
    ensures wanting { result ≡ NO_MEMORY
        → copied_lent_answer machine.old.held.value (pages_of lent.old.held.value) original.old.held.value ≡ 0 }
    ensures unready { result ≡ NO_MEMORY → ready_for lent.old.held.value < page_count (pages_of lent.old.held.value) }
    ensures copied { result ≡ 0 → HasCopied true original.old.held.value machine.new.held.value }
    ensures placed { result ≡ 0 → ram_places machine.new.held.value ≡ places_of lent.old.held.value }
    ensures emptied { result ≡ 0 → pages_of lent.new.held.value ≡ Some [] }
    ensures machine { result ≢ 0 → machine.new ≡ machine.old }
    ensures list { result ≢ 0 → lent.new.held.value ≡ lent.old.held.value }
    ensures original { original.new.held.value ≡ original.old.held.value }
{
    if machine.live {
        OCCUPIED
    } else if !lent.live {
        NO_LIST
    } else if original.live {
        copy_to_lent(alloc, machine, lent.held.list_mut(), original.held.board())
    } else {
        NO_MACHINE
    }
}

// Copies a machine to a place without a machine, in RAM from the heap.
fn copy_to_heap(alloc: Global, machine: &mut CMachine, original: &Board) -> u32
    requires { machine.old.held.value ≡ None }
    ensures copied { result ≡ 0 → HasCopied false (Some original.now) machine.new.held.value }
    ensures refused { result ≢ 0 → (result ≡ NO_MEMORY) × (machine.new ≡ machine.old) }
{
    match copied_seat(alloc, original) {
        Ok(seat) => {
            put(machine, seat);
            OK
        }
        Err(NoMemory) => NO_MEMORY,
    }
}

// The copy of a machine over RAM from the heap, in its own seat.
#[inline(never)]
fn copied_seat(alloc: Global, original: &Board) -> Result<Box<Seat>, NoMemory>
    ensures { IfOk result (λ b. HasCopied false (Some original.now) b.value) }
{
    let (mut seat, ram, storage) = open_heap(alloc, original.manifest())?;
    seat.fill(original.copy_to_heap(ram, storage));
    Ok(seat)
}

// Copies a machine to a place without a machine, in the pages of this list.
fn copy_to_lent(alloc: Global, machine: &mut CMachine, list: &mut LentList, original: &Board) -> u32
    requires { machine.old.held.value ≡ None }
    ensures answer { result ≢ NO_MEMORY → result ≡ copied_lent_answer None (Some list.old.pages) (Some original.now) }
    ensures wanting { result ≡ NO_MEMORY → copied_lent_answer None (Some list.old.pages) (Some original.now) ≡ 0 }
    ensures unready { result ≡ NO_MEMORY → list.old.ready_for < length list.old.pages }
    ensures copied { result ≡ 0 → HasCopied true (Some original.now) machine.new.held.value }
    ensures placed { result ≡ 0 → ram_places machine.new.held.value ≡ Some list.old.places }
    ensures emptied { result ≡ 0 → list.new.pages ≡ [] }
    ensures machine { result ≢ 0 → machine.new ≡ machine.old }
    ensures list { result ≢ 0 → list.new ≡ list.old }
{
    if list.pages() != original.pages() as usize {
        return WRONG_COUNT;
    }
    match list.copy(alloc, original) {
        Ok(seat) => {
            put(machine, seat);
            OK
        }
        Err(AllocError) => NO_MEMORY,
    }
}
