// SPDX-License-Identifier: MIT OR Apache-2.0
//! RAM through the bound of its trait, and frames over a small heap.
use crate::checks::{holds, same};
use ffa_model::{Address, PageNo};
use ffa_physmem::{FlatRam, FrameRam, NoMemory, PhysMem};
use fixtures::{clear, copy, set_word, word};
use linked_list_allocator::LocalHeap;
use std::alloc::Global;
use std::process::Abort;
use std::test::Fail;

// Returns the byte at a place of a page.
fn byte<M: PhysMem>(memory: &M, page: u32, place: usize) -> Option<u8> {
    if page < memory.pages() {
        memory.page(PageNo(page)).get(place).copied()
    } else {
        None
    }
}

// Writes words, reads them again, clears a page and copies the first bytes of a page. Asserts the results.
fn use_pages<M: PhysMem>(memory: &mut M, rt: &impl Abort) {
    same(
        rt,
        (memory.base(), memory.pages()),
        (Address(0x4000_0000), 2),
    );
    set_word(memory, 0, 0, 0x0807_0605_0403_0201);
    set_word(memory, 0, 511, 0x1817_1615_1413_1211);
    set_word(memory, 1, 1, 0x2827_2625_2423_2221);
    same(rt, word(memory, 0, 0), Some(0x0807_0605_0403_0201));
    same(rt, byte(memory, 0, 4090), Some(0x13));
    copy(memory, 0, 1, 5);
    same(rt, word(memory, 1, 0), Some(0x05_0403_0201));
    same(rt, word(memory, 1, 1), Some(0x2827_2625_2423_2221));
    copy(memory, 0, 1, 4096);
    same(rt, word(memory, 1, 511), Some(0x1817_1615_1413_1211));
    clear(memory, 0);
    same(rt, word(memory, 0, 511), Some(0));
    same(rt, word(memory, 1, 0), Some(0x0807_0605_0403_0201));
}

#[test]
fn flat_ram(rt: HostRuntime) -> Result<(), Fail> {
    let mut memory = FlatRam::new(rt.alloc(), Address(0x4000_0000), 2)?;
    use_pages(&mut memory, &rt);
    Ok(())
}

#[test]
fn frame_ram(rt: HostRuntime) -> Result<(), Fail> {
    let mut memory = FrameRam::new(rt.alloc(), Address(0x4000_0000), 2)?;
    use_pages(&mut memory, &rt);
    Ok(())
}

fn is_zero<M: PhysMem>(ram: &M, page: u32) -> bool {
    page < ram.pages() && ram.page(PageNo(page)).iter().all(|byte| *byte == 0)
}

fn are_zeros<M: PhysMem>(rt: &impl Abort, ram: &M) {
    same(rt, (ram.base(), ram.pages()), (Address(0x4000_0000), 3));
    for page in 0..3 {
        holds(rt, is_zero(ram, page));
    }
}

// Asserts that RAM of three pages is all zeros, if the heap has room for it. Otherwise the result is `NoMemory`. No
// memory stays in use after refused RAM.
fn zeros_or_no_memory<M: PhysMem + Drop>(
    rt: &impl Abort,
    heap: &LocalHeap,
    made: Result<M, NoMemory>,
) {
    match made {
        Ok(ram) => {
            holds(rt, 3 * 4096 <= heap.used());
            are_zeros(rt, &ram);
        }
        Err(NoMemory) => {
            holds(rt, heap.size() < 3 * 4096 + 48);
            same(rt, heap.used(), 0);
        }
    }
    same(rt, heap.used(), 0);
}

fn flat_ram_in(rt: &impl Abort, heap: &LocalHeap, room: usize) {
    let flat = FlatRam::new_in(heap, Address(0x4000_0000), 3);
    same(rt, flat.is_ok(), 12288 <= room);
    zeros_or_no_memory(rt, heap, flat);
}

fn frame_ram_in(rt: &impl Abort, heap: &LocalHeap, room: usize) {
    let frames = FrameRam::new_in(heap, Address(0x4000_0000), 3);
    same(rt, frames.is_ok(), 12288 + 48 <= room);
    zeros_or_no_memory(rt, heap, frames);
}

// Each allocation of RAM is refused in turn. Flat RAM has one allocation. RAM of frames has its list of frames, and
// each frame.
#[test]
fn ram_is_zeros_or_refused(rt: HostRuntime) -> Result<(), Fail> {
    for room in [16, 64, 4096 + 64, 8192 + 64, 12288, 12288 + 48, 12288 + 64] {
        let heap = LocalHeap::new(rt.alloc(), room)?;
        flat_ram_in(&rt, &heap, room);
        frame_ram_in(&rt, &heap, room);
    }
    Ok(())
}
