// SPDX-License-Identifier: MIT OR Apache-2.0
//! Walks of tables that a test wrote.
use crate::checks::{same, same_at};
use ffa_model::{Address, Size};
use ffa_physmem::{FlatRam, FrameRam, PhysMem};
use ffa_walker::{fetch, is_in_ram, load, store, translate};
use fixtures::set_word;
use std::alloc::{AllocError, Global};
use std::process::Abort;
use std::test::Fail;

const BASE: u32 = 0x4000_0000;

const ADDRESS: u64 = 0x4000_1234;

// Writes this word at index 1 of the level 1 table at the base, and bytes around the address.
fn put<M: PhysMem>(memory: &mut M, word: u64) {
    set_word(memory, 0, 1, word);
    set_word(memory, 1, 0x46, 0x0807_065a_0403_0201);
}

// Returns the results of the address's walk and of a load of its byte, as a text.
fn walked<M: PhysMem>(alloc: Global, memory: &M) -> Result<String, AllocError> {
    if !is_in_ram(memory, u64::from(BASE)) {
        return format!(in alloc; "no table");
    }
    let leaf = translate(memory, BASE, ADDRESS);
    let byte = load(memory, BASE, ADDRESS, Size::B1);
    format!(in alloc; "{leaf:?} {byte:?}")
}

fn walks<M: PhysMem>(
    rt: &impl Abort,
    alloc: Global,
    memory: &mut M,
    word: u64,
    wanted: &str,
) -> Result<(), Fail> {
    put(memory, word);
    let found = walked(alloc, memory)?;
    same_at(rt, found.as_str(), wanted, &word);
    Ok(())
}

// Asserts the walk of a row in one piece of RAM, and in RAM of frames.
fn check_walk(rt: &impl Abort, alloc: Global, row: &str) -> Result<(), Fail> {
    let (word, wanted) = row.split_once(' ').ok_or("no word")?;
    let word = u64::from_str_radix(word, 16)?;
    let mut flat = FlatRam::new(alloc, Address(BASE), 512)?;
    walks(rt, alloc, &mut flat, word, wanted)?;
    let mut frames = FrameRam::new(alloc, Address(BASE), 512)?;
    walks(rt, alloc, &mut frames, word, wanted)
}

// Rows of a word, the result of the walk, and the result of the load.
const WALKS: &str = "\
00000000400007FD Ok(Leaf { phys: 1073746484, read: true, write: true, exec: true }) Ok(90)
00000000400003FD Err(AccessFlag) Err(AccessFlag)
00000000800007FD Ok(Leaf { phys: 2147488308, read: true, write: true, exec: true }) Err(OutsideRam)
0000000040200003 Err(OutsideRam) Err(OutsideRam)
FFFFFFFFFFFFFFFE Err(Translation) Err(Translation)";

#[test]
fn walks_any_word(rt: HostRuntime) -> Result<(), Fail> {
    for row in WALKS.lines() {
        check_walk(&rt, rt.alloc(), row)?;
    }
    Ok(())
}

// Returns the results of a fetch at the address, of a store of two bytes there, and then of a load of the eight bytes
// around it.
fn accessed(alloc: Global, memory: &mut FlatRam, value: u64) -> Result<String, AllocError> {
    if !is_in_ram(memory, u64::from(BASE)) {
        return format!(in alloc; "no table");
    }
    let fetched = fetch(memory, BASE, ADDRESS);
    let stored = store(memory, BASE, ADDRESS, Size::B2, value);
    let loaded = load(memory, BASE, ADDRESS - 4, Size::B8);
    format!(in alloc; "{fetched:?} {stored:?} {loaded:?}")
}

#[test]
fn stores_and_fetches(rt: HostRuntime) -> Result<(), Fail> {
    let alloc = rt.alloc();
    let mut memory = FlatRam::new(alloc, Address(BASE), 512)?;
    put(&mut memory, 0x0000_0000_4000_07FD);
    let wanted = format!(in alloc;
        "Ok({}) Ok(()) Ok({})",
        0x0807_065a_u32, 0x0807_1234_0403_0201_u64
    )?;
    let found = accessed(alloc, &mut memory, 0xFFFF_1234)?;
    same(&rt, found.as_str(), wanted.as_str());
    Ok(())
}
