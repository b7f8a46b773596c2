// SPDX-License-Identifier: MIT OR Apache-2.0
//! The number of steps of calls on memory, compared with the bound of the definitions. The number is at most the bound,
//! and the bound is at most twice the number.
use super::memory::{MAPPED, TO_FIRST, TO_SECOND};
use super::*;
use crate::checks::holds_at;
use ffa_manifest::{ManifestError, of_parts};
use ffa_model::{Ffa, MOST_RANGES, PageNo};
use ffa_physmem::FlatRam;
use ffa_reasons::Explained;
use ffa_recorded::Recorded;
use ffa_spmc::Machine;
use fixtures::writable;
use std::fmt::Write;

// The room of the record for steps. A boot clears 16,384 pages, and the lend stores some 16,000 words.
const ROOM: usize = 40960;

// The number of blocks of RAM. The first partition has half of the first block, page by page, and each other block
// whole.
const BLOCKS: u32 = 32;

// The header of the lend, and its one receiver.
const LEND: &str = "\
store 4002E000 0000000000008001 -> done
store 4002E018 0000000100000010 -> done
store 4002E020 0000000000000030 -> done
store 4002E030 0000004000028002 -> done
store 4002E040 0000004000000040 -> done
";

const RETRIEVE: &str = "\
store 4003E000 0000000000008001 -> done
store 4003E008 0000800100000001 -> done
store 4003E018 0000000100000010 -> done
store 4003E020 0000000000000030 -> done
store 4003E030 0000000000028002 -> done
call 84000074 40 40 -> 8002: 84000075 450 450
call 84000065 -> 8002: 84000061
store 4003E000 0000800100000001 -> done
store 4003E008 0000000100000001 -> done
store 4003E010 8002 -> done
";

// Returns the machine of the rows with this number of blocks. Its tables come after the regions of the rows.
fn many_blocks() -> Result<Manifest, ManifestError> {
    let mut endpoints = row_machine().endpoints;
    if let Some(endpoint) = endpoints.get_mut(1) {
        let region = writable(0x4010_0000, 256 + 512 * (BLOCKS - 1));
        let _ = endpoint.regions.try_push(region);
    }
    of_parts(0x4000_0000, BLOCKS, PageNo(64), endpoints, Ffa::V1_1)
}

// Returns the number of recorded steps, or 0 if the record has ended.
fn recorded(player: &Player<Explained<Recorded>>) -> usize {
    player.machine().0.ram().steps().unwrap_or(0)
}

// Asserts that a call takes at most `bound` steps, and at least half of them.
fn is_within(
    rt: &impl Abort,
    alloc: Global,
    player: &mut Player<Explained<Recorded>>,
    call: &str,
    bound: usize,
) -> Result<(), Fail> {
    let before = recorded(player);
    goes_on(rt, alloc, player, call)?;
    let steps = recorded(player).saturating_sub(before);
    holds_at(rt, steps <= bound, &call);
    holds_at(rt, bound.saturating_sub(steps) <= steps, &call);
    Ok(())
}

// Returns the address of the page of a range. Each of the first 31 ranges is in a block of its own, and the others are
// in the first block.
fn address_of(range: u8) -> u32 {
    let range = u32::from(range);
    if range < BLOCKS - 1 {
        return 0x4020_0000 + 0x20_0000 * range + 0x5000;
    }
    0x4010_0000 + 0x2000 * (range - (BLOCKS - 1))
}

// Returns the lines that store the ranges of the lend.
fn ranges(alloc: Global) -> Result<String, Fail> {
    let mut lines = String::new(alloc);
    for range in 0..MOST_RANGES as u8 {
        let place = 0x4002_E050 + 16 * u32::from(range);
        let address = address_of(range);
        writeln!(lines, "store {place:08X} {address:016X} -> done")?;
        let pages = place + 8;
        writeln!(lines, "store {pages:08X} 0000000000000001 -> done")?;
    }
    Ok(lines)
}

// A lend of the most ranges splits 31 blocks, its relinquish writes zeros, and its reclaim joins the blocks again.
#[test]
fn calls_take_half_of_the_bound_at_least(rt: HostRuntime) -> Result<(), Fail> {
    let alloc = rt.alloc();
    let manifest = many_blocks()?;
    let ram = FlatRam::new(alloc, manifest.ram_base, 512 * manifest.ram_blocks)?;
    let ram = Recorded::new(alloc, ram, ROOM)?;
    let mut player = Player::new(Explained(Machine::boot_with(&manifest, ram, NoTlb)));
    goes_on(&rt, alloc, &mut player, MAPPED)?;
    goes_on(&rt, alloc, &mut player, LEND)?;
    goes_on(&rt, alloc, &mut player, ranges(alloc)?.as_str())?;
    // Each range takes a word for its page, two words and a settle for its block, and a settle. Each of 31 blocks takes
    // 516 words and two settles.
    is_within(
        &rt,
        alloc,
        &mut player,
        "call 84000072 450 450 -> 8001: 84000061 0 1 8001\n",
        64 * 5 + 31 * 518,
    )?;
    goes_on(&rt, alloc, &mut player, TO_SECOND)?;
    goes_on(&rt, alloc, &mut player, RETRIEVE)?;
    // Each range takes the same steps, and a loan for its page. No block is split.
    is_within(
        &rt,
        alloc,
        &mut player,
        "call 84000076 -> 8002: 84000061\n",
        64 * 6,
    )?;
    goes_on(&rt, alloc, &mut player, TO_FIRST)?;
    // Each range takes the same steps without its own settle and without a loan.
    is_within(
        &rt,
        alloc,
        &mut player,
        "call 84000077 1 8001 0 -> 8001: 84000061\n",
        64 * 4,
    )?;
    Ok(())
}
