// SPDX-License-Identifier: MIT OR Apache-2.0
//! Calls in RAM that keeps a record of its steps. The record goes on over words of tables, settling, zeros, a copy, and
//! pages that are lent for writing.
use super::memory::{MAPPED, RETRIEVE, RETRIEVED, TO_FIRST, TO_SECOND};
use super::*;
use crate::checks::holds_at;
use ffa_physmem::FlatRam;
use ffa_reasons::Explained;
use ffa_recorded::Recorded;
use ffa_spmc::Machine;

// The room of the record for steps. The boot makes the first steps, because it clears 512 pages.
const ROOM: usize = 1024;

// The first partition lends the page at 40021000 to the second, with zeros.
const LEND: &str = "\
store 4002E000 0000000100008001 -> done
store 4002E018 0000000100000010 -> done
store 4002E020 0000000000000030 -> done
store 4002E030 0000004000028002 -> done
store 4002E040 0000000100000001 -> done
store 4002E050 0000000040021000 -> done
store 4002E058 0000000000000001 -> done
call 84000072 60 60 -> 8001: 84000061 0 1 8001
";

// The second partition has read the response.
const RELEASE: &str = "call 84000065 -> 8002: 84000061\n";

// The first partition sends the second a message of eight bytes.
const MESSAGE: &str = "\
store 4002E000 0000000000000000 -> done
store 4002E008 0000000000000014 -> done
store 4002E00C 80018002 -> done
store 4002E010 0000000000000008 -> done
call 84000086 -> 8001: 84000061
";

// Returns the machine of the rows, whose first partition runs.
fn recorded_machine(rt: &impl Abort, alloc: Global) -> Result<Player<Explained<Recorded>>, Fail> {
    let manifest = row_machine();
    let ram = FlatRam::new(alloc, manifest.ram_base, 512 * manifest.ram_blocks)?;
    let ram = Recorded::new(alloc, ram, ROOM)?;
    let mut player = Player::new(Explained(Machine::boot_with(&manifest, ram, NoTlb)));
    goes_on(rt, alloc, &mut player, MAPPED)?;
    Ok(player)
}

// Returns the number of recorded steps, or 0 if the record has ended.
fn recorded(player: &Player<Explained<Recorded>>) -> usize {
    player.machine().0.ram().steps().unwrap_or(0)
}

// Plays a step that writes to RAM, and asserts that it is recorded.
fn is_recorded(
    rt: &impl Abort,
    alloc: Global,
    player: &mut Player<Explained<Recorded>>,
    step: &str,
) -> Result<(), Fail> {
    let before = recorded(player);
    goes_on(rt, alloc, player, step)?;
    holds_at(rt, recorded(player) > before, &step);
    Ok(())
}

// The record goes on over a lend with zeros, its retrieve and a message.
#[test]
fn a_record_goes_on(rt: HostRuntime) -> Result<(), Fail> {
    let mut player = recorded_machine(&rt, rt.alloc())?;
    for step in LEND.lines() {
        is_recorded(&rt, rt.alloc(), &mut player, step)?;
    }
    goes_on(&rt, rt.alloc(), &mut player, TO_SECOND)?;
    for step in RETRIEVE.lines() {
        is_recorded(&rt, rt.alloc(), &mut player, step)?;
    }
    is_recorded(&rt, rt.alloc(), &mut player, RETRIEVED)?;
    goes_on(&rt, rt.alloc(), &mut player, RELEASE)?;
    goes_on(&rt, rt.alloc(), &mut player, TO_FIRST)?;
    for step in MESSAGE.lines() {
        is_recorded(&rt, rt.alloc(), &mut player, step)?;
    }
    Ok(())
}
