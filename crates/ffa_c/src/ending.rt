// SPDX-License-Identifier: MIT OR Apache-2.0
//! Ends a machine without a list.
ghost use Rattle.std.specs.Prelude.{◌≡◌, ◌≢◌, None};
ghost use Rattle.ffa_c.specs.Ending.{ended_answer};

use crate::codes::{LENT, NO_MACHINE, OK};
use crate::machine::{CMachine, end};
use std::alloc::Global;

/// Ends a machine in RAM from the heap. The RAM and the machine's memory go back to the heap. Returns `OK` if the
/// machine has ended. Otherwise returns `NO_MACHINE` if there is no machine, or `LENT` if the RAM is lent, so that only
/// `gorseplumb_end` gives it back to a list. Then nothing has changed.
#[unsafe(no_mangle)]
pub extern "C" fn gorseplumb_end_heap(alloc: Global, machine: &mut CMachine) -> u32
    ensures answer { result ≡ ended_answer machine.old.held.value }
    ensures ended { result ≡ 0 → machine.new.held.value ≡ None }
    ensures refused { result ≢ 0 → machine.new.held.value ≡ machine.old.held.value }
{
    if !machine.live {
        return NO_MACHINE;
    }
    if machine.held.board().is_lent() {
        return LENT;
    }
    end(machine, alloc);
    OK
}
