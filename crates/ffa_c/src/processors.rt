// SPDX-License-Identifier: MIT OR Apache-2.0
//! The processor that C selects, and its interrupts.
ghost use Rattle.std.specs.Prelude.{◌≡◌};
ghost use Rattle.ffa_c.specs.Processors.{Interrupted, Selected};

use crate::codes::KIND_NO_MACHINE;
use crate::machine::CMachine;
use crate::outcome::COutcome;
use ffa_model::MOST_PROCESSORS;

/// Selects a processor, from 0 to 7. From then on, every operation is of the runner there, and every question is about
/// the machine as this processor sees it. Returns true if the processor is selected. Returns false if there is no such
/// processor or no machine, and then nothing changes.
#[unsafe(no_mangle)]
pub extern "C" fn gorseplumb_select(machine: &mut CMachine, processor: u32) -> bool
    ensures { Selected machine.old.held.value machine.new.held.value processor result }
{
    let processor = processor as usize;
    if !machine.live || processor >= MOST_PROCESSORS {
        return false;
    }
    machine.held.seat_mut().select(processor);
    true
}

/// Does what an interrupt does that the selected processor takes, and that the normal world must handle. A partition
/// that runs there stops where it is. The normal world then runs, and sees which partition it was. If the normal world
/// runs there, nothing changes. If there is no machine, the kind of the outcome is `KIND_NO_MACHINE`, and nothing was
/// done.
#[unsafe(no_mangle)]
pub extern "C" fn gorseplumb_interrupt(machine: &mut CMachine) -> COutcome
    ensures { Interrupted machine.old.held.value machine.new.held.value result }
{
    if machine.live {
        machine.held.seat_mut().interrupt()
    } else {
        COutcome::nothing(KIND_NO_MACHINE)
    }
}
