// SPDX-License-Identifier: MIT OR Apache-2.0
//! The machine that C holds.
ghost use Rattle.std.specs.Prelude.{◌≡◌, None, IfSome, IsSome, is_some};
ghost use Rattle.std.specs.Option.{option_and_then};

use crate::held::Held;
use crate::seat::Seat;
use std::alloc::Global;
use std::mem;

/// A machine that C holds, or no machine. Memory of zeros has no machine.
#[repr(C)]
pub struct CMachine {
    /// Whether there is a machine.
    pub live: bool,
    /// The pointer to the machine.
    pub held: Held,
    pub ghost agree: { live ≡ is_some held.value },
}

/// Takes the machine out, in its seat, if there is a machine.
pub fn take(machine: &mut CMachine, alloc: Global) -> Option<Box<Seat>>
    ensures taken { machine.old.held.value ≡ option_and_then (λ b. b.value) result }
    ensures there { IfSome result (λ b. IsSome b.value) }
    ensures none_left { machine.new.held.value ≡ None }
{
    if machine.live {
        let held = mem::replace(&mut machine.held, Held::none(alloc));
        machine.live = false;
        Some(held.open())
    } else {
        None
    }
}

/// Ends the machine. All its memory goes back to where it came from: the seat has no other way out of this function.
// No clause says so, because the logic may drop memory. `tests/docs` looks for code that keeps it.
pub fn end(machine: &mut CMachine, alloc: Global)
    ensures { machine.new.held.value ≡ None }
{
    drop(take(machine, alloc));
}

/// Puts a machine, in its seat, at a place without a machine.
pub fn put(machine: &mut CMachine, seat: Box<Seat>)
    requires none { machine.old.held.value ≡ None }
    requires there { IsSome seat.value }
    ensures { machine.new.held.value ≡ seat.value }
{
    mem::replace(&mut machine.held, Held::close(seat)).end();
    machine.live = true;
}
