// SPDX-License-Identifier: MIT OR Apache-2.0
//! The operations of C: a call, a load, a store and a fetch. `c/gorseplumb.h` declares them, and all other functions
//! that C calls.
ghost use Rattle.std.specs.Prelude.{◌≡◌, Some, None};
ghost use Rattle.ffa_c.specs.Border.{Operated, OperatedSized, size_at};

use crate::codes::{KIND_BAD_SIZE, KIND_NO_MACHINE};
use crate::machine::CMachine;
use crate::outcome::COutcome;
use ffa_model::{Op, Size};

/// The registers of a call, x0 to x7, as C passes them.
#[repr(C)]
#[derive(Clone, Copy)]
pub struct CRegisters {
    /// The values of x0 to x7.
    pub x: [u64; 8],
}

/// Does a call of the runner of the selected processor, with eight registers. An FFA_RUN of a partition that an
/// interrupt stopped lets this partition continue. If there is no machine, the kind of the outcome is
/// `KIND_NO_MACHINE`, and nothing was done.
#[unsafe(no_mangle)]
pub extern "C" fn gorseplumb_call(machine: &mut CMachine, registers: &CRegisters) -> COutcome
    ensures { Operated machine.old.held.value machine.new.held.value (Op.Call registers.now.x) result }
{
    operate(machine, &Op::Call(registers.x))
}

/// Does a load of 1, 2, 4 or 8 bytes by the runner of the selected processor. For another size, the kind of the outcome
/// is `KIND_BAD_SIZE`, with a machine or without one. Otherwise it is `KIND_NO_MACHINE` if there is no machine. With
/// these two kinds, nothing was done.
#[unsafe(no_mangle)]
pub extern "C" fn gorseplumb_load(machine: &mut CMachine, addr: u64, size: u32) -> COutcome
    ensures { OperatedSized machine.old.held.value machine.new.held.value size (λ s. Op.Load addr s) result }
{
    match size_of(size) {
        Some(size) => operate(machine, &Op::Load { addr, size }),
        None => COutcome::nothing(KIND_BAD_SIZE),
    }
}

/// Does a store of the value's lowest 1, 2, 4 or 8 bytes by the runner of the selected processor. For another size, the
/// kind of the outcome is `KIND_BAD_SIZE`, with a machine or without one. Otherwise it is `KIND_NO_MACHINE` if there is
/// no machine. With these two kinds, nothing was done.
#[unsafe(no_mangle)]
pub extern "C" fn gorseplumb_store(
    machine: &mut CMachine,
    addr: u64,
    size: u32,
    value: u64,
) -> COutcome
    ensures { OperatedSized machine.old.held.value machine.new.held.value size (λ s. Op.Store addr s value) result }
{
    match size_of(size) {
        Some(size) => operate(machine, &Op::Store { addr, size, value }),
        None => COutcome::nothing(KIND_BAD_SIZE),
    }
}

/// Does a fetch of one instruction by the runner of the selected processor. If there is no machine, the kind of the
/// outcome is `KIND_NO_MACHINE`, and nothing was done.
#[unsafe(no_mangle)]
pub extern "C" fn gorseplumb_fetch(machine: &mut CMachine, addr: u64) -> COutcome
    ensures { Operated machine.old.held.value machine.new.held.value (Op.Fetch addr) result }
{
    operate(machine, &Op::Fetch { addr })
}

/// Does an operation of the runner of the selected processor, if there is a machine.
#[inline]
pub(crate) fn operate(machine: &mut CMachine, op: &Op) -> COutcome
    ensures { Operated machine.old.held.value machine.new.held.value op.now result }
{
    let mut outcome = COutcome::nothing(KIND_NO_MACHINE);
    if machine.live {
        machine.held.seat_mut().op(op, &mut outcome);
    }
    outcome
}

// The size of an access of this number of bytes, if there is such a size.
pub(crate) fn size_of(bytes: u32) -> Option<Size>
    ensures { result ≡ size_at bytes }
{
    match bytes {
        1 => Some(Size::B1),
        2 => Some(Size::B2),
        4 => Some(Size::B4),
        8 => Some(Size::B8),
        _ => None,
    }
}
