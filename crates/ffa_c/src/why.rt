// SPDX-License-Identifier: MIT OR Apache-2.0
//! Why an operation of the runner would be refused now, or was refused just before, for C. A refused operation has
//! changed nothing, so both have the same reason.
ghost use Rattle.std.specs.Prelude.{◌≡◌, IfSome, Some, false, is_some};
ghost use Rattle.ffa_c.specs.Why.{is_refused, reason_held, sized, why_held};

use crate::exports::{CRegisters, size_of};
use crate::machine::CMachine;
use crate::reason::CReason;
use ffa_model::Op;

/// Explains why a call of the runner would be refused now, or was refused just before. Returns true, and writes the
/// reason to `reason`. Returns false if the call would be done, or if there is no machine. Then `reason` stays as it
/// was. The machine stays as it was.
#[unsafe(no_mangle)]
pub extern "C" fn gorseplumb_why_call(
    machine: &mut CMachine,
    registers: &CRegisters,
    reason: &mut CReason,
) -> bool
    ensures same { machine.new.held.value ≡ machine.old.held.value }
    ensures refused { result ≡ is_refused machine.old.held.value (Some (Op.Call registers.now.x)) }
    ensures there { result ≡ is_some (why_held machine.old.held.value (Some (Op.Call registers.now.x))) }
    ensures told { let op = Some (Op.Call registers.now.x) in
        IfSome (why_held machine.old.held.value op) (λ why. reason.new ≡ reason_held machine.old.held.value op why) }
    ensures kept { result ≡ false → reason.new ≡ reason.old }
{
    tell(machine, Some(Op::Call(registers.x)), reason)
}

/// Explains why a load of 1, 2, 4 or 8 bytes by the runner would be refused now, or was refused just before. Returns
/// true, and writes the reason to `reason`. Returns false if the load would be done, if it has another size, or if
/// there is no machine. Then `reason` stays as it was. The machine stays as it was.
#[unsafe(no_mangle)]
pub extern "C" fn gorseplumb_why_load(
    machine: &mut CMachine,
    addr: u64,
    size: u32,
    reason: &mut CReason,
) -> bool
    ensures same { machine.new.held.value ≡ machine.old.held.value }
    ensures refused { result ≡ is_refused machine.old.held.value (sized size (λ s. Op.Load addr s)) }
    ensures there { result ≡ is_some (why_held machine.old.held.value (sized size (λ s. Op.Load addr s))) }
    ensures told { let op = sized size (λ s. Op.Load addr s) in
        IfSome (why_held machine.old.held.value op) (λ why. reason.new ≡ reason_held machine.old.held.value op why) }
    ensures kept { result ≡ false → reason.new ≡ reason.old }
{
    tell(machine, load_of(addr, size), reason)
}

/// Explains why a store of 1, 2, 4 or 8 bytes by the runner would be refused now, or was refused just before. The value
/// of the store does not matter. Returns true, and writes the reason to `reason`. Returns false if the store would be
/// done, if it has another size, or if there is no machine. Then `reason` stays as it was. The machine stays as it was.
#[unsafe(no_mangle)]
pub extern "C" fn gorseplumb_why_store(
    machine: &mut CMachine,
    addr: u64,
    size: u32,
    reason: &mut CReason,
) -> bool
    ensures same { machine.new.held.value ≡ machine.old.held.value }
    ensures refused { result ≡ is_refused machine.old.held.value (sized size (λ s. Op.Store addr s 0)) }
    ensures there { result ≡ is_some (why_held machine.old.held.value (sized size (λ s. Op.Store addr s 0))) }
    ensures told { let op = sized size (λ s. Op.Store addr s 0) in
        IfSome (why_held machine.old.held.value op) (λ why. reason.new ≡ reason_held machine.old.held.value op why) }
    ensures kept { result ≡ false → reason.new ≡ reason.old }
{
    tell(machine, store_of(addr, size), reason)
}

/// Explains why a fetch of one instruction by the runner would be refused now, or was refused just before. Returns
/// true, and writes the reason to `reason`. Returns false if the fetch would be done, or if there is no machine. Then
/// `reason` stays as it was. The machine stays as it was.
#[unsafe(no_mangle)]
pub extern "C" fn gorseplumb_why_fetch(
    machine: &mut CMachine,
    addr: u64,
    reason: &mut CReason,
) -> bool
    ensures same { machine.new.held.value ≡ machine.old.held.value }
    ensures refused { result ≡ is_refused machine.old.held.value (Some (Op.Fetch addr)) }
    ensures there { result ≡ is_some (why_held machine.old.held.value (Some (Op.Fetch addr))) }
    ensures told { let op = Some (Op.Fetch addr) in
        IfSome (why_held machine.old.held.value op) (λ why. reason.new ≡ reason_held machine.old.held.value op why) }
    ensures kept { result ≡ false → reason.new ≡ reason.old }
{
    tell(machine, Some(Op::Fetch { addr }), reason)
}

// A load, if there is a size of this number of bytes.
fn load_of(addr: u64, size: u32) -> Option<Op>
    ensures { result ≡ sized size (λ s. Op.Load addr s) }
{
    match size_of(size) {
        Some(size) => Some(Op::Load { addr, size }),
        None => None,
    }
}

// A store, if there is a size of this number of bytes. No reason needs its value.
fn store_of(addr: u64, size: u32) -> Option<Op>
    ensures { result ≡ sized size (λ s. Op.Store addr s 0) }
{
    match size_of(size) {
        Some(size) => Some(Op::Store {
            addr,
            size,
            value: 0,
        }),
        None => None,
    }
}

// Writes why an operation would be refused, if it would be refused.
fn tell(machine: &mut CMachine, op: Option<Op>, reason: &mut CReason) -> bool
    ensures same { machine.new.held.value ≡ machine.old.held.value }
    ensures refused { result ≡ is_refused machine.old.held.value op }
    ensures there { result ≡ is_some (why_held machine.old.held.value op) }
    ensures told { IfSome (why_held machine.old.held.value op) (λ why.
        reason.new ≡ reason_held machine.old.held.value op why) }
    ensures kept { result ≡ false → reason.new ≡ reason.old }
{
    match op {
        Some(op) if machine.live => { reason.fill(machine.held.board().why(&op)) }
        _ => false,
    }
}
