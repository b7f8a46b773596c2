// SPDX-License-Identifier: MIT OR Apache-2.0
//! Operations that C gives in a list.
ghost use Rattle.std.specs.Prelude.{◌≡◌, drop, length, min, take};
ghost use Rattle.ffa_c.specs.Operations.{HaveRun, OperatedGiven, op_given};

use crate::codes::{
    KIND_BAD_SIZE, OPERATION_CALL, OPERATION_FETCH, OPERATION_LOAD, OPERATION_STORE,
};
use crate::exports::{operate, size_of};
use crate::machine::CMachine;
use crate::outcome::COutcome;
use ffa_model::Op;

/// An operation in a list of C. The library does not read a field that the kind does not use.
#[repr(C)]
#[derive(Clone, Copy)]
pub struct COperation {
    /// The kind of the operation, one of `OPERATION_CALL` to `OPERATION_FETCH`.
    pub kind: u32,
    /// The number of bytes of a load or a store.
    pub size: u32,
    /// The address of a load, a store or a fetch.
    pub address: u64,
    /// The value of a store.
    pub value: u64,
    /// The registers of a call, x0 to x7.
    pub x: [u64; 8],
}

/// Does the operations of a list one after another. Each operation is of the endpoint that runs at that time, and does
/// what the function of its kind does. Returns the number of operations that it did: the lesser of the lengths of both
/// lists. For an unknown kind or size, nothing is done, the kind of the outcome is `KIND_BAD_SIZE`, and the next
/// operation follows. The other places of `outcomes` stay as they were.
#[unsafe(no_mangle)]
pub extern "C" fn gorseplumb_run(
    machine: &mut CMachine,
    operations: &[COperation],
    outcomes: &mut [COutcome],
) -> usize
    ensures count { result ≡ min (length operations.now) (length outcomes.old) }
    ensures run { let given = take result operations.now in let told = take result outcomes.new in
        HaveRun machine.old.held.value given told machine.new.held.value }
    ensures rest { drop result outcomes.new ≡ drop result outcomes.old }
{
    let count = operations.len().min(outcomes.len());
    for place in 0..count {
        outcomes[place] = do_given(machine, &operations[place]);
    }
    count
}

fn do_given(machine: &mut CMachine, operation: &COperation) -> COutcome
    ensures { OperatedGiven (op_given operation.now) machine.old.held.value machine.new.held.value result }
{
    match op_of(operation) {
        Some(op) => operate(machine, &op),
        None => COutcome::nothing(KIND_BAD_SIZE),
    }
}

fn op_of(operation: &COperation) -> Option<Op>
    ensures { result ≡ op_given operation.now }
{
    let addr = operation.address;
    match operation.kind {
        OPERATION_CALL => Some(Op::Call(operation.x)),
        OPERATION_LOAD => {
            let size = size_of(operation.size)?;
            Some(Op::Load { addr, size })
        }
        OPERATION_STORE => {
            let size = size_of(operation.size)?;
            let value = operation.value;
            Some(Op::Store { addr, size, value })
        }
        OPERATION_FETCH => Some(Op::Fetch { addr }),
        _ => None,
    }
}
