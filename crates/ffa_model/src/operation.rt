// SPDX-License-Identifier: MIT OR Apache-2.0
//! The operations of endpoints, and their outcomes.
ghost use Rattle.std.specs.Prelude.{◌≡◌};
ghost use Rattle.ffa_model.specs.Memory.{size_of};
ghost use Rattle.ffa_model.specs.Refusals.{is_refusal};

use crate::endpoint::EndpointId;
use crate::function::FFA_ERROR;

/// The number of bytes that a load or a store moves.
#[derive(Clone, Copy, PartialEq, Eq)]
pub enum Size {
    B1,
    B2,
    B4,
    B8,
}

impl Size {
    /// Returns the size as a number of bytes.
    pub fn bytes(self) -> u64
        ensures { result ≡ size_of self }
    {
        match self {
            Size::B1 => 1,
            Size::B2 => 2,
            Size::B4 => 4,
            Size::B8 => 8,
        }
    }
}

/// The reason of FFA_ERROR for a refused call (DEN0077A, 11.2): the codes -1 to -4, -6 and -9.
#[derive(Clone, Copy, Debug, PartialEq, Eq)]
pub enum ErrorCode {
    NotSupported,
    InvalidParameters,
    NoMemory,
    Busy,
    Denied,
    NoData,
}

/// The reason why an access faults.
#[derive(Clone, Copy, Debug, PartialEq, Eq)]
pub enum FaultKind {
    /// No descriptor maps the address.
    Translation = 1,
    /// The descriptor does not grant the access.
    Permission = 2,
    /// The address is not a multiple of the size.
    Alignment = 3,
    /// The descriptor's access flag is 0.
    AccessFlag = 4,
    /// The walk or the access leaves RAM.
    OutsideRam = 5,
}

/// An operation of the endpoint that runs: a call, a load, a store or a fetch.
#[derive(Clone, Copy)]
pub enum Op {
    /// A call, with the registers x0 to x7.
    Call([u64; 8]),
    Load { addr: u64, size: Size },
    /// A store of the lowest bytes of the value. The size says how many bytes.
    Store { addr: u64, size: Size, value: u64 },
    /// A fetch of one instruction, 4 bytes.
    Fetch { addr: u64 },
}

/// An act of a processor: it does an operation of the endpoint that runs on it, or takes an interrupt.
#[derive(Clone, Copy)]
pub enum Act {
    Operate(Op),
    Interrupt,
}

/// The outcome of an operation.
#[derive(Clone, Copy)]
pub enum Outcome {
    /// The endpoint that runs next, and the registers x0 to x7 that it sees.
    Regs { runner: EndpointId, x: [u64; 8] },
    /// The bytes of a load or a fetch as a number, whose lowest byte is the first byte.
    // It has no size, although a trace prints two digits for each byte. A size would change each clause that names
    // `Data`, and save only one arm that no access reaches.
    Data(u64),
    /// The store succeeded.
    Done,
    Fault(FaultKind),
}

/// The result of an operation on a machine where interrupts may preempt partitions.
#[derive(Clone, Copy)]
pub enum Effect {
    Outcome(Outcome),
    /// A preempted partition runs next. It continues where it was, and sees only its own registers.
    Resumed(EndpointId),
}

impl Outcome {
    /// Whether the outcome refuses the operation: the registers begin with FFA_ERROR, or it is a fault.
    pub fn is_refusal(&self) -> bool
        ensures { result ≡ is_refusal self.now }
    {
        match self {
            Outcome::Regs { x, .. } => x[0] == u64::from(FFA_ERROR),
            Outcome::Fault(_) => true,
            Outcome::Data(_) | Outcome::Done => false,
        }
    }
}
