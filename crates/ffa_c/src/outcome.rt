// SPDX-License-Identifier: MIT OR Apache-2.0
//! Outcomes as C sees them.
ghost use Rattle.std.specs.Prelude.{◌≡◌, replicate};
ghost use Rattle.ffa_c.specs.Border.{packed, packed_effect, nothing_done, fault_number};

use crate::codes::{
    FAULT_ACCESS_FLAG, FAULT_ALIGNMENT, FAULT_OUTSIDE_RAM, FAULT_PERMISSION, FAULT_TRANSLATION,
    KIND_DATA, KIND_DONE, KIND_FAULT, KIND_REGISTERS, KIND_RESUMED,
};
use ffa_model::{Effect, FaultKind, Outcome};

/// The outcome of an operation or an interrupt, as C sees it. A field that the kind does not name is zero.
#[repr(C)]
#[derive(Clone, Copy)]
pub struct COutcome {
    /// The kind of the outcome, one of `KIND_REGISTERS` to `KIND_RESUMED`.
    pub kind: u32,
    /// The endpoint that runs next, with registers or where an interrupt stopped it.
    pub runner: u32,
    /// The data of a load or a fetch; or the fault, one of `FAULT_TRANSLATION` to `FAULT_OUTSIDE_RAM`.
    pub value: u64,
    /// The registers x0 to x7 that the runner sees.
    pub x: [u64; 8],
}

impl COutcome {
    /// Returns this outcome in the form for C.
    #[inline]
    pub fn of(outcome: &Outcome) -> COutcome
        ensures { result ≡ packed outcome.now }
    {
        let mut told = COutcome::nothing(KIND_DONE);
        told.tell_outcome(outcome);
        told
    }

    /// Writes the effect of an operation to this outcome, in place.
    #[inline]
    pub fn tell(&mut self, effect: &Effect)
        ensures { self.new ≡ packed_effect effect.now }
    {
        match effect {
            Effect::Outcome(outcome) => self.tell_outcome(outcome),
            Effect::Resumed(partition) => {
                *self = COutcome {
                    kind: KIND_RESUMED,
                    runner: u32::from(partition.0),
                    value: 0,
                    x: [0; 8],
                }
            }
        }
    }

    // Writes the outcome of an operation by which no partition resumes.
    #[inline]
    fn tell_outcome(&mut self, outcome: &Outcome)
        ensures { self.new ≡ packed outcome.now }
    {
        match outcome {
            Outcome::Regs { runner, x } => {
                *self = COutcome {
                    kind: KIND_REGISTERS,
                    runner: u32::from(runner.0),
                    value: 0,
                    x: *x,
                }
            }
            Outcome::Data(value) => *self = plain(KIND_DATA, *value),
            Outcome::Done => *self = plain(KIND_DONE, 0),
            Outcome::Fault(fault) => *self = plain(KIND_FAULT, u64::from(fault_code(*fault))),
        }
    }

    /// Returns the outcome of this kind after which nothing was done.
    pub fn nothing(kind: u32) -> COutcome
        ensures { result ≡ nothing_done kind }
    {
        plain(kind, 0)
    }
}

fn plain(kind: u32, value: u64) -> COutcome
    ensures kind { result.kind ≡ kind }
    ensures runner { result.runner ≡ 0 }
    ensures value { result.value ≡ value }
    ensures x { result.x ≡ replicate 8 0 }
{
    COutcome {
        kind,
        runner: 0,
        value,
        x: [0; 8],
    }
}

/// Returns the number that C has for a fault.
pub(crate) fn fault_code(fault: FaultKind) -> u32
    ensures { result ≡ fault_number fault }
{
    match fault {
        FaultKind::Translation => FAULT_TRANSLATION,
        FaultKind::Permission => FAULT_PERMISSION,
        FaultKind::Alignment => FAULT_ALIGNMENT,
        FaultKind::AccessFlag => FAULT_ACCESS_FLAG,
        FaultKind::OutsideRam => FAULT_OUTSIDE_RAM,
    }
}
