// SPDX-License-Identifier: MIT OR Apache-2.0
//! Lines that reclaim memory.

ghost use Rattle.std.specs.Prelude.{◌≡◌, OnOk, OnErr};
ghost use Rattle.ffa_model.specs.declared.operation.Op.TheVariants.{Call};
ghost use Rattle.play_trace.specs.Script.{GrowsBy};
ghost use Rattle.play_trace.specs.Written.{reclaim_with};

use crate::operation::put_operation;
use ffa_model::Op;
use ffa_model::function::FFA_MEM_RECLAIM;
use std::alloc::{AllocError, Allocator};

/// The contents of the registers of FFA_MEM_RECLAIM (DEN0077A, 16).
#[derive(Clone, Copy, Debug, PartialEq, Eq)]
pub struct Reclaim {
    pub handle: u64,
    /// Whether the reclaim must zero the pages.
    pub zero: bool,
}

// Returns the registers of the call: the identifier, the low half of the handle, its high half, and the flags.
fn reclaim_with(reclaim: Reclaim) -> [u64; 8]
    ensures { result ≡ reclaim_with reclaim }
{
    let function = u64::from(FFA_MEM_RECLAIM);
    let (low, high) = (
        reclaim.handle % 0x1_0000_0000,
        reclaim.handle / 0x1_0000_0000,
    );
    [function, low, high, reclaim.zero as u64, 0, 0, 0, 0]
}

/// Appends the line of a call of FFA_MEM_RECLAIM to a text. If there is no memory, the text stays as it is.
pub fn put_reclaim<A: Allocator>(text: &mut Vec<u8, A>, reclaim: Reclaim) -> Result<(), AllocError>
    ensures written { OnOk result (GrowsBy (Call (reclaim_with reclaim)) text.old.items text.new.items) }
    ensures kept { OnErr result (text.new.items ≡ text.old.items) }
{
    put_operation(text, &Op::Call(reclaim_with(reclaim)))
}
