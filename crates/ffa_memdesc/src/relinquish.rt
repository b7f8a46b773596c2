// SPDX-License-Identifier: MIT OR Apache-2.0
//! The descriptor of FFA_MEM_RELINQUISH.

ghost use Rattle.std.specs.Prelude.{◌≡◌, IfOk, IfErr, OnErr};
ghost use Rattle.std.specs.Result.{result_ok, result_err};
ghost use Rattle.ffa_model.specs.FirstFlaws.{relinquish_flaw};
ghost use Rattle.ffa_model.specs.Flaws.{RelinquishBreaks};
ghost use Rattle.ffa_model.specs.RelinquishDescriptor.{Relinquish, relinquish_of};
ghost use Rattle.ffa_model.specs.declared.descriptor.RelinquishDesc.{RelinquishDesc};

use crate::bytes::{Bytes, read_u16, read_u32, read_u64};
use ffa_model::{EndpointId, Flaw, RelinquishDesc, RelinquishFlaw};

/// The size of a relinquish descriptor with one endpoint, in bytes.
const SIZE: usize = 18;

/// Returns the contents of a relinquish descriptor of one endpoint, if the bytes are one.
///
/// # Errors
///
/// The first condition of a relinquish descriptor that the bytes break. No relinquish descriptor has these bytes then.
#[tactic(auto, unfolding(ffa_model::specs::RelinquishDescriptor::relinquish_of, ffa_model::specs::FirstFlaws::relinquish_flaw))]
pub fn read_relinquish<B: Bytes>(bytes: &B) -> Result<RelinquishDesc, Flaw>
    ensures found { IfOk result (λ d. Relinquish (B.bytes bytes.now) d) }
    ensures none { OnErr result ((r : RelinquishDesc) → Relinquish (B.bytes bytes.now) r → ⊥) }
    ensures computed { result_ok result ≡ relinquish_of (B.bytes bytes.now) }
    ensures broken { IfErr result (RelinquishBreaks (B.bytes bytes.now)) }
    ensures first { result_err result ≡ relinquish_flaw (B.bytes bytes.now) }
{
    if bytes.len() < SIZE {
        return Err(Flaw::Relinquish(RelinquishFlaw::Short));
    }
    let flags = read_u32(bytes, 8);
    if flags > 1 {
        return Err(Flaw::Relinquish(RelinquishFlaw::Flags));
    }
    if read_u32(bytes, 12) != 1 {
        return Err(Flaw::Relinquish(RelinquishFlaw::EndpointCount));
    }
    Ok(RelinquishDesc {
        handle: read_u64(bytes, 0),
        zero: flags == 1,
        endpoint: EndpointId(read_u16(bytes, 16)),
    })
}
