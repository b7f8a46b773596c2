// SPDX-License-Identifier: MIT OR Apache-2.0
//! The receivers of a send, which its access descriptors name.

ghost use Rattle.std.specs.Prelude.{◌≡◌, ℕ, ◌+◌, ◌*◌, ◌≤◌, length, Some, IfOk};
ghost use Rattle.std.specs.Option.{option_map};
ghost use Rattle.std.specs.Result.{result_err};
ghost use Rattle.ffa_model.specs.declared.limits.TheConstants.{MOST_RECEIVERS};
ghost use Rattle.ffa_model.specs.DescriptorPlaces.{accesses_size, data_of, in_version};
ghost use Rattle.ffa_model.specs.FirstFlaws.{first_of};
ghost use Rattle.ffa_model.specs.SendDescriptor.{is_grant, is_named};
ghost use Rattle.ffa_model.specs.declared.flaw.Flaw.TheVariants.{Access as FlawOfAccess};
ghost use Rattle.ffa_memdesc.specs.Reading.{receiver_of, receivers_of, access_flaw_at, access_flaw_after};

use crate::access::read_access;
use crate::bytes::Bytes;
use crate::header::{Header, accesses_size};
use arrayvec::ArrayVec;
use ffa_model::{AccessFlaw, Data, EndpointId, Flaw, Kind, MOST_RECEIVERS, Receiver, Version};

/// Whether a send of this kind may grant these permissions.
fn is_grant(kind: Kind, permissions: u8) -> bool
    ensures { result ≡ is_grant kind permissions }
{
    match kind {
        Kind::Donate => permissions == 0,
        Kind::Share | Kind::Lend => permissions == 1 || permissions == 2,
    }
}

/// Returns the data right of a code: 01 is read-only, and 10 is read and write. For any other code, returns `None`.
pub fn data_of(code: u8) -> Option<Data>
    ensures { result ≡ data_of code }
{
    match code {
        1 => Some(Data::Ro),
        2 => Some(Data::Rw),
        _ => None,
    }
}

/// Whether one of the receivers is this endpoint.
pub fn is_named(endpoint: EndpointId, receivers: &[Receiver]) -> bool
    ensures { result ≡ is_named endpoint.0 receivers.now }
{
    receivers.iter().any(|r| r.endpoint.0 == endpoint.0)
}

/// Returns the receiver that the access descriptor at this place names. The receiver may not be the sender or one of
/// the earlier receivers.
///
/// An error is the first condition that the access descriptor breaks.
#[tactic(auto, unfolding(crate::specs::Reading::receiver_of, crate::specs::Reading::access_flaw_at))]
fn read_receiver<B: Bytes>(
    bytes: &B,
    version: Version,
    kind: Kind,
    sender: EndpointId,
    composite: u32,
    at: usize,
    earlier: &[Receiver],
) -> Result<Receiver, AccessFlaw>
    requires { at + accesses_size version 1 ≤ length (B.bytes bytes.now) }
    ensures found { let b = in_version version (B.bytes bytes.now) in
        IfOk result (λ r. Some r ≡ receiver_of kind sender.0 composite b at earlier.now) }
    ensures first { (i : ℕ) → option_map (λ flaw. FlawOfAccess i flaw) (result_err result)
        ≡ access_flaw_at kind sender.0 composite (in_version version (B.bytes bytes.now)) at earlier.now i }
{
    let access = read_access(bytes, version, at);
    if !is_grant(kind, access.permissions) {
        return Err(AccessFlaw::Permissions);
    }
    if access.flags != 0 {
        return Err(AccessFlaw::Flags);
    }
    if access.composite != composite {
        return Err(AccessFlaw::OtherComposite);
    }
    if !access.is_rest_zero {
        return Err(AccessFlaw::Reserved);
    }
    if access.endpoint.0 == sender.0 {
        return Err(AccessFlaw::ReceiverIsSender);
    }
    if is_named(access.endpoint, earlier) {
        return Err(AccessFlaw::ReceiverTwice);
    }
    Ok(Receiver {
        endpoint: access.endpoint,
        grant: data_of(access.permissions),
    })
}

/// Returns the receivers that the access descriptors of a send name.
///
/// # Errors
///
/// The first condition that an access descriptor breaks, with the index of this access descriptor.
pub fn read_receivers<B: Bytes>(
    bytes: &B,
    version: Version,
    kind: Kind,
    header: &Header,
    composite: u32,
) -> Result<ArrayVec<Receiver, MOST_RECEIVERS>, Flaw>
    requires few { header.now.count ≤ MOST_RECEIVERS }
    requires inside { header.now.array + accesses_size version header.now.count ≤ length (B.bytes bytes.now) }
    ensures found { let sender = header.now.sender.0 in let array = header.now.array in let count = header.now.count in
        let b = in_version version (B.bytes bytes.now) in
        IfOk result (λ v. Some v.items ≡ receivers_of kind sender composite b array count) }
    ensures first { let sender = header.now.sender.0 in let array = header.now.array in
        let broken = access_flaw_after kind sender composite (in_version version (B.bytes bytes.now)) array in
        result_err result ≡ first_of header.now.count broken }
{
    let mut receivers = ArrayVec::new();
    for i in 0..header.count {
        let at = header.array as usize + accesses_size(version, i) as usize;
        match read_receiver(
            bytes,
            version,
            kind,
            header.sender,
            composite,
            at,
            &receivers,
        ) {
            Ok(receiver) => receivers.push(receiver),
            Err(flaw) => return Err(Flaw::Access(i, flaw)),
        }
    }
    Ok(receivers)
}
