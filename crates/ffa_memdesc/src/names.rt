// SPDX-License-Identifier: MIT OR Apache-2.0
//! The endpoints that the access descriptors of a retrieve name.

ghost use Rattle.std.specs.Prelude.{◌≡◌, ℕ, ◌+◌, ◌≤◌, ◌<◌, ◌==◌, length};
ghost use Rattle.std.specs.List.{list_all, list_any};
ghost use Rattle.std.specs.Option.{option_map};
ghost use Rattle.std.specs.Result.{result_err};
ghost use Rattle.ffa_model.specs.declared.limits.TheConstants.{MOST_RECEIVERS};
ghost use Rattle.ffa_model.specs.declared.flaw.Flaw.TheVariants.{Access as FlawOfAccess};
ghost use Rattle.ffa_model.specs.declared.transaction.Receiver.{Receiver as Named};
ghost use Rattle.ffa_model.specs.DescriptorPlaces.{IsHeader, accesses_size, in_version, receiver_count};
ghost use Rattle.ffa_model.specs.Lists.{listed};
ghost use Rattle.ffa_model.specs.RetrieveDescriptor.{endpoints_named, are_receivers};
ghost use Rattle.ffa_model.specs.SendDescriptor.{is_named};
ghost use Rattle.ffa_memdesc.specs.Reading.{index_after, named_after, names_flaw_after, naming_flaw_at, own_index_after};

use crate::access::read_access;
use crate::bytes::{Bytes, read_u16, read_u32};
use crate::header::{Header, accesses_size, read_array};
use crate::receivers::is_named;
use ffa_model::{AccessFlaw, EndpointId, Ffa, Flaw, Receiver, Version};

/// Returns the endpoint that the access descriptor with this index names. The array of access descriptors begins at
/// this place.
fn endpoint_named<B: Bytes>(bytes: &B, version: Version, array: u32, index: u32) -> EndpointId
    requires { array + accesses_size version (index + 1) ≤ length (B.bytes bytes.now) }
    ensures { result.0 ≡ named_after (in_version version (B.bytes bytes.now)) array index }
{
    // Proof step: the number of bytes fits a usize.
    let _ = bytes.len();
    let at = array as usize + accesses_size(version, index) as usize;
    EndpointId(read_u16(bytes, at))
}

/// Whether one of the first `count` access descriptors names an endpoint.
fn is_among_first<B: Bytes>(
    bytes: &B,
    version: Version,
    array: u32,
    count: u32,
    endpoint: EndpointId,
) -> bool
    requires { array + accesses_size version count ≤ length (B.bytes bytes.now) }
    ensures { let named = listed count (named_after (in_version version (B.bytes bytes.now)) array) in
        result ≡ list_any (λ e. e == endpoint.0) named }
{
    for i in 0..count {
        if endpoint_named(bytes, version, array, i) == endpoint {
            return true;
        }
    }
    false
}

/// Returns the index of the first access descriptor that names an endpoint. If no access descriptor names it, returns
/// 0.
fn index_of<B: Bytes>(bytes: &B, version: Version, endpoint: EndpointId, header: &Header) -> u32
    requires some { 1 ≤ header.now.count }
    requires inside { header.now.array + accesses_size version header.now.count ≤ length (B.bytes bytes.now) }
    ensures value { let b = in_version version (B.bytes bytes.now) in
        result ≡ index_after endpoint.0 b header.now.array header.now.count }
    ensures few { result < header.now.count }
{
    for i in 0..header.count {
        if endpoint_named(bytes, version, header.array, i) == endpoint {
            return i;
        }
    }
    0
}

/// Returns the index of the access descriptor that has the caller's request, counted from 0. In FF-A 1.1 it is 0. In
/// FF-A 1.2 it is the index of the first access descriptor that names the caller. If no access descriptor names the
/// caller, it is 0.
pub fn own_index<B: Bytes>(
    bytes: &B,
    ffa: Ffa,
    version: Version,
    endpoint: EndpointId,
    header: &Header,
) -> u32
    requires some { 1 ≤ header.now.count }
    requires inside { header.now.array + accesses_size version header.now.count ≤ length (B.bytes bytes.now) }
    ensures value { let b = in_version version (B.bytes bytes.now) in
        result ≡ own_index_after ffa endpoint.0 b header.now.array header.now.count }
    ensures few { result < header.now.count }
{
    match ffa {
        Ffa::V1_1 => 0,
        Ffa::V1_2 => index_of(bytes, version, endpoint, header),
    }
}

/// Checks the access descriptor with this index as a name of a receiver. No earlier access descriptor may name this
/// receiver.
///
/// An error is the first condition that it breaks.
#[tactic(auto, unfolding(crate::specs::Reading::naming_flaw_at))]
fn check_name<B: Bytes>(
    bytes: &B,
    version: Version,
    array: u32,
    index: u32,
) -> Result<(), AccessFlaw>
    requires { array + accesses_size version (index + 1) ≤ length (B.bytes bytes.now) }
    ensures { option_map (λ flaw. FlawOfAccess index flaw) (result_err result)
        ≡ naming_flaw_at (in_version version (B.bytes bytes.now)) array index }
{
    // Proof step: the number of bytes fits a usize.
    let _ = bytes.len();
    let at = array as usize + accesses_size(version, index) as usize;
    let access = read_access(bytes, version, at);
    if access.flags > 1 {
        return Err(AccessFlaw::Flags);
    }
    if access.composite != 0 {
        return Err(AccessFlaw::OtherComposite);
    }
    if !access.is_rest_zero {
        return Err(AccessFlaw::Reserved);
    }
    if is_among_first(bytes, version, array, index, access.endpoint) {
        return Err(AccessFlaw::ReceiverTwice);
    }
    Ok(())
}

fn check_each_name<B: Bytes>(bytes: &B, version: Version, header: &Header) -> Result<(), Flaw>
    requires { header.now.array + accesses_size version header.now.count ≤ length (B.bytes bytes.now) }
    ensures { let b = in_version version (B.bytes bytes.now) in
        result_err result ≡ names_flaw_after Ffa.V1_2 b header.now.array header.now.count }
{
    for i in 0..header.count {
        if let Err(flaw) = check_name(bytes, version, header.array, i) {
            return Err(Flaw::Access(i, flaw));
        }
    }
    Ok(())
}

/// Checks that each access descriptor of a retrieve names a receiver, and that no two of them name one receiver. On a
/// machine of FF-A 1.1 this function checks nothing, because a retrieve has one access descriptor there. Other
/// functions check it.
///
/// # Errors
///
/// The first condition that an access descriptor breaks, with the index of this access descriptor.
pub fn check_names<B: Bytes>(
    bytes: &B,
    ffa: Ffa,
    version: Version,
    header: &Header,
) -> Result<(), Flaw>
    requires { header.now.array + accesses_size version header.now.count ≤ length (B.bytes bytes.now) }
    ensures { let b = in_version version (B.bytes bytes.now) in
        result_err result ≡ names_flaw_after ffa b header.now.array header.now.count }
{
    match ffa {
        Ffa::V1_1 => Ok(()),
        Ffa::V1_2 => check_each_name(bytes, version, header),
    }
}

/// Whether each of the first `count` access descriptors names one of these receivers.
fn are_names_known<B: Bytes>(
    bytes: &B,
    version: Version,
    array: u32,
    count: u32,
    receivers: &[Receiver],
) -> bool
    requires { array + accesses_size version count ≤ length (B.bytes bytes.now) }
    ensures { let named = listed count (named_after (in_version version (B.bytes bytes.now)) array) in
        result ≡ list_all (λ e. is_named e receivers.now) named }
{
    for i in 0..count {
        if !is_named(endpoint_named(bytes, version, array, i), receivers) {
            return false;
        }
    }
    true
}

/// Whether the first `count` access descriptors name all of these receivers.
fn are_all_named<B: Bytes>(
    bytes: &B,
    version: Version,
    array: u32,
    count: u32,
    receivers: &[Receiver],
) -> bool
    requires { array + accesses_size version count ≤ length (B.bytes bytes.now) }
    ensures { let named = listed count (named_after (in_version version (B.bytes bytes.now)) array) in
        result ≡ list_all (λ (r : Named). list_any (λ e. e == r.endpoint.0) named) receivers.now }
{
    receivers.iter().all(|receiver| is_among_first(bytes, version, array, count, receiver.endpoint))
}

/// Whether a retrieve descriptor has one access descriptor, or names exactly these receivers.
pub fn names_receivers<B: Bytes>(bytes: &B, version: Version, receivers: &[Receiver]) -> bool
    requires { IsHeader (in_version version (B.bytes bytes.now)) }
    ensures { result ≡ are_receivers (endpoints_named (in_version version (B.bytes bytes.now))) receivers.now }
{
    let count = read_u32(bytes, 28);
    if count == 1 {
        return true;
    }
    let array = read_array(bytes, version);
    are_names_known(bytes, version, array, count, receivers)
        && are_all_named(bytes, version, array, count, receivers)
}
