// SPDX-License-Identifier: MIT OR Apache-2.0
//! Finds the values that a register or a field of a descriptor may have, if a check requires others. It changes nothing
//! and allocates nothing.
ghost use Rattle.std.specs.Prelude.{◌≡◌, ℕ, ◌+◌, ◌*◌, ◌%◌, ◌≤◌, IfSome, IsSomeAnd};
ghost use Rattle.ffa_model.specs.DescriptorPlaces.{accesses_size};
ghost use Rattle.ffa_model.specs.SendDescriptor.{attributes_of, most_flags, most_receivers};
ghost use Rattle.ffa_mend.specs.Allowed.{IsAmong, IsPlace, allowed_asked, allowed_attributes, allowed_behind, allowed_check, allowed_context, allowed_contexts, allowed_field, allowed_flags, allowed_fragment, allowed_names, allowed_offer, allowed_permissions, allowed_places, allowed_register, between, contexts_of, one, steps};

use ffa_mend::Allowed;
use ffa_model::{
    About, AccessFlaw, Call, CompositeFlaw, EndpointId, Ffa, FieldPlace, Flaw, Kind,
    MOST_BUFFER_PAGES, MOST_PROCESSORS, MOST_RANGES, MOST_RECEIVERS, RangeFlaw, Refusal,
    RelinquishFlaw, RetrieveFlaw, SendFlaw, Version,
};

// The attributes of normal memory, as the manager requires them.
const NORMAL_MEMORY: u64 = 0x2F;

// Returns the values that a failed check of a call allows. `receivers` is the number of receivers in the header of its
// descriptor.
pub(crate) fn allowed_check(
    ffa: Ffa,
    version: Version,
    receivers: Option<u64>,
    call: Call,
    refusal: Refusal,
    about: Option<About>,
) -> Option<Allowed>
    ensures { result ≡ allowed_check ffa version receivers call refusal about }
{
    match about {
        Some(About::Register { .. }) => allowed_register(ffa, call, refusal),
        Some(
            About::Field {
                flaw,
                place,
                value: Some(value),
            },
        ) => allowed_field(ffa, version, receivers, call, place, value, flaw),
        _ => None,
    }
}

// Returns the allowed values of a field of a descriptor.
fn allowed_field(
    ffa: Ffa,
    version: Version,
    receivers: Option<u64>,
    call: Call,
    place: FieldPlace,
    value: u64,
    flaw: Flaw,
) -> Option<Allowed>
    ensures { result ≡ allowed_field ffa version receivers call place value flaw }
{
    match call {
        Call::MemDonate(transfer) => {
            allowed_offer(
                ffa,
                version,
                Kind::Donate,
                receivers,
                transfer.total,
                place,
                flaw,
            )
        }
        Call::MemLend(transfer) => {
            allowed_offer(
                ffa,
                version,
                Kind::Lend,
                receivers,
                transfer.total,
                place,
                flaw,
            )
        }
        Call::MemShare(transfer) => {
            allowed_offer(
                ffa,
                version,
                Kind::Share,
                receivers,
                transfer.total,
                place,
                flaw,
            )
        }
        _ => allowed_asked(ffa, value, flaw),
    }
}

fn steps(least: u64, most: u64, step: u64) -> Allowed
    ensures { result ≡ steps least most step }
{
    Allowed { least, most, step }
}

fn one(number: u64) -> Allowed
    ensures { result ≡ one number }
{
    steps(number, number, 1)
}

fn between(least: u64, most: u64) -> Allowed
    ensures { result ≡ between least most }
{
    steps(least, most, 1)
}

// Returns the allowed values of a register.
fn allowed_register(ffa: Ffa, call: Call, refusal: Refusal) -> Option<Allowed>
    ensures { result ≡ allowed_register ffa call refusal }
{
    match refusal {
        Refusal::FlagsReserved => Some(allowed_flags(call)),
        Refusal::ContextUnknown => allowed_context(ffa, call),
        Refusal::Fragmented => allowed_fragment(call),
        Refusal::BufferPageCount => Some(between(1, u64::from(MOST_BUFFER_PAGES))),
        Refusal::EndpointNotZero => Some(one(0)),
        Refusal::EndpointNotNormalWorld => Some(one(0)),
        Refusal::ContextCount => { Some(between(1, contexts_of(ffa, EndpointId::NORMAL_WORLD))) }
        Refusal::ClassesUnknown => Some(between(0, 15)),
        Refusal::BufferAddressGiven => Some(one(0)),
        Refusal::BufferPagesGiven => Some(one(0)),
        _ => None,
    }
}

fn allowed_flags(call: Call) -> Allowed
    ensures { result ≡ allowed_flags call }
{
    match call {
        Call::MemReclaim { .. } => between(0, 1),
        Call::NotificationSet(_) => steps(0, 2, 2),
        _ => one(0),
    }
}

// Returns the words that name the same endpoint in one of its contexts.
fn allowed_context(ffa: Ffa, call: Call) -> Option<Allowed>
    ensures { result ≡ allowed_context ffa call }
{
    match call {
        Call::Run { target, .. } => Some(one(0x10000 * u64::from(target.0))),
        Call::NotificationGet { receiver, .. } => Some(allowed_contexts(ffa, receiver)),
        _ => None,
    }
}

fn allowed_contexts(ffa: Ffa, endpoint: EndpointId) -> Allowed
    ensures { result ≡ allowed_contexts ffa endpoint.0 }
{
    let last = contexts_of(ffa, endpoint) - 1;
    let least = u64::from(endpoint.0);
    steps(least, last * 0x10000 + least, 0x10000)
}

// Returns the number of execution contexts of an endpoint.
fn contexts_of(ffa: Ffa, endpoint: EndpointId) -> u64
    ensures value { result ≡ contexts_of ffa endpoint.0 }
    ensures some { 1 ≤ result }
    ensures few { result ≤ 8 }
{
    if ffa == Ffa::V1_2 && endpoint == EndpointId::NORMAL_WORLD {
        MOST_PROCESSORS as u64
    } else {
        1
    }
}

// Returns the number of bytes of the descriptor, which the fragment must have.
fn allowed_fragment(call: Call) -> Option<Allowed>
    ensures { result ≡ allowed_fragment call }
{
    match call {
        Call::MemDonate(transfer) => Some(one(u64::from(transfer.total))),
        Call::MemLend(transfer) => Some(one(u64::from(transfer.total))),
        Call::MemShare(transfer) => Some(one(u64::from(transfer.total))),
        Call::MemRetrieve(transfer) => Some(one(u64::from(transfer.total))),
        _ => None,
    }
}

// Returns the allowed values of a field of an offer whose descriptor has `length` bytes. `receivers` is the number of
// receivers, if the header has it.
fn allowed_offer(
    ffa: Ffa,
    version: Version,
    kind: Kind,
    receivers: Option<u64>,
    length: u32,
    place: FieldPlace,
    flaw: Flaw,
) -> Option<Allowed>
    ensures { result ≡ allowed_offer ffa version kind receivers length place flaw }
{
    match flaw {
        Flaw::Send(SendFlaw::Attributes) => Some(allowed_attributes(ffa, kind, receivers?)),
        Flaw::Send(SendFlaw::Flags) => Some(between(0, most_flags(kind))),
        Flaw::Send(SendFlaw::NoReceiver | SendFlaw::ManyReceivers) => {
            Some(between(1, most_receivers(kind)))
        }
        Flaw::Access(_, AccessFlaw::Permissions) => Some(allowed_permissions(kind)),
        Flaw::Composite(
            CompositeFlaw::Outside | CompositeFlaw::Unaligned | CompositeFlaw::InArray,
        ) => allowed_behind(version, place.first.saturating_sub(4), receivers, length),
        Flaw::Composite(CompositeFlaw::NoRange | CompositeFlaw::ManyRanges) => {
            Some(between(1, MOST_RANGES as u64))
        }
        Flaw::Send(SendFlaw::Handle)
        | Flaw::Access(_, AccessFlaw::Flags | AccessFlaw::Reserved)
        | Flaw::Composite(CompositeFlaw::Reserved)
        | Flaw::Range(_, RangeFlaw::Reserved) => Some(one(0)),
        _ => None,
    }
}

// Returns the allowed memory attributes.
fn allowed_attributes(ffa: Ffa, kind: Kind, receivers: u64) -> Allowed
    ensures { result ≡ allowed_attributes ffa kind receivers }
{
    match (ffa, kind) {
        (Ffa::V1_2, Kind::Lend) => steps(0, NORMAL_MEMORY, NORMAL_MEMORY),
        _ => one(attributes_of(kind, receivers)),
    }
}

fn attributes_of(kind: Kind, receivers: u64) -> u64
    ensures { result ≡ attributes_of kind receivers }
{
    match kind {
        Kind::Share => NORMAL_MEMORY,
        Kind::Lend => { if receivers == 1 { 0 } else { NORMAL_MEMORY } }
        Kind::Donate => 0,
    }
}

fn most_flags(kind: Kind) -> u64
    ensures { result ≡ most_flags kind }
{
    match kind {
        Kind::Share => 0,
        Kind::Lend | Kind::Donate => 1,
    }
}

fn most_receivers(kind: Kind) -> u64
    ensures { result ≡ most_receivers kind }
{
    match kind {
        Kind::Share | Kind::Lend => MOST_RECEIVERS as u64,
        Kind::Donate => 1,
    }
}

fn allowed_permissions(kind: Kind) -> Allowed
    ensures { result ≡ allowed_permissions kind }
{
    match kind {
        Kind::Share | Kind::Lend => between(1, 2),
        Kind::Donate => one(0),
    }
}

// Returns the allowed places of a composite, by the place of the first access descriptor and their number.
fn allowed_behind(
    version: Version,
    array: u64,
    receivers: Option<u64>,
    length: u32,
) -> Option<Allowed>
    ensures { result ≡ allowed_behind version array receivers length }
{
    let end = u128::from(array) + accesses_size(version, receivers?);
    allowed_places(end, length)
}

// Returns the number of bytes of this number of access descriptors.
fn accesses_size(version: Version, count: u64) -> u128
    ensures value { result ≡ accesses_size version count }
    ensures most { result ≤ 32 * count }
{
    match version {
        Version::Compact | Version::V1_1 => 16 * u128::from(count),
        Version::V1_2 => 32 * u128::from(count),
    }
}

// Returns the places where a composite with one range may be, after access descriptors that end at `end`, and inside
// `length` bytes.
fn allowed_places(end: u128, length: u32) -> Option<Allowed>
    ensures places { result ≡ allowed_places end length }
    // If the access descriptors end at a multiple of 16, as the header must say, these are all such places.
    ensures each { (place : ℕ) → end % 16 ≡ 0 → IsPlace end length place → IsSomeAnd result (λ its. IsAmong its place) }
    ensures only { (place : ℕ) → end % 16 ≡ 0 → IfSome result (λ its. IsAmong its place → IsPlace end length place) }
{
    let last = u128::from(length).checked_sub(32)?;
    if end > last {
        return None;
    }
    let most = last - (last - end) % 16;
    Some(steps(end as u64, most as u64, 16))
}

// Returns the allowed number of endpoints of a retrieve that names `count` endpoints.
fn allowed_names(ffa: Ffa, count: u64) -> Allowed
    ensures { result ≡ allowed_names ffa count }
{
    let most = MOST_RECEIVERS as u64;
    match ffa {
        Ffa::V1_1 => one(1),
        Ffa::V1_2 if 1 <= count && count <= most => one(1),
        Ffa::V1_2 => between(1, most),
    }
}

// Returns the allowed values of a field of a retrieve or a relinquish, by the value that it has.
fn allowed_asked(ffa: Ffa, value: u64, flaw: Flaw) -> Option<Allowed>
    ensures { result ≡ allowed_asked ffa value flaw }
{
    match flaw {
        Flaw::Retrieve(_, RetrieveFlaw::Attributes) => Some(steps(0, NORMAL_MEMORY, NORMAL_MEMORY)),
        Flaw::Retrieve(_, RetrieveFlaw::AccessCount) => Some(allowed_names(ffa, value)),
        Flaw::Relinquish(RelinquishFlaw::EndpointCount) => Some(one(1)),
        Flaw::Retrieve(
            _,
            RetrieveFlaw::AccessFlags | RetrieveFlaw::CompositeTold | RetrieveFlaw::AccessReserved,
        ) => Some(one(0)),
        Flaw::Relinquish(RelinquishFlaw::Flags) => Some(between(0, 1)),
        _ => None,
    }
}
