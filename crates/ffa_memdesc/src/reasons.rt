// SPDX-License-Identifier: MIT OR Apache-2.0
//! The reasons why bytes are not a descriptor: the place of the field that a broken condition is about, and the value
//! of this field. This module serves diagnostics only. No function here reads a descriptor, so an auditor of the core
//! can skip this module.

ghost use Rattle.std.specs.Prelude.{◌≡◌, ◌+◌, ◌*◌, ◌^◌, ◌≤◌, length};
ghost use Rattle.ffa_model.specs.DescriptorPlaces.{accesses_size, in_version};
ghost use Rattle.ffa_model.specs.FlawPlaces.{told_place, told_array, told_composite, field, array_field, access_rest_field, header_flaw_place, send_flaw_place, access_flaw_place, composite_flaw_place, range_flaw_place, retrieve_flaw_place, relinquish_flaw_place, flaw_place, number_of_size, field_value};

use crate::bytes::{Bytes, read_u16, read_u32, read_u64};
use crate::header::{RANGE_SIZE, accesses_size, header_size};
use ffa_model::{
    AccessFlaw, CompositeFlaw, FieldPlace, Flaw, HeaderFlaw, RangeFlaw, RelinquishFlaw,
    RetrieveFlaw, SendFlaw, Version,
};

fn field(first: u64, size: u64) -> FieldPlace
    ensures { result ≡ field first size }
{
    FieldPlace { first, size }
}

/// Returns the number in the four bytes at a place, or 0 if the bytes end before.
fn told_place<B: Bytes>(bytes: &B, at: u64) -> u32
    requires { at ≤ 2 ^ 32 + 4 }
    ensures { result ≡ told_place (B.bytes bytes.now) at }
{
    if at + 4 <= bytes.len() as u64 {
        read_u32(bytes, at as usize)
    } else {
        0
    }
}

/// Returns the offset of the access descriptors, as the bytes state it. If the bytes end before they state it, the
/// result is 0.
fn told_array<B: Bytes>(bytes: &B, version: Version) -> u32
    ensures { result ≡ told_array (in_version version (B.bytes bytes.now)) }
{
    match version {
        Version::Compact => 32,
        Version::V1_1 | Version::V1_2 => told_place(bytes, 32),
    }
}

/// Returns the offset of the composite, as the first access descriptor states it. If the bytes end before they state
/// it, the result is 0.
fn told_composite<B: Bytes>(bytes: &B, version: Version) -> u32
    ensures { result ≡ told_composite (in_version version (B.bytes bytes.now)) }
{
    told_place(bytes, told_array(bytes, version) as u64 + 4)
}

/// Returns the field with the number of access descriptors. Except in the compact form, the field includes their
/// offset. In FF-A 1.2 it also includes the size of an access descriptor.
fn array_field(version: Version) -> FieldPlace
    ensures { result ≡ array_field version }
{
    match version {
        Version::Compact => field(28, 4),
        Version::V1_1 => field(28, 8),
        Version::V1_2 => field(24, 12),
    }
}

fn header_flaw_place(version: Version, flaw: HeaderFlaw) -> FieldPlace
    ensures { result ≡ header_flaw_place version flaw }
{
    match flaw {
        HeaderFlaw::Short => field(0, header_size(version) as u64),
        HeaderFlaw::AccessSize => field(24, 4),
        HeaderFlaw::ArrayUnaligned => field(32, 4),
        HeaderFlaw::ArrayInHeader => field(32, 4),
        HeaderFlaw::ArrayOutside => array_field(version),
        HeaderFlaw::Reserved => field(36, 12),
    }
}

fn send_flaw_place(flaw: SendFlaw) -> FieldPlace
    ensures { result ≡ send_flaw_place flaw }
{
    match flaw {
        SendFlaw::Attributes => field(2, 2),
        SendFlaw::Flags => field(4, 4),
        SendFlaw::Handle => field(8, 8),
        SendFlaw::NoReceiver | SendFlaw::ManyReceivers => field(28, 4),
    }
}

/// Returns the reserved end of the access descriptor at a place, after its first 8 bytes.
fn access_rest_field(version: Version, at: u64) -> FieldPlace
    requires { at ≤ 2 ^ 40 }
    ensures { result ≡ access_rest_field version at }
{
    match version {
        Version::Compact | Version::V1_1 => field(at + 8, 8),
        Version::V1_2 => field(at + 8, 24),
    }
}

/// Returns the field that a condition of the access descriptor at this place is about.
fn access_flaw_place(version: Version, at: u64, flaw: AccessFlaw) -> FieldPlace
    requires { at ≤ 2 ^ 40 }
    ensures { result ≡ access_flaw_place version at flaw }
{
    match flaw {
        AccessFlaw::Permissions => field(at + 2, 1),
        AccessFlaw::Flags => field(at + 3, 1),
        AccessFlaw::OtherComposite => field(at + 4, 4),
        AccessFlaw::Reserved => access_rest_field(version, at),
        AccessFlaw::ReceiverIsSender | AccessFlaw::ReceiverTwice => field(at, 2),
    }
}

/// Returns the field that a condition of the composite is about. It needs the places of the access descriptors and of
/// the composite, because the first access descriptor states the offset of the composite.
fn composite_flaw_place(array: u64, composite: u64, flaw: CompositeFlaw) -> FieldPlace
    requires array { array ≤ 2 ^ 40 }
    requires composite { composite ≤ 2 ^ 40 }
    ensures { result ≡ composite_flaw_place array composite flaw }
{
    match flaw {
        CompositeFlaw::Outside | CompositeFlaw::Unaligned | CompositeFlaw::InArray => {
            field(array + 4, 4)
        }
        CompositeFlaw::NoRange | CompositeFlaw::ManyRanges | CompositeFlaw::RangesOutside => {
            field(composite + 4, 4)
        }
        CompositeFlaw::Reserved => field(composite + 8, 8),
        CompositeFlaw::Total => field(composite, 4),
    }
}

/// Returns the field that a condition of the range at this place is about.
fn range_flaw_place(at: u64, flaw: RangeFlaw) -> FieldPlace
    requires { at ≤ 2 ^ 40 }
    ensures { result ≡ range_flaw_place at flaw }
{
    match flaw {
        RangeFlaw::Empty => field(at + 8, 4),
        RangeFlaw::Unaligned => field(at, 8),
        RangeFlaw::TooHigh | RangeFlaw::Overlap => field(at, 12),
        RangeFlaw::Reserved => field(at + 12, 4),
    }
}

/// Returns the field that a condition of a retrieve is about. `own` is the place of the caller's access descriptor.
fn retrieve_flaw_place(version: Version, own: u64, flaw: RetrieveFlaw) -> FieldPlace
    requires { own ≤ 2 ^ 40 }
    ensures { result ≡ retrieve_flaw_place version own flaw }
{
    match flaw {
        RetrieveFlaw::Attributes => field(2, 2),
        RetrieveFlaw::Flags => field(4, 4),
        RetrieveFlaw::AccessCount => field(28, 4),
        RetrieveFlaw::ReceiverIsAnother => field(own, 2),
        RetrieveFlaw::DataPermission
        | RetrieveFlaw::InstructionPermission
        | RetrieveFlaw::PermissionsReserved => field(own + 2, 1),
        RetrieveFlaw::AccessFlags => field(own + 3, 1),
        RetrieveFlaw::CompositeTold => field(own + 4, 4),
        RetrieveFlaw::AccessReserved => access_rest_field(version, own),
        RetrieveFlaw::NotZero => field(0, header_size(version) as u64),
    }
}

fn relinquish_flaw_place(flaw: RelinquishFlaw) -> FieldPlace
    ensures { result ≡ relinquish_flaw_place flaw }
{
    match flaw {
        RelinquishFlaw::Short => field(0, 18),
        RelinquishFlaw::Flags => field(8, 4),
        RelinquishFlaw::EndpointCount => field(12, 4),
    }
}

/// Returns the place of the access descriptor with this index, in an array of access descriptors that begins at a
/// place.
fn access_place(version: Version, array: u64, index: u32) -> u64
    requires { array ≤ 2 ^ 33 }
    ensures value { result ≡ array + accesses_size version index }
    ensures few { result ≤ 2 ^ 40 }
{
    array + accesses_size(version, index)
}

/// Returns the place of the range with this index, in the composite at a place.
fn range_place(composite: u64, index: u32) -> u64
    requires { composite ≤ 2 ^ 33 }
    ensures value { result ≡ composite + 16 + 16 * index }
    ensures few { result ≤ 2 ^ 40 }
{
    composite + 16 + u64::from(RANGE_SIZE) * u64::from(index)
}

/// Returns the field that a broken condition is about, in the descriptor of an endpoint with this version. If the bytes
/// end before they state the offset of a part, this offset counts as 0.
pub fn flaw_place<B: Bytes>(bytes: &B, version: Version, flaw: Flaw) -> FieldPlace
    ensures { result ≡ flaw_place (in_version version (B.bytes bytes.now)) flaw }
{
    let array = told_array(bytes, version) as u64;
    let composite = told_composite(bytes, version) as u64;
    match flaw {
        Flaw::Header(flaw) => header_flaw_place(version, flaw),
        Flaw::Send(flaw) => send_flaw_place(flaw),
        Flaw::Access(i, flaw) => {
            access_flaw_place(version, access_place(version, array, i), flaw)
        }
        Flaw::Composite(flaw) => composite_flaw_place(array, composite, flaw),
        Flaw::Range(i, flaw) => range_flaw_place(range_place(composite, i), flaw),
        Flaw::Retrieve(i, flaw) => {
            retrieve_flaw_place(version, access_place(version, array, i), flaw)
        }
        Flaw::Relinquish(flaw) => relinquish_flaw_place(flaw),
    }
}

/// Returns the number of 1, 2, 4 or 8 bytes at a place, or `None` for another size.
fn number_of_size<B: Bytes>(bytes: &B, at: usize, size: u64) -> Option<u64>
    requires { at + size ≤ length (B.bytes bytes.now) }
    ensures { result ≡ number_of_size (B.bytes bytes.now) at size }
{
    match size {
        1 => Some(bytes.at(at) as u64),
        2 => Some(read_u16(bytes, at) as u64),
        4 => Some(read_u32(bytes, at) as u64),
        8 => Some(read_u64(bytes, at)),
        _ => None,
    }
}

/// Returns the number in a field of 1, 2, 4 or 8 bytes. Returns `None` if the field has another size, or if it ends
/// outside the bytes.
pub fn field_value<B: Bytes>(bytes: &B, place: &FieldPlace) -> Option<u64>
    ensures { result ≡ field_value (B.bytes bytes.now) place.now }
{
    let len = bytes.len() as u64;
    match place.first.checked_add(place.size) {
        Some(end) if end <= len => number_of_size(bytes, place.first as usize, place.size),
        _ => None,
    }
}
