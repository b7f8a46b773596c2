// SPDX-License-Identifier: MIT OR Apache-2.0
//! Hints what to change after a refusal, as C sees them.
ghost use Rattle.std.specs.Prelude.{◌≡◌, Some};
ghost use Rattle.ffa_model.specs.DescriptorPlaces.{told_access_size};
ghost use Rattle.ffa_c.specs.Border.{access_code};
ghost use Rattle.ffa_c.specs.Hints.{cause_number, hint_told, kind_number, no_hint};

use crate::codes::{
    HINT_ACCESS, HINT_BUFFERS_MISSING, HINT_CALLER, HINT_FORM, HINT_GRANTED, HINT_HELD,
    HINT_HOLDER, HINT_KIND, HINT_MESSAGE, HINT_NONE, HINT_OUTSIDE, HINT_OWN_RIGHT, HINT_PENDING,
    HINT_REQUEST, HINT_RIGHT, HINT_ROOM, HINT_RUN, HINT_RX_PAGE, HINT_SENDER, HINT_TAG,
    HINT_TX_PAGE, HINT_VALUE, HINT_WORD,
};
use crate::kind::code_of;
use ffa_mend::{Cause, Mend, Side};
use ffa_model::{EndpointId, Kind, Rights, Version, Work};

/// A hint what to change so that an operation is not refused for the reason that C got.
#[repr(C)]
#[derive(Clone, Copy)]
pub struct CHint {
    /// The kind of the hint, one of `HINT_NONE` to `HINT_BUFFERS_MISSING`, or after the last one another cause of
    /// `Cause`.
    pub kind: u32,
    /// The numbers whose meaning `kind` says. A number that the kind does not name is 0.
    pub numbers: [u64; 3],
}

impl CHint {
    /// Returns the hint of the kind `HINT_NONE`, which says nothing.
    pub fn none() -> CHint
        ensures { result ≡ no_hint }
    {
        CHint {
            kind: HINT_NONE,
            numbers: [0; 3],
        }
    }

    /// Returns this hint in the form for C.
    pub fn of(mend: Mend) -> CHint
        ensures { result ≡ hint_told mend }
    {
        let (kind, numbers) = match mend {
            Mend::Buffer {
                endpoint,
                side: Side::Tx,
            } => (HINT_TX_PAGE, [id(endpoint), 0, 0]),
            Mend::Buffer {
                endpoint,
                side: Side::Rx,
            } => (HINT_RX_PAGE, [id(endpoint), 0, 0]),
            Mend::OwnRight(right) => (HINT_OWN_RIGHT, [code(right), 0, 0]),
            Mend::Granted(right) => (HINT_GRANTED, [code(right), 0, 0]),
            Mend::Access { endpoint, right } => (HINT_ACCESS, [id(endpoint), code(right), 0]),
            Mend::Caller(endpoint) => (HINT_CALLER, [id(endpoint), 0, 0]),
            Mend::Sender(endpoint) => (HINT_SENDER, [id(endpoint), 0, 0]),
            Mend::Tag { found, wanted } => (HINT_TAG, [found, wanted, 0]),
            Mend::Kind { found, wanted } => {
                (HINT_KIND, [kind_number(found), kind_number(wanted), 0])
            }
            Mend::Asked { asked, most } => (HINT_RIGHT, [code(asked), code(most), 0]),
            Mend::Held(right) => (HINT_HELD, [code(right), 0, 0]),
            Mend::Room(bytes) => (HINT_ROOM, [bytes, 0, 0]),
            Mend::Wanted(value) => (HINT_VALUE, [value, 0, 0]),
            Mend::Form { caller, version } => (HINT_FORM, [id(caller), access_size(version), 0]),
            Mend::Word { place, value } => (HINT_WORD, [u64::from(place), u64::from(value), 0]),
            Mend::Message { offset, size, room } => {
                (HINT_MESSAGE, [u64::from(offset), u64::from(size), room])
            }
            Mend::Outside(address) => (HINT_OUTSIDE, [address, 0, 0]),
            Mend::Holder(endpoint) => (HINT_HOLDER, [id(endpoint), 0, 0]),
            Mend::Works(Work::Run) => (HINT_RUN, [0; 3]),
            Mend::Works(Work::Request(by)) => (HINT_REQUEST, [id(by), 0, 0]),
            Mend::Pending(bit) => (HINT_PENDING, [u64::from(bit), 0, 0]),
            Mend::Cause(cause) => (cause_number(cause), [0; 3]),
        };
        CHint { kind, numbers }
    }
}

fn id(endpoint: EndpointId) -> u64
    ensures { result ≡ endpoint.0 }
{
    u64::from(endpoint.0)
}

fn code(right: Rights) -> u64
    ensures { result ≡ access_code (Some right) }
{
    u64::from(code_of(Some(right)))
}

// The size of an access descriptor that a header must have in a version.
fn access_size(version: Version) -> u64
    ensures { result ≡ told_access_size version }
{
    match version {
        Version::Compact => 0,
        Version::V1_1 => 16,
        Version::V1_2 => 32,
    }
}

fn kind_number(kind: Kind) -> u64
    ensures { result ≡ kind_number kind }
{
    match kind {
        Kind::Share => 0,
        Kind::Lend => 1,
        Kind::Donate => 2,
    }
}

fn cause_number(cause: Cause) -> u32
    ensures { result ≡ cause_number cause }
{
    HINT_BUFFERS_MISSING + u32::from(cause as u8)
}
