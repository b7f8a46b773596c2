// SPDX-License-Identifier: MIT OR Apache-2.0
//! The responses to retrieves, which the library writes into a page that the caller of the retrieve reads.

ghost use Rattle.std.specs.Prelude.{◌≡◌, ◌+◌, ◌^◌, ◌<◌, ◌≤◌, List, ℕ, length, map, ◌++◌, drop};
ghost use Rattle.ffa_model.specs.declared.limits.TheConstants.{MOST_RECEIVERS};
ghost use Rattle.ffa_model.specs.DescriptorPlaces.{accesses_size, header_size};
ghost use Rattle.ffa_model.specs.SendDescriptor.{page_total};
ghost use Rattle.ffa_model.specs.HypervisorRetrieve.{access_granted, sent_transaction_record};
ghost use Rattle.ffa_model.specs.ResponseBytes.{attributes_told, flags_of, permissions_of, access_bytes, accesses_bytes, response_record, response_bytes, response_size};
ghost use Rattle.ffa_memdesc.specs.Writing.{Wrote, header_bytes_with};

use crate::header::{
    NON_SECURE, NORMAL_MEMORY, RANGE_SIZE, accesses_size, header_size, told_access_size,
};
use crate::parts::{write_access_rest, write_composite, write_ranges, write_rest};
use crate::put::{put_u8, put_u16, put_u32, put_u64};
use ffa_model::{
    Data, EndpointId, Kind, MOST_RECEIVERS, Receiver, Response, Rights, SentTransaction, Version,
};

/// Returns the memory attributes of a response. The memory is normal. Bit 6 says whether it is non-secure, except in
/// the compact form, which does not say it.
fn attributes_told(version: Version, normal: bool) -> u16
    ensures { result ≡ attributes_told version normal }
{
    match version {
        Version::Compact => NORMAL_MEMORY,
        Version::V1_1 | Version::V1_2 => {
            if normal {
                NORMAL_MEMORY + NON_SECURE
            } else {
                NORMAL_MEMORY
            }
        }
    }
}

/// Returns the flags of a response. Bits 4:3 are the kind, and bit 0 says whether the manager zeroed the pages.
fn flags_of(kind: Kind, zero: bool) -> u32
    ensures { result ≡ flags_of kind zero }
{
    let kind = match kind {
        Kind::Share => 1,
        Kind::Lend => 2,
        Kind::Donate => 3,
    };
    kind << 3 | zero as u32
}

/// Returns the permissions of a right. Bits 1:0 are the data permission, and bits 3:2 are the instruction permission.
fn permissions_of(rights: Rights) -> u8
    ensures { result ≡ permissions_of rights }
{
    let level = match rights.level {
        Data::Ro => 1,
        Data::Rw => 2,
    };
    let exec = if rights.exec { 2 } else { 1 };
    exec << 2 | level
}

/// Returns the permissions of a receiver in a transaction as it was sent: the data right that the sender granted.
fn granted_permissions(receiver: &Receiver) -> u8
    ensures { (receiver.now.endpoint.0, result) ≡ access_granted receiver.now }
{
    match receiver.grant {
        None => 0,
        Some(Data::Ro) => 1,
        Some(Data::Rw) => 2,
    }
}

/// The fields of the header of a response, except the number of its access descriptors.
#[derive(Clone, Copy)]
struct ResponseHeader {
    sender: EndpointId,
    kind: Kind,
    zero: bool,
    normal: bool,
    handle: u64,
    tag: u64,
}

fn write_header(out: &mut [u8], version: Version, header: &ResponseHeader, count: u32)
    requires { header_size version ≤ length out.old }
    ensures { Wrote out.old (header_bytes_with version header.now count) (header_size version) out.new }
{
    put_u16(out, 0, header.sender.0);
    put_u16(out, 2, attributes_told(version, header.normal));
    put_u32(out, 4, flags_of(header.kind, header.zero));
    put_u64(out, 8, header.handle);
    put_u64(out, 16, header.tag);
    put_u32(out, 24, told_access_size(version));
    put_u32(out, 28, count);
    write_rest(out, version);
}

/// Writes one of `count` access descriptors at a place. The composite begins directly after the last of them.
fn write_access(
    out: &mut [u8],
    version: Version,
    at: usize,
    count: u32,
    endpoint: EndpointId,
    permissions: u8,
)
    requires room { at + accesses_size version 1 ≤ length out.old }
    requires few { count ≤ MOST_RECEIVERS }
    ensures { (old front : List ℕ) → Wrote old front at out.old
        → Wrote old (front ++ access_bytes version count (endpoint.0, permissions)) (at + accesses_size version 1) out.new }
{
    put_u16(out, at, endpoint.0);
    put_u8(out, at + 2, permissions);
    put_u8(out, at + 3, 0);
    let composite = header_size(version) as u64 + accesses_size(version, count);
    put_u32(out, at + 4, composite as u32);
    write_access_rest(out, version, at);
}

/// Writes an access descriptor for each receiver, after the header.
fn write_receivers(out: &mut [u8], version: Version, receivers: &[Receiver])
    requires room { header_size version + accesses_size version (length receivers.now) ≤ length out.old }
    requires few { length receivers.now ≤ MOST_RECEIVERS }
    ensures { (old front : List ℕ) → Wrote old front (header_size version) out.old
        → Wrote old (front ++ accesses_bytes version (map access_granted receivers.now))
        (header_size version + accesses_size version (length receivers.now)) out.new }
{
    let header = header_size(version) as usize;
    let count = receivers.len() as u32;
    for i in 0..receivers.len() {
        let receiver = &receivers[i];
        let at = header + accesses_size(version, i as u32) as usize;
        write_access(
            out,
            version,
            at,
            count,
            receiver.endpoint,
            granted_permissions(receiver),
        );
    }
}

// Writes the response in the form of a version, like `write_response`. Each caller passes a constant version. So where
// the compiler inlines this function, all places are constants.
#[inline(always)]
fn write_in(response: &Response, version: Version, out: &mut [u8; 4096]) -> usize
    requires { page_total response.now.ranges.items < 2 ^ 32 }
    ensures size { result ≡ response_size version 1 response.now.ranges.items }
    ensures bytes { let told = response_bytes version (response_record response.now) in
        out.new ≡ told ++ drop (response_size version 1 response.now.ranges.items) out.old }
{
    let ranges = response.ranges.as_slice();
    let header = header_size(version) as usize;
    let composite = header + accesses_size(version, 1) as usize;
    let told = ResponseHeader {
        sender: response.sender,
        kind: response.kind,
        zero: response.zero,
        normal: response.normal,
        handle: response.handle,
        tag: response.tag,
    };
    write_header(out, version, &told, 1);
    let permissions = permissions_of(response.rights);
    write_access(out, version, header, 1, response.endpoint, permissions);
    write_composite(out, composite, ranges);
    write_ranges(out, composite + 16, ranges);
    composite + 16 + RANGE_SIZE as usize * ranges.len()
}

/// Writes a response to a caller of this version, from the first byte of the page on. Returns the size of the response
/// in bytes. The rest of the page stays.
pub fn write_response(response: &Response, version: Version, out: &mut [u8; 4096]) -> usize
    requires { page_total response.now.ranges.items < 2 ^ 32 }
    ensures size { result ≡ response_size version 1 response.now.ranges.items }
    ensures bytes { let told = response_bytes version (response_record response.now) in
        out.new ≡ told ++ drop (response_size version 1 response.now.ranges.items) out.old }
{
    match version {
        Version::Compact => write_in(response, Version::Compact, out),
        Version::V1_1 => write_in(response, Version::V1_1, out),
        Version::V1_2 => write_in(response, Version::V1_2, out),
    }
}

/// Writes a transaction as it was sent, for a reader of this version, from the first byte of the page on. Returns the
/// size of what it wrote in bytes. The rest of the page stays.
pub fn write_sent(sent: &SentTransaction, version: Version, out: &mut [u8; 4096]) -> usize
    requires { page_total sent.now.ranges.items < 2 ^ 32 }
    ensures size { result ≡ response_size version (length sent.now.receivers.items) sent.now.ranges.items }
    ensures bytes { let told = response_bytes version (sent_transaction_record sent.now) in
        let size = response_size version (length sent.now.receivers.items) sent.now.ranges.items in
        out.new ≡ told ++ drop size out.old }
{
    let ranges = sent.ranges.as_slice();
    let receivers = sent.receivers.as_slice();
    let count = receivers.len() as u32;
    let composite = header_size(version) as usize + accesses_size(version, count) as usize;
    let told = ResponseHeader {
        sender: sent.sender,
        kind: sent.kind,
        zero: sent.zero,
        normal: sent.normal,
        handle: sent.handle,
        tag: sent.tag,
    };
    write_header(out, version, &told, count);
    write_receivers(out, version, receivers);
    write_composite(out, composite, ranges);
    write_ranges(out, composite + 16, ranges);
    composite + 16 + RANGE_SIZE as usize * ranges.len()
}
