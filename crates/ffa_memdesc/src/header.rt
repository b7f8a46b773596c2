// SPDX-License-Identifier: MIT OR Apache-2.0
//! The header of a transaction descriptor, and how the library reads it.

ghost use Rattle.std.specs.Prelude.{◌≡◌, ◌+◌, ◌*◌, ◌≤◌, length, IfOk, OnOk};
ghost use Rattle.std.specs.Option.{option_map};
ghost use Rattle.std.specs.Result.{result_err};
ghost use Rattle.ffa_model.specs.DescriptorPlaces.{accesses_size, told_access_size, array_in, header_size, in_version, is_rest_zero, IsHeader};
ghost use Rattle.ffa_model.specs.FirstFlaws.{header_flaw};
ghost use Rattle.ffa_model.specs.declared.flaw.Flaw.TheVariants.{Header as FlawOfHeader};
ghost use Rattle.ffa_memdesc.specs.Reading.{header_in};

use crate::bytes::{Bytes, read_u16, read_u32, read_u64};
use ffa_model::{EndpointId, HeaderFlaw, Version};

/// The size of a range in a descriptor, in bytes.
pub const RANGE_SIZE: u32 = 16;

/// The memory attributes of normal memory that is write-back and inner shareable.
pub const NORMAL_MEMORY: u16 = 0x2f;

/// Bit 6 of the memory attributes: the memory is non-secure (NS).
pub const NON_SECURE: u16 = 1 << 6;

/// The fields of a transaction header, with the number and the place of its access descriptors.
#[derive(Clone, Copy, PartialEq, Eq)]
pub struct Header {
    pub sender: EndpointId,
    pub attributes: u16,
    pub flags: u32,
    pub handle: u64,
    pub tag: u64,
    /// The number of access descriptors.
    pub count: u32,
    /// The offset of the first access descriptor in the descriptor, in bytes.
    pub array: u32,
}

/// Returns the size of a transaction header in this version, in bytes.
pub fn header_size(version: Version) -> u32
    ensures value { result ≡ header_size version }
    ensures least { 32 ≤ result }
    ensures most { result ≤ 48 }
{
    match version {
        Version::Compact => 32,
        Version::V1_1 | Version::V1_2 => 48,
    }
}

/// Returns the size of this number of access descriptors in this version, in bytes.
pub fn accesses_size(version: Version, count: u32) -> u64
    ensures value { result ≡ accesses_size version count }
    ensures least { 16 * count ≤ result }
    ensures most { result ≤ 32 * count }
{
    match version {
        Version::Compact | Version::V1_1 => 16 * u64::from(count),
        Version::V1_2 => 32 * u64::from(count),
    }
}

/// Returns the size of an access descriptor that a header of this version states, in bytes. The compact header does not
/// state it: its bytes there are reserved, and the result is 0.
pub fn told_access_size(version: Version) -> u32
    ensures { result ≡ told_access_size version }
{
    match version {
        Version::Compact => 0,
        Version::V1_1 | Version::V1_2 => accesses_size(version, 1) as u32,
    }
}

/// Returns the offset of the first access descriptor, in bytes. In the compact form it is 32. The other headers state
/// it.
pub fn read_array<B: Bytes>(bytes: &B, version: Version) -> u32
    requires { header_size version ≤ length (B.bytes bytes.now) }
    ensures { result ≡ array_in version (B.bytes bytes.now) }
{
    match version {
        Version::Compact => 32,
        Version::V1_1 | Version::V1_2 => read_u32(bytes, 32),
    }
}

/// Whether the reserved bytes at the end of the header are 0.
fn is_rest_zero<B: Bytes>(bytes: &B, version: Version) -> bool
    requires { header_size version ≤ length (B.bytes bytes.now) }
    ensures { result ≡ is_rest_zero version (B.bytes bytes.now) }
{
    match version {
        Version::Compact => true,
        Version::V1_1 | Version::V1_2 => read_u32(bytes, 36) == 0 && read_u64(bytes, 40) == 0,
    }
}

// Reads the header in the form of a version, like `read_header`. Each caller passes a constant version. So where the
// compiler inlines this function, the places of the fields are constants.
#[inline(always)]
#[tactic(auto, unfolding(ffa_model::specs::FirstFlaws::header_flaw))]
fn read_in<B: Bytes>(bytes: &B, version: Version) -> Result<Header, HeaderFlaw>
    ensures whole { OnOk result (IsHeader (in_version version (B.bytes bytes.now))) }
    ensures found { IfOk result (λ h. h ≡ header_in (in_version version (B.bytes bytes.now))) }
    ensures inside { IfOk result (λ h. h.array + accesses_size version h.count ≤ length (B.bytes bytes.now)) }
    ensures first { let broken = option_map (λ flaw. FlawOfHeader flaw) (result_err result) in
        broken ≡ header_flaw (in_version version (B.bytes bytes.now)) }
{
    let len = bytes.len();
    let size = header_size(version);
    if len < size as usize {
        return Err(HeaderFlaw::Short);
    }
    if read_u32(bytes, 24) != told_access_size(version) {
        return Err(HeaderFlaw::AccessSize);
    }
    let array = read_array(bytes, version);
    if array % 16 != 0 {
        return Err(HeaderFlaw::ArrayUnaligned);
    }
    if array < size {
        return Err(HeaderFlaw::ArrayInHeader);
    }
    let count = read_u32(bytes, 28);
    if u64::from(array) + accesses_size(version, count) > len as u64 {
        return Err(HeaderFlaw::ArrayOutside);
    }
    if !is_rest_zero(bytes, version) {
        return Err(HeaderFlaw::Reserved);
    }
    Ok(Header {
        sender: EndpointId(read_u16(bytes, 0)),
        attributes: read_u16(bytes, 2),
        flags: read_u32(bytes, 4),
        handle: read_u64(bytes, 8),
        tag: read_u64(bytes, 16),
        count,
        array,
    })
}

/// Returns the header of a descriptor, if the bytes have a header in the form of this version. The access descriptors
/// then begin after the header and end inside the bytes.
///
/// # Errors
///
/// The first condition of a header that the bytes break.
#[inline(always)]
pub fn read_header<B: Bytes>(bytes: &B, version: Version) -> Result<Header, HeaderFlaw>
    ensures whole { OnOk result (IsHeader (in_version version (B.bytes bytes.now))) }
    ensures found { IfOk result (λ h. h ≡ header_in (in_version version (B.bytes bytes.now))) }
    ensures inside { IfOk result (λ h. h.array + accesses_size version h.count ≤ length (B.bytes bytes.now)) }
    ensures first { let broken = option_map (λ flaw. FlawOfHeader flaw) (result_err result) in
        broken ≡ header_flaw (in_version version (B.bytes bytes.now)) }
{
    match version {
        Version::Compact => read_in(bytes, Version::Compact),
        Version::V1_1 => read_in(bytes, Version::V1_1),
        Version::V1_2 => read_in(bytes, Version::V1_2),
    }
}
