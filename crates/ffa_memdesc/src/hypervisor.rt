// SPDX-License-Identifier: MIT OR Apache-2.0
//! The descriptor of a hypervisor's retrieve, which requests what the hypervisor sent: a header with a handle, and no
//! other fields (DEN0077A, 16).

ghost use Rattle.std.specs.Prelude.{◌≡◌, ◌≤◌, ◌==◌, ◌&&◌, length, nat_le};
ghost use Rattle.ffa_model.specs.DescriptorPlaces.{header_size, in_version, receiver_count, u64_at};
ghost use Rattle.ffa_model.specs.HypervisorRetrieve.{handle_alone, is_end_zero};

use crate::bytes::{Bytes, read_u32, read_u64};
use crate::header::header_size;
use ffa_model::Version;

/// Whether the bytes have a whole header that counts no access descriptor.
pub fn has_no_access<B: Bytes>(bytes: &B, version: Version) -> bool
    ensures { let b = in_version version (B.bytes bytes.now) in
        result ≡ (nat_le (header_size version) (length (B.bytes bytes.now)) && receiver_count b == 0) }
{
    bytes.len() >= header_size(version) as usize && read_u32(bytes, 28) == 0
}

// Whether all bytes of the header after the first 32 are 0.
fn is_end_zero<B: Bytes>(bytes: &B, version: Version) -> bool
    requires { header_size version ≤ length (B.bytes bytes.now) }
    ensures { result ≡ is_end_zero version (B.bytes bytes.now) }
{
    match version {
        Version::Compact => true,
        Version::V1_1 | Version::V1_2 => read_u64(bytes, 32) == 0 && read_u64(bytes, 40) == 0,
    }
}

/// Returns the handle in a header, or `None` if another byte of the header is not 0.
pub fn read_handle_alone<B: Bytes>(bytes: &B, version: Version) -> Option<u64>
    requires { header_size version ≤ length (B.bytes bytes.now) }
    ensures { result ≡ handle_alone (in_version version (B.bytes bytes.now)) }
{
    let is_front_zero = read_u64(bytes, 0) == 0 && read_u64(bytes, 16) == 0;
    let is_back_zero = read_u64(bytes, 24) == 0 && is_end_zero(bytes, version);
    if is_front_zero && is_back_zero {
        Some(read_u64(bytes, 8))
    } else {
        None
    }
}

/// Returns the handle in a header. The other bytes of the header may have any values.
pub fn handle_of_header<B: Bytes>(bytes: &B) -> u64
    requires { 16 ≤ length (B.bytes bytes.now) }
    ensures { result ≡ u64_at (B.bytes bytes.now) 8 }
{
    read_u64(bytes, 8)
}
