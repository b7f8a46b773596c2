// SPDX-License-Identifier: MIT OR Apache-2.0
//! Access descriptors of memory transactions.

ghost use Rattle.std.specs.Prelude.{◌≡◌, ◌+◌, ◌≤◌, length};
ghost use Rattle.ffa_model.specs.DescriptorPlaces.{accesses_size, in_version, is_access_rest_zero};
ghost use Rattle.ffa_model.specs.Bits.{bits};
ghost use Rattle.ffa_memdesc.specs.Reading.{access_in};

use crate::bytes::{Bytes, read_u16, read_u32, read_u64};
use ffa_model::{EndpointId, Version};

/// The fields of an access descriptor, as the bytes have them.
#[derive(Clone, Copy, PartialEq, Eq)]
pub struct Access {
    pub endpoint: EndpointId,
    pub permissions: u8,
    pub flags: u8,
    /// The offset of the composite in the descriptor, in bytes.
    pub composite: u32,
    /// Whether all bytes after the offset of the composite are 0.
    pub is_rest_zero: bool,
}

impl Access {
    /// Returns the data permission, which is bits 1:0 of the permissions.
    pub fn data_code(&self) -> u8
        ensures { result ≡ bits 1 0 self.now.permissions }
    {
        self.permissions & 3
    }

    /// Returns the instruction permission, which is bits 3:2 of the permissions.
    pub fn instruction_code(&self) -> u8
        ensures { result ≡ bits 3 2 self.now.permissions }
    {
        self.permissions >> 2 & 3
    }
}

/// Whether all bytes after the composite's offset are 0, in the access descriptor at this place. These are 8 bytes, and
/// 24 bytes in the layout of FF-A 1.2.
fn is_rest_zero<B: Bytes>(bytes: &B, version: Version, at: usize) -> bool
    requires { at + accesses_size version 1 ≤ length (B.bytes bytes.now) }
    ensures { result ≡ is_access_rest_zero version (B.bytes bytes.now) at }
{
    // Proof step: the number of bytes fits a usize.
    let _ = bytes.len();
    match version {
        Version::Compact | Version::V1_1 => read_u64(bytes, at + 8) == 0,
        Version::V1_2 => {
            read_u64(bytes, at + 8) == 0
                && read_u64(bytes, at + 16) == 0
                && read_u64(bytes, at + 24) == 0
        }
    }
}

/// Returns the fields of the access descriptor at this place, in the layout of this version.
pub fn read_access<B: Bytes>(bytes: &B, version: Version, at: usize) -> Access
    requires { at + accesses_size version 1 ≤ length (B.bytes bytes.now) }
    ensures { result ≡ access_in (in_version version (B.bytes bytes.now)) at }
{
    // Proof step: the number of bytes fits a usize.
    let _ = bytes.len();
    Access {
        endpoint: EndpointId(read_u16(bytes, at)),
        permissions: bytes.at(at + 2),
        flags: bytes.at(at + 3),
        composite: read_u32(bytes, at + 4),
        is_rest_zero: is_rest_zero(bytes, version, at),
    }
}
