// SPDX-License-Identifier: MIT OR Apache-2.0
//! Writes access descriptors.

ghost use Rattle.std.specs.Prelude.{◌+◌, ◌^◌, ◌<◌, ◌≤◌, List, ℕ, length, ◌++◌};
ghost use Rattle.ffa_model.specs.DescriptorPlaces.{accesses_size};
ghost use Rattle.ffa_memdesc.specs.Writing.{Wrote};
ghost use Rattle.play_trace.specs.Composed.{entry_bytes};

use ffa_memdesc::parts::write_access_rest;
use ffa_memdesc::put::{put_u8, put_u16, put_u32};
use ffa_model::{EndpointId, Version};

/// Writes an access descriptor of this version into a page, from the byte at the offset `at` on. The descriptor says
/// that the composite begins at the byte `composite`.
pub fn write_access(
    page: &mut [u8],
    version: Version,
    at: usize,
    endpoint: EndpointId,
    permissions: u8,
    composite: u32,
)
    requires { at + accesses_size version 1 ≤ length page.old }
    ensures bytes { (old front : List ℕ) → Wrote old front at page.old
        → Wrote old (front ++ entry_bytes version endpoint.0 permissions composite) (at + accesses_size version 1) page.new }
    ensures fit { endpoint.0 < 2 ^ 16 }
{
    put_u16(page, at, endpoint.0);
    put_u8(page, at + 2, permissions);
    put_u8(page, at + 3, 0);
    put_u32(page, at + 4, composite);
    write_access_rest(page, version, at);
}
