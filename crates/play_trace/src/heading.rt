// SPDX-License-Identifier: MIT OR Apache-2.0
//! Writes transaction headers.

ghost use Rattle.std.specs.Prelude.{◌≤◌, length};
ghost use Rattle.ffa_model.specs.DescriptorPlaces.{header_size};
ghost use Rattle.ffa_memdesc.specs.Writing.{Wrote};
ghost use Rattle.play_trace.specs.Composed.{heading_bytes};

use ffa_memdesc::parts::{told_access_size, write_rest};
use ffa_memdesc::put::{put_u16, put_u32, put_u64};
use ffa_model::{EndpointId, Version};

/// The contents of a transaction header.
#[derive(Clone, Copy)]
pub struct Heading {
    pub sender: EndpointId,
    pub attributes: u16,
    pub flags: u32,
    pub handle: u64,
    pub tag: u64,
    /// The number of access descriptors.
    pub count: u32,
}

/// Writes a transaction header of this version from the page's first byte on. The header says that the access
/// descriptors follow directly after it.
pub fn write_heading(page: &mut [u8], version: Version, heading: &Heading)
    requires { header_size version ≤ length page.old }
    ensures { Wrote page.old (heading_bytes version heading.now) (header_size version) page.new }
{
    put_u16(page, 0, heading.sender.0);
    put_u16(page, 2, heading.attributes);
    put_u32(page, 4, heading.flags);
    put_u64(page, 8, heading.handle);
    put_u64(page, 16, heading.tag);
    put_u32(page, 24, told_access_size(version));
    put_u32(page, 28, heading.count);
    write_rest(page, version);
}
