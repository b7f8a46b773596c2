// SPDX-License-Identifier: MIT OR Apache-2.0
//! The parts that descriptors of transactions have in common (DEN0077A, 5.11 and 16): their sizes and checks, and how
//! the library writes them.

ghost use Rattle.std.specs.Prelude.{◌+◌, ◌*◌, ◌^◌, ◌<◌, ◌≤◌, List, ℕ, length, ◌++◌};
ghost use Rattle.std.specs.List.{flat_map};
ghost use Rattle.ffa_model.specs.declared.limits.TheConstants.{MOST_RANGES};
ghost use Rattle.ffa_model.specs.DescriptorPlaces.{accesses_size, header_size};
ghost use Rattle.ffa_model.specs.SendDescriptor.{page_total};
ghost use Rattle.ffa_model.specs.ResponseBytes.{access_rest_bytes, rest_bytes, composite_bytes, range_bytes};
ghost use Rattle.ffa_memdesc.specs.Writing.{Wrote};

use crate::header::RANGE_SIZE;
pub use crate::header::{accesses_size, header_size, told_access_size};
use crate::put::{put_u32, put_u64};
pub use crate::ranges::{is_apart_from, page_total, range_end};
pub use crate::receivers::is_named;
pub use crate::send::attributes_of;
use ffa_model::{Range, Version};

/// Writes the bytes of the header after its first 32. These bytes are the offset of the access descriptors, and zeros.
/// The compact header ends before them, so nothing is written in the compact form.
pub fn write_rest(out: &mut [u8], version: Version)
    requires { header_size version ≤ length out.old }
    ensures { (old front : List ℕ) → Wrote old front 32 out.old
        → Wrote old (front ++ rest_bytes version) (header_size version) out.new }
{
    match version {
        Version::Compact => {}
        Version::V1_1 | Version::V1_2 => {
            put_u32(out, 32, 48);
            put_u32(out, 36, 0);
            put_u64(out, 40, 0);
        }
    }
}

/// Writes zeros into the access descriptor at a place, after its first 8 bytes.
pub fn write_access_rest(out: &mut [u8], version: Version, at: usize)
    requires { at + accesses_size version 1 ≤ length out.old }
    ensures { (old front : List ℕ) → Wrote old front (at + 8) out.old
        → Wrote old (front ++ access_rest_bytes version) (at + accesses_size version 1) out.new }
{
    put_u64(out, at + 8, 0);
    match version {
        Version::Compact | Version::V1_1 => {}
        Version::V1_2 => {
            put_u64(out, at + 16, 0);
            put_u64(out, at + 24, 0);
        }
    }
}

/// Writes a composite at a place, without its ranges: the number of pages, the number of ranges, and zeros.
pub fn write_composite(out: &mut [u8], at: usize, ranges: &[Range])
    requires room { at + 16 ≤ length out.old }
    requires few { length ranges.now ≤ MOST_RANGES }
    requires total { page_total ranges.now < 2 ^ 32 }
    ensures { (old front : List ℕ) → Wrote old front at out.old
        → Wrote old (front ++ composite_bytes ranges.now) (at + 16) out.new }
{
    put_u32(out, at, page_total(ranges) as u32);
    put_u32(out, at + 4, ranges.len() as u32);
    put_u64(out, at + 8, 0);
}

fn write_range(out: &mut [u8], at: usize, range: &Range)
    requires { at + 16 ≤ length out.old }
    ensures { (old front : List ℕ) → Wrote old front at out.old
        → Wrote old (front ++ range_bytes range.now) (at + 16) out.new }
{
    put_u64(out, at, range.address);
    put_u32(out, at + 8, range.pages);
    put_u32(out, at + 12, 0);
}

/// Writes ranges from a place on, one after another.
pub fn write_ranges(out: &mut [u8], at: usize, ranges: &[Range])
    requires { at + 16 * length ranges.now ≤ length out.old }
    ensures { (old front : List ℕ) → Wrote old front at out.old
        → Wrote old (front ++ flat_map range_bytes ranges.now) (at + 16 * length ranges.now) out.new }
{
    for i in 0..ranges.len() {
        write_range(out, at + RANGE_SIZE as usize * i, &ranges[i]);
    }
}
