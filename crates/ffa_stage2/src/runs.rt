// SPDX-License-Identifier: MIT OR Apache-2.0
//! Pages whose words rise by 4096 from word to word.
ghost use Rattle.std.specs.Prelude.{◌+◌, ◌*◌, ◌≤◌, ◌↔◌, IsTrue, length};
ghost use Rattle.ffa_stage2.specs.Blocks.{IsUniform};
ghost use Rattle.ffa_stage2.specs.Places.{IsRun};

use byteorder::{ByteOrder, LittleEndian};
use ffa_physmem::PAGE_SIZE;
use std::simd::prelude::*;

/// The difference between each of 8 consecutive words and the first of them.
const STEPS: [u64; 8] = [0, 0x1000, 0x2000, 0x3000, 0x4000, 0x5000, 0x6000, 0x7000];

// Whether the 8 words from place `at` on are `first`, `first` + 4096, and so on. The sums wrap.
fn is_run(page: &[u8], at: usize, first: u64) -> bool
    requires { 8 * (at + 8) ≤ length page.now }
    ensures { IsTrue result ↔ IsRun page.now at first }
{
    let words = u64x8::from_le_bytes(u8x64::from_slice(&page[8 * at..]));
    let wanted = u64x8::splat(first) + u64x8::from_array(STEPS);
    words.simd_ne(wanted).to_bitmask() == 0
}

/// Whether each of a page's 512 words is the first word plus 4096 times its place. The sums do not wrap.
pub fn is_uniform(page: &[u8; 4096]) -> bool
    ensures { IsTrue result ↔ IsUniform page.now }
{
    let first = LittleEndian::read_u64(page);
    // The last word would not fit in 64 bits.
    if first > u64::MAX - PAGE_SIZE as u64 * 511 {
        return false;
    }
    for run in 0..64 {
        if !is_run(page, 8 * run, first + 0x8000 * run as u64) {
            return false;
        }
    }
    true
}
