// SPDX-License-Identifier: MIT OR Apache-2.0
//! Copies of pages to which others may write.
ghost use Rattle.std.specs.Prelude.{◌≡◌, ℕ, ◌+◌, ◌*◌, ◌<◌, ◌≤◌, ◌-◌, [], length, slice_index_or, take};
ghost use Rattle.ffa_model.specs.Ram.{page_of};
ghost use Rattle.ffa_physmem.specs.FrameRam.{ram_of as frame_ram};

use crate::lent::Lent;
use ffa_model::PageNo;
use ffa_physmem::{FrameRam, PAGE_SIZE, PhysMem, put_front};
use std::alloc::Global;

/// Copies the first `bytes` bytes of `count` frames from `first` on. It reads each of these bytes once, and no other
/// byte.
pub(crate) fn copy_frames(
    copies: &mut [[u8; 4096]],
    frames: &FrameRam<Lent, Global>,
    first: PageNo,
    count: u32,
    bytes: usize,
)
    requires within { first.0 + count ≤ length (frame_ram frames.now).pages }
    requires room { count ≤ length copies.old }
    ensures room { length copies.new ≡ length copies.old }
    ensures copied { (k : ℕ) → k < count → take (bytes - 4096 * k) (slice_index_or copies.new k [])
        ≡ take (bytes - 4096 * k) (page_of (frame_ram frames.now) (first.0 + k)) }
    ensures whole { (k : ℕ) → k < count
        → length (slice_index_or copies.new k []) ≡ length (page_of (frame_ram frames.now) (first.0 + k)) }
{
    for index in 0..count {
        let frame = frames.page(PageNo(first.0 + index));
        let behind = bytes.saturating_sub(PAGE_SIZE * index as usize);
        copy_front(&mut copies[index as usize], front(frame, behind));
        are_alike(&copies[index as usize], frame);
    }
}

// Returns the first `bytes` bytes of a page, or the whole page if it has fewer bytes.
fn front(page: &[u8; 4096], bytes: usize) -> &[u8]
    ensures { result.now ≡ take bytes page.now }
{
    &page[..bytes.min(PAGE_SIZE)]
}

// Copies all these bytes to the front of a page.
fn copy_front(copy: &mut [u8; 4096], bytes: &[u8])
    requires { length bytes.now ≤ 4096 }
    ensures { take (length bytes.now) copy.new ≡ bytes.now }
{
    put_front(copy, bytes);
}

/// Proof step: two pages have the same number of bytes.
pub(crate) fn are_alike(copy: &[u8; 4096], frame: &[u8; 4096])
    ensures { length copy.now ≡ length frame.now }
{
    let _ = &copy[..];
    let _ = &frame[..];
}
