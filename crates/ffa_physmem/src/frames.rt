// SPDX-License-Identifier: MIT OR Apache-2.0
//! RAM in frames: each page has a box of its own.
ghost use Rattle.std.specs.Prelude.{◌≡◌, ℕ, ◌+◌, ◌*◌, ◌%◌, ◌^◌, ◌<◌, ◌≤◌, length, map, replicate, IfOk, vec_len};

use crate::flat::NoMemory;
use crate::memory::{PAGE_SIZE, PhysMem, put_word};
use crate::observed::{Observed, Unshared};
use ffa_model::{Address, PageNo};
use std::alloc::{AllocError, Allocator, Global};

/// RAM in frames of one page each, which need not be next to each other in memory. The list of frames may be in memory
/// of another allocator.
#[derive(Drop)]
pub struct FrameRam<A: Allocator = Global, L: Allocator = A> {
    base: Address,
    frames: Vec<Box<[u8; 4096], A>, L>,
    ghost aligned: { base.0 % 4096 ≡ 0 },
    ghost fits: { base.0 + 4096 * vec_len frames ≤ 2 ^ 32 },
}

impl FrameRam {
    ghost use Rattle.ffa_model.specs.Ram.{zero_ram};

    /// Returns RAM of this number of pages, which begins at this address and is all zeros.
    ///
    /// # Errors
    ///
    /// `NoMemory`: the allocator has no memory for the RAM. There is no other error. The memory that it allocated is
    /// then freed.
    pub fn new(alloc: Global, base: Address, pages: u32) -> Result<FrameRam, NoMemory>
        requires aligned { base.0 % 4096 ≡ 0 }
        requires some { 1 ≤ pages }
        requires fits { base.0 + 4096 * pages ≤ 2 ^ 32 }
        ensures { IfOk result (λ m. ⟦<FrameRam as PhysMem>⟧.ram m ≡ zero_ram base.0 pages) }
    {
        FrameRam::new_in(alloc, base, pages)
    }
}

impl<A: Allocator + Copy> FrameRam<A> {
    ghost use Rattle.ffa_model.specs.Ram.{zero_ram};

    /// Returns RAM of this number of pages, which begins at this address and is all zeros. Its memory is from the
    /// allocator that the caller passes.
    ///
    /// # Errors
    ///
    /// `NoMemory`: the allocator has no memory for the RAM. There is no other error. The memory that it allocated is
    /// then freed.
    pub fn new_in(alloc: A, base: Address, pages: u32) -> Result<FrameRam<A>, NoMemory>
        requires aligned { base.0 % 4096 ≡ 0 }
        requires some { 1 ≤ pages }
        requires fits { base.0 + 4096 * pages ≤ 2 ^ 32 }
        ensures { IfOk result (λ m. ⟦<FrameRam<A> as PhysMem>⟧.ram m ≡ zero_ram base.0 pages) }
    {
        let frames = zero_frames(alloc, pages)?;
        Ok(FrameRam { base, frames })
    }
}

impl<A: Allocator, L: Allocator> FrameRam<A, L> {
    ghost use Rattle.ffa_physmem.specs.FrameRam.{frames_of, ram_of};

    /// Returns RAM whose pages are these frames, with the bytes in them. Its base is this address.
    pub fn of(base: Address, frames: Vec<Box<[u8; 4096], A>, L>) -> FrameRam<A, L>
        requires aligned { base.0 % 4096 ≡ 0 }
        requires fits { base.0 + 4096 * vec_len frames ≤ 2 ^ 32 }
        ensures ram { ram_of result ≡ record { base = base.0; pages = map (λ b. b.value) frames.items } }
        ensures frames { frames_of result ≡ frames.items }
    {
        FrameRam { base, frames }
    }

    /// Returns the frames, with the bytes of the RAM.
    pub fn into_frames(self) -> Vec<Box<[u8; 4096], A>, L>
        ensures bytes { map (λ b. b.value) result.items ≡ (ram_of self).pages }
        ensures frames { result.items ≡ frames_of self }
    {
        self.frames
    }
}

/// Returns this number of frames of zeros.
///
/// # Errors
///
/// The allocator has no memory for the frames. The memory that it allocated is then freed.
pub fn zero_frames<A: Allocator + Copy>(
    alloc: A,
    count: u32,
) -> Result<Vec<Box<[u8; 4096], A>, A>, AllocError>
    ensures { IfOk result (λ v. map (λ b. b.value) v.items ≡ replicate count (replicate 4096 0)) }
{
    let mut frames = Vec::with_capacity(alloc, count as usize)?;
    for _index in 0..count {
        frames.push(Box::new(alloc, [0; PAGE_SIZE])?)?;
    }
    Ok(frames)
}

impl<A: Allocator, L: Allocator> PhysMem for FrameRam<A, L> {
    ghost use Rattle.ffa_physmem.specs.Unrecorded.{no_site, no_spending, no_steps, no_turn, unrecorded};
    ghost use Rattle.ffa_physmem.specs.Work.{loans_of};
    ghost use Rattle.std.specs.Prelude.{refl};
    ghost use Rattle.ffa_physmem.specs.FrameRam.{ram_of, with_frame, ram_of-with_frame};

    ghost ram = { ram_of };

    ghost memory = { ram_of };

    ghost with_bytes = { with_frame };

    // This RAM stores no history, and no page is ever in a copy.
    ghost past = { λ _. unrecorded no_site };

    ghost beneath = { λ _. refl };

    ghost one_page = { ram_of-with_frame };

    ghost in_loan = { λ _ _ _. no_steps refl };

    ghost one_loan = { λ _ _ _. no_spending no_site (loans_of 1) };

    ghost in_turn = { λ _. no_turn _ no_site };

    fn base(&self) -> Address {
        self.base
    }

    fn pages(&self) -> u32 {
        self.frames.len() as u32
    }

    fn page(&self, page: PageNo) -> &[u8; 4096] {
        let bytes = self.frames[page.0 as usize].as_ref();
        // Proof step: the whole of a page is its 4096 bytes.
        let _ = &bytes[..];
        bytes
    }

    fn page_mut(&mut self, page: PageNo) -> &mut [u8; 4096] {
        self.frames[page.0 as usize].as_mut()
    }

    fn write_word(&mut self, page: PageNo, index: usize, value: u64) {
        put_word(self.page_mut(page), index, value);
    }

    fn settle(&mut self, _endpoint: usize, _first: PageNo, _count: u32) {}
}

// Nobody else writes to this RAM. So each page always has the bytes of one reading.
impl<A: Allocator, L: Allocator> Observed for FrameRam<A, L> {
    ghost use Rattle.std.specs.Prelude.{true, false};

    ghost is_alone = { true };

    ghost is_copying = { false };

    ghost is_shared = { false };

    #[inline(always)]
    fn is_shared(&self) -> bool {
        false
    }

    fn observe(&mut self, _first: PageNo, _count: u32, _bytes: usize) {}

    fn release(&mut self, _first: PageNo, _count: u32) {}
}

impl<A: Allocator, L: Allocator> Unshared for FrameRam<A, L> {
    ghost use Rattle.std.specs.Prelude.{refl};

    ghost unshared = { refl };

    ghost free = { λ _. refl };
}
