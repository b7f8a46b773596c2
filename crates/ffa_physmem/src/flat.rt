// SPDX-License-Identifier: MIT OR Apache-2.0
//! RAM in one piece of memory.
ghost use Rattle.std.specs.Prelude.{◌≡◌, ℕ, ◌+◌, ◌*◌, ◌%◌, ◌^◌, ◌<◌, ◌≤◌, length, replicate, IfOk, vec_len};

use crate::memory::{PAGE_SIZE, PhysMem, put_word};
use crate::observed::{Observed, Unshared};
use ffa_model::{Address, PageNo};
use std::alloc::{AllocError, Allocator, Global};
use std::fmt;

/// The error that the allocator has no memory for the RAM.
#[derive(Clone, Copy, Debug, PartialEq, Eq)]
pub struct NoMemory;

impl fmt::Display for NoMemory {
    ghost use Rattle.std.specs.Prelude.{Some, codes};

    ghost output = { λ _. Some (codes "no memory") };

    fn fmt<W: fmt::Write>(&self, f: &mut fmt::Formatter<W>) -> fmt::Result {
        write!(f, "no memory")
    }
}

impl std::error::Error for NoMemory {}

impl From<AllocError> for NoMemory {
    fn from(_refused: AllocError) -> NoMemory {
        NoMemory
    }
}

/// RAM in one piece of memory.
#[derive(Drop)]
pub struct FlatRam<A: Allocator = Global> {
    base: Address,
    pages: Vec<[u8; 4096], A>,
    ghost aligned: { base.0 % 4096 ≡ 0 },
    ghost fits: { base.0 + 4096 * vec_len pages ≤ 2 ^ 32 },
}

impl FlatRam {
    ghost use Rattle.ffa_model.specs.Ram.{zero_ram};

    /// Returns RAM of this number of pages, which begins at this address and is all zeros.
    ///
    /// # Errors
    ///
    /// `NoMemory`: the allocator has no memory for the RAM. There is no other error.
    pub fn new(alloc: Global, base: Address, pages: u32) -> Result<FlatRam, NoMemory>
        requires aligned { base.0 % 4096 ≡ 0 }
        requires some { 1 ≤ pages }
        requires fits { base.0 + 4096 * pages ≤ 2 ^ 32 }
        ensures { IfOk result (λ m. ⟦<FlatRam as PhysMem>⟧.ram m ≡ zero_ram base.0 pages) }
    {
        FlatRam::new_in(alloc, base, pages)
    }
}

impl<A: Allocator> FlatRam<A> {
    ghost use Rattle.ffa_model.specs.Ram.{zero_ram};

    /// Returns RAM of this number of pages, which begins at this address and is all zeros. Its memory is from the
    /// allocator that the caller passes.
    ///
    /// # Errors
    ///
    /// `NoMemory`: the allocator has no memory for the RAM. There is no other error.
    pub fn new_in(alloc: A, base: Address, pages: u32) -> Result<FlatRam<A>, NoMemory>
        requires aligned { base.0 % 4096 ≡ 0 }
        requires some { 1 ≤ pages }
        requires fits { base.0 + 4096 * pages ≤ 2 ^ 32 }
        ensures { IfOk result (λ m. ⟦<FlatRam<A> as PhysMem>⟧.ram m ≡ zero_ram base.0 pages) }
    {
        let pages = zero_pages(alloc, pages)?;
        Ok(FlatRam { base, pages })
    }
}

// Returns this number of pages of zeros.
fn zero_pages<A: Allocator>(alloc: A, count: u32) -> Result<Vec<[u8; 4096], A>, AllocError>
    ensures { IfOk result (λ v. v.items ≡ replicate count (replicate 4096 0)) }
{
    let mut pages = Vec::with_capacity(alloc, count as usize)?;
    for _index in 0..count {
        pages.push([0; PAGE_SIZE])?;
    }
    Ok(pages)
}

impl<A: Allocator> PhysMem for FlatRam<A> {
    ghost use Rattle.ffa_physmem.specs.Unrecorded.{no_site, no_spending, no_steps, no_turn, unrecorded};
    ghost use Rattle.ffa_physmem.specs.Work.{loans_of};
    ghost use Rattle.std.specs.Prelude.{refl};
    ghost use Rattle.std.specs.Vec.{with_item};

    ghost ram = { λ m. record { base = m.base.0; pages = m.pages.items } };

    ghost memory = { λ m. record { base = m.base.0; pages = m.pages.items } };

    ghost with_bytes = { λ m page bytes. record m { pages = with_item m.pages page bytes } };

    // This RAM stores no history, and no page is ever in a copy.
    ghost past = { λ _. unrecorded no_site };

    ghost beneath = { λ _. refl };

    ghost one_page = { λ m page bytes. refl };

    ghost in_loan = { λ _ _ _. no_steps refl };

    ghost one_loan = { λ _ _ _. no_spending no_site (loans_of 1) };

    ghost in_turn = { λ _. no_turn _ no_site };

    fn base(&self) -> Address {
        self.base
    }

    fn pages(&self) -> u32 {
        self.pages.len() as u32
    }

    fn page(&self, page: PageNo) -> &[u8; 4096] {
        let bytes = &self.pages[page.0 as usize];
        // Proof step: the whole of a page is its 4096 bytes.
        let _ = &bytes[..];
        bytes
    }

    fn page_mut(&mut self, page: PageNo) -> &mut [u8; 4096] {
        &mut self.pages[page.0 as usize]
    }

    fn write_word(&mut self, page: PageNo, index: usize, value: u64) {
        put_word(self.page_mut(page), index, value);
    }

    fn settle(&mut self, _endpoint: usize, _first: PageNo, _count: u32) {}
}

// Nobody else writes to this RAM. So each page always has the bytes of one reading.
impl<A: Allocator> Observed for FlatRam<A> {
    ghost use Rattle.std.specs.Prelude.{true, false};

    ghost is_alone = { true };

    ghost is_copying = { false };

    ghost is_shared = { false };

    #[inline(always)]
    fn is_shared(&self) -> bool {
        false
    }

    fn observe(&mut self, _first: PageNo, _count: u32, _bytes: usize) {}

    fn release(&mut self, _first: PageNo, _count: u32) {}
}

impl<A: Allocator> Unshared for FlatRam<A> {
    ghost use Rattle.std.specs.Prelude.{refl};

    ghost unshared = { refl };

    ghost free = { λ _. refl };
}
